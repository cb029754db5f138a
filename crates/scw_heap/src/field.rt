//! Packed numbers: some bits of a word.

ghost use Rattle.std.specs.Prelude.{◌≡◌, ◌+◌, ◌<◌, ◌≤◌, ◌^◌};
ghost use Rattle.scw_heap.specs.Layout.{field, with_field};

/// The number of `width` bits from the bit `shift` on.
pub fn field(word: u64, shift: u32, width: u32) -> u64
    requires some { 0 < width }
    requires within { shift + width ≤ 64 }
    ensures { result ≡ field word shift width }
{
    (word >> shift) & (u64::MAX >> (64 - width))
}

/// The word, of which these bits are those of `v`.
pub fn with_field(word: u64, shift: u32, width: u32, v: u64) -> u64
    requires some { 0 < width }
    requires within { shift + width ≤ 64 }
    requires narrow { v < 2 ^ width }
    ensures { result ≡ with_field word shift width v }
{
    word - (field(word, shift, width) << shift) + (v << shift)
}

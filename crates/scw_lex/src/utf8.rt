//! How many bytes characters have in UTF-8, which spans count.

ghost use Rattle.std.specs.Prelude.{◌≡◌, ◌≤◌, ◌+◌, length, take, drop};
ghost use Rattle.std.specs.Str.{encode_utf8_all};
ghost use Rattle.scw_text.specs.declared.source.TheConstants.{MAX_SOURCE_BYTES};

/// How many bytes the characters have.
pub(crate) fn byte_len(text: &[char]) -> usize
    requires { length text.now ≤ MAX_SOURCE_BYTES }
    ensures { result ≡ length (encode_utf8_all text.now) }
{
    let mut len = 0;
    for c in text {
        len += c.len_utf8();
    }
    len
}

/// How many bytes the first so many characters have.
pub(crate) fn front_len(text: &[char], count: usize) -> u32
    requires within { count ≤ length text.now }
    requires fits { length (encode_utf8_all text.now) ≤ MAX_SOURCE_BYTES }
    ensures value { result ≡ length (encode_utf8_all (take count text.now)) }
    ensures rest { result + length (encode_utf8_all (drop count text.now)) ≡ length (encode_utf8_all text.now) }
{
    let (front, _) = text.split_at(count);
    byte_len(front) as u32
}

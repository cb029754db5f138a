//! Access and property flags: JVMS 4.1, 4.5 and 4.6.

ghost use Rattle.std.specs.Prelude.{⊤, ◌≡◌, [], ◌∷◌, codes};

use bitflags::{Flag, Flags, bitflag_items};

/// A set of sixteen flags. Bits without a name are kept.
///
/// Some bits have one name in a class and another in a method; the names here are those that class
/// files of version 52 of this compiler use.
#[derive(Clone, Copy, PartialEq, Eq, Debug)]
pub struct AccessFlags(pub u16);

bitflag_items! {
    impl AccessFlags: u16 {
        const PUBLIC = 0x0001;
        const PRIVATE = 0x0002;
        const PROTECTED = 0x0004;
        const STATIC = 0x0008;
        const FINAL = 0x0010;
        const SUPER = 0x0020;
        const BRIDGE = 0x0040;
        const INTERFACE = 0x0200;
        const ABSTRACT = 0x0400;
        const SYNTHETIC = 0x1000;
    }
}

impl Flags for AccessFlags {
    type Bits = u16;

    ghost exact = { ⊤ };

    ghost table = { (codes "PUBLIC", 0x0001) ∷ (codes "PRIVATE", 0x0002) ∷ (codes "PROTECTED", 0x0004)
        ∷ (codes "STATIC", 0x0008) ∷ (codes "FINAL", 0x0010) ∷ (codes "SUPER", 0x0020) ∷ (codes "BRIDGE", 0x0040)
        ∷ (codes "INTERFACE", 0x0200) ∷ (codes "ABSTRACT", 0x0400) ∷ (codes "SYNTHETIC", 0x1000) ∷ [] };

    ghost set_of = { λ f. f.0 };

    fn flags<'a>() -> &'a [Flag<AccessFlags>] {
        AccessFlags::FLAGS
    }

    fn bits(&self) -> u16 {
        self.0
    }

    fn from_bits_retain(bits: u16) -> AccessFlags {
        AccessFlags(bits)
    }
}

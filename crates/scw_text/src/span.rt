//! Parts of a source.

ghost use Rattle.std.specs.Prelude.{◌≤◌};

/// A part of a source, by its bytes: from `start` to before `end`.
#[derive(Clone, Copy, Debug, PartialEq, Eq)]
pub struct Span {
    /// The number of the source, in the order of the words.
    pub file: u32,
    /// The first byte.
    pub start: u32,
    /// The byte after the last.
    pub end: u32,
    ghost ordered: { start ≤ end },
}

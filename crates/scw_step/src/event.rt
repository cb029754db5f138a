//! What an instruction comes to.

/// What an instruction comes to, if the machine goes on or has ended.
#[derive(Clone, Copy)]
pub enum Event {
    /// The machine goes on.
    On,
    /// The same, and the text of the string with the number is to be put; that of null, 0, is `null`.
    Says(u64),
    /// The first frame returned.
    Ended,
    /// No frame caught the exception with the number.
    Thrown(u64),
}

//! What of a class file decides how its later parts are read.

use crate::pool_entry::EntryKind;

/// The version, the kinds of the pool's entries, and where the instructions of a method begin.
#[derive(Clone, Copy)]
pub struct Context<'a> {
    /// The major version.
    pub major: u16,
    /// The kinds of the pool's entries, the first of which has index 1.
    pub kinds: &'a [EntryKind],
    /// For each byte of the method's code whether an opcode is there; nothing outside a `Code`.
    pub starts: &'a [bool],
}

//! What names stand for.

use scw_reader::TypeName;
use scw_text::SymId;
use sqlite_items::Items;

/// A parameter or local.
#[derive(Clone, Copy, Debug, PartialEq, Eq)]
pub(crate) struct Variable {
    /// Its symbol.
    pub symbol: SymId,
    /// Its type.
    pub kind: TypeName,
    /// It is a `var`.
    pub is_assignable: bool,
}

/// What a call needs to know of a method.
#[derive(Drop)]
pub(crate) struct Signature {
    /// Its symbol.
    pub symbol: SymId,
    /// The types of its parameters.
    pub kinds: Items<TypeName>,
    /// The type of its result.
    pub answer: TypeName,
}

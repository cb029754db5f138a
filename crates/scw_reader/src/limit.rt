//! The limits of a source.

/// The most bytes of a source.
pub const MAX_BYTES: usize = 4096;

/// The most expressions that are open at a place, so that descending through them takes little of the stack.
pub const MAX_NESTING: usize = 100;

/// The most nodes that stand one in the other in the tree by the grammar of the whole language.
pub const MAX_DEPTH: usize = 200;

/// The most parameters of a method.
pub const MAX_PARAMETERS: usize = 20;

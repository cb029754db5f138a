//! What the instructions of a file are resolved by.

use scw_classfile::{ClassFile, PoolEntry};
use scw_text::Units;

/// A name and a descriptor that virtual calls select by.
#[derive(Clone, Copy)]
pub struct Selector<'f> {
    pub name: &'f Units,
    pub descriptor: &'f Units,
}

/// What the instructions of a file are resolved by.
#[derive(Clone, Copy)]
pub struct Site<'f> {
    /// The files of the program.
    pub files: &'f [ClassFile],
    /// The direct superclass of each class.
    pub parents: &'f [Option<usize>],
    pub selectors: &'f [Selector<'f>],
    /// The pool of the file.
    pub pool: &'f [PoolEntry],
    /// How many pool entries the files before it have.
    pub before: usize,
}

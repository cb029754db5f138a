//! The productions take what reads the expressions inside them as a parameter, so that each is proved by itself.

ghost use Rattle.scw_reader.specs.Parser.{Reads};
ghost use Rattle.scw_reader.specs.Nests.{Nests};
ghost use Rattle.scw_reader.specs.Reading as spec;
ghost use Rattle.scw_reader.specs.View.{expression_of};

use crate::cursor::Cursor;
use crate::failure::Failure;
use crate::tree::Expression;
use std::alloc::Global;

/// What reads the productions of expressions.
#[derive(Clone, Copy)]
pub(crate) struct Grammar<F> {
    /// What gives memory.
    pub alloc: Global,
    /// How many levels the expressions inside may fit.
    pub levels: usize,
    /// What reads them.
    pub read: F,
}

impl<F: Fn(Global, &mut Cursor<'_>, usize) -> Result<Expression, Failure>> Grammar<F> {
    /// An expression one level down.
    pub fn read_expression(&self, tokens: &mut Cursor<'_>) -> Result<Expression, Failure>
        requires { Nests self.now.levels (F.pre self.now.read) (F.post self.now.read) }
        ensures { Reads expression_of (spec.expression_at self.now.levels tokens.old.rest.now) result tokens.new.rest.now }
    {
        (self.read)(self.alloc, tokens, self.levels)
    }
}

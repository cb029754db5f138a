//! Expressions: SLS 6.

ghost use Rattle.std.specs.Prelude.{map, []};
ghost use Rattle.scw_reader.specs.Parser.{Reads};
ghost use Rattle.scw_reader.specs.Nests.{Nests};
ghost use Rattle.scw_reader.specs.Reading as spec;
ghost use Rattle.scw_reader.specs.View.{expression_of};

use crate::cursor::{Cursor, Start};
use crate::failure::Failure;
use crate::grammar::Grammar;
use crate::token::{Sign, Word};
use crate::tree::Expression;
use std::alloc::Global;

impl<F: Fn(Global, &mut Cursor<'_>, usize) -> Result<Expression, Failure>> Grammar<F> {
    /// `if (E) E else E`: SLS 6.16.
    #[tactic(auto, unfolding(crate::specs::Reading::conditional))]
    fn read_conditional(&self, tokens: &mut Cursor<'_>) -> Result<Expression, Failure>
        requires { Nests self.now.levels (F.pre self.now.read) (F.post self.now.read) }
        ensures { Reads expression_of (spec.conditional (spec.expression_at self.now.levels) tokens.old.rest.now) result tokens.new.rest.now }
    {
        tokens.expect_word(Word::If)?;
        let test = Box::new(self.alloc, self.read_in_parens(tokens)?)?;
        let first = Box::new(self.alloc, self.read_expression(tokens)?)?;
        tokens.expect_word(Word::Else)?;
        let second = Box::new(self.alloc, self.read_expression(tokens)?)?;
        Ok(Expression::If(test, first, second))
    }

    /// `while (E) E`: SLS 6.17.
    #[tactic(auto, unfolding(crate::specs::Reading::repetition))]
    fn read_repetition(&self, tokens: &mut Cursor<'_>) -> Result<Expression, Failure>
        requires { Nests self.now.levels (F.pre self.now.read) (F.post self.now.read) }
        ensures { Reads expression_of (spec.repetition (spec.expression_at self.now.levels) tokens.old.rest.now) result tokens.new.rest.now }
    {
        tokens.expect_word(Word::While)?;
        let test = Box::new(self.alloc, self.read_in_parens(tokens)?)?;
        let body = Box::new(self.alloc, self.read_expression(tokens)?)?;
        Ok(Expression::While(test, body))
    }

    /// `x = E`: SLS 6.15.
    #[tactic(auto, unfolding(crate::specs::Reading::assignment))]
    fn read_assignment(&self, tokens: &mut Cursor<'_>) -> Result<Expression, Failure>
        requires { Nests self.now.levels (F.pre self.now.read) (F.post self.now.read) }
        ensures { Reads expression_of (spec.assignment (spec.expression_at self.now.levels) tokens.old.rest.now) result tokens.new.rest.now }
    {
        let name = tokens.expect_name(self.alloc)?;
        tokens.expect_sign(Sign::Assign)?;
        let value = Box::new(self.alloc, self.read_expression(tokens)?)?;
        Ok(Expression::Assign(name, value))
    }

    /// `E`, with the expressions inside it one level down.
    #[tactic(auto, unfolding(crate::specs::Reading::level))]
    pub fn read_level(&self, tokens: &mut Cursor<'_>) -> Result<Expression, Failure>
        requires { Nests self.now.levels (F.pre self.now.read) (F.post self.now.read) }
        ensures { Reads expression_of (spec.level (spec.expression_at self.now.levels) tokens.old.rest.now) result tokens.new.rest.now }
    {
        match tokens.start() {
            Start::If => self.read_conditional(tokens),
            Start::While => self.read_repetition(tokens),
            Start::Block => self.read_block(tokens),
            Start::Assign => self.read_assignment(tokens),
            Start::Val | Start::Var => Err(Failure::Other),
            Start::Other => self.read_operation(tokens),
        }
    }
}

/// An expression that fits so many levels.
pub(crate) fn read_expression(
    alloc: Global,
    tokens: &mut Cursor<'_>,
    levels: usize,
) -> Result<Expression, Failure>
    ensures { Reads expression_of (spec.expression_at levels tokens.old.rest.now) result tokens.new.rest.now }
{
    if levels == 0 {
        return Err(Failure::Other);
    }
    let grammar = Grammar {
        alloc,
        levels: levels - 1,
        read: read_expression,
    };
    grammar.read_level(tokens)
}

//! Blocks: SLS 6.11.

ghost use Rattle.std.specs.Prelude.{map, []};
ghost use Rattle.scw_reader.specs.Parser.{Reads};
ghost use Rattle.scw_reader.specs.Nests.{Nests};
ghost use Rattle.scw_reader.specs.Reading as spec;
ghost use Rattle.scw_reader.specs.View.{expression_of};
ghost use Rattle.scw_reader.specs.PartView.{part_of, definition_of};

use crate::cursor::{Cursor, Start};
use crate::failure::Failure;
use crate::grammar::Grammar;
use crate::token::{Sign, Word};
use crate::tree::{Expression, Statement, TypeName};
use scw_text::Bytes;
use std::alloc::Global;

/// A part of a block.
#[derive(Drop)]
pub(crate) enum Part {
    /// A statement, with the `;` behind it.
    Statement(Statement),
    /// The last expression, with the `}` behind it.
    Last(Expression),
}

/// `x: T = E`
#[derive(Drop)]
pub(crate) struct Definition {
    /// The name.
    pub name: Bytes,
    /// The type that is written behind it.
    pub kind: TypeName,
    /// The expression that gives the value.
    pub value: Expression,
}

impl<F: Fn(Global, &mut Cursor<'_>, usize) -> Result<Expression, Failure>> Grammar<F> {
    /// `x: T = E ;`
    #[tactic(auto, unfolding(crate::specs::Reading::definition))]
    fn read_definition(&self, tokens: &mut Cursor<'_>) -> Result<Definition, Failure>
        requires { Nests self.now.levels (F.pre self.now.read) (F.post self.now.read) }
        ensures { Reads definition_of (spec.definition (spec.expression_at self.now.levels) tokens.old.rest.now) result tokens.new.rest.now }
    {
        let name = tokens.expect_name(self.alloc)?;
        tokens.expect_sign(Sign::Colon)?;
        let kind = tokens.expect_type()?;
        tokens.expect_sign(Sign::Assign)?;
        let value = self.read_expression(tokens)?;
        tokens.expect_sign(Sign::Semicolon)?;
        Ok(Definition { name, kind, value })
    }

    /// `E ;` or `E }`
    #[tactic(auto, unfolding(crate::specs::Reading::last_or_plain))]
    fn read_last_or_plain(&self, tokens: &mut Cursor<'_>) -> Result<Part, Failure>
        requires { Nests self.now.levels (F.pre self.now.read) (F.post self.now.read) }
        ensures { Reads part_of (spec.last_or_plain (spec.expression_at self.now.levels) tokens.old.rest.now) result tokens.new.rest.now }
    {
        let e = self.read_expression(tokens)?;
        if tokens.eat_sign(Sign::Semicolon) {
            return Ok(Part::Statement(Statement::Plain(e)));
        }
        tokens.expect_sign(Sign::CloseBrace)?;
        Ok(Part::Last(e))
    }

    /// `val x: T = E ;`
    #[tactic(auto, unfolding(crate::specs::Reading::val))]
    fn read_val(&self, tokens: &mut Cursor<'_>) -> Result<Part, Failure>
        requires { Nests self.now.levels (F.pre self.now.read) (F.post self.now.read) }
        ensures { Reads part_of (spec.val (spec.expression_at self.now.levels) tokens.old.rest.now) result tokens.new.rest.now }
    {
        tokens.expect_word(Word::Val)?;
        let Definition { name, kind, value } = self.read_definition(tokens)?;
        Ok(Part::Statement(Statement::Val(name, kind, value)))
    }

    /// `var x: T = E ;`
    #[tactic(auto, unfolding(crate::specs::Reading::var))]
    fn read_var(&self, tokens: &mut Cursor<'_>) -> Result<Part, Failure>
        requires { Nests self.now.levels (F.pre self.now.read) (F.post self.now.read) }
        ensures { Reads part_of (spec.var (spec.expression_at self.now.levels) tokens.old.rest.now) result tokens.new.rest.now }
    {
        tokens.expect_word(Word::Var)?;
        let Definition { name, kind, value } = self.read_definition(tokens)?;
        Ok(Part::Statement(Statement::Var(name, kind, value)))
    }

    /// `S ;` or `E }`
    #[tactic(auto, unfolding(crate::specs::Reading::part))]
    fn read_part(&self, tokens: &mut Cursor<'_>) -> Result<Part, Failure>
        requires { Nests self.now.levels (F.pre self.now.read) (F.post self.now.read) }
        ensures { Reads part_of (spec.part (spec.expression_at self.now.levels) tokens.old.rest.now) result tokens.new.rest.now }
    {
        match tokens.start() {
            Start::Val => self.read_val(tokens),
            Start::Var => self.read_var(tokens),
            Start::If | Start::While | Start::Block | Start::Assign | Start::Other => {
                self.read_last_or_plain(tokens)
            }
        }
    }

    /// `{S ;} E }`
    #[tactic(auto, unfolding(crate::specs::Reading::parts))]
    fn read_parts(&self, tokens: &mut Cursor<'_>) -> Result<Expression, Failure>
        requires { Nests self.now.levels (F.pre self.now.read) (F.post self.now.read) }
        ensures { Reads expression_of (spec.parts (spec.expression_at self.now.levels) tokens.old.rest.now) result tokens.new.rest.now }
    {
        let mut found = Vec::new(self.alloc);
        for _turn in 0..tokens.left() {
            match self.read_part(tokens)? {
                Part::Statement(statement) => found.push(statement)?,
                Part::Last(e) => return Ok(Expression::Block(found, Box::new(self.alloc, e)?)),
            }
        }
        Err(Failure::Other)
    }

    /// `{ {S ;} E }`
    #[tactic(auto, unfolding(crate::specs::Reading::block_at))]
    pub fn read_block(&self, tokens: &mut Cursor<'_>) -> Result<Expression, Failure>
        requires { Nests self.now.levels (F.pre self.now.read) (F.post self.now.read) }
        ensures { Reads expression_of (spec.block_at (spec.expression_at self.now.levels) tokens.old.rest.now) result tokens.new.rest.now }
    {
        tokens.expect_sign(Sign::OpenBrace)?;
        self.read_parts(tokens)
    }
}

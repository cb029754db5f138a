//! Atoms: SLS 6.3 to 6.6.

ghost use Rattle.std.specs.Prelude.{map};
ghost use Rattle.scw_reader.specs.Parser.{Reads};
ghost use Rattle.scw_reader.specs.Nests.{Nests};
ghost use Rattle.scw_reader.specs.Reading as spec;
ghost use Rattle.scw_reader.specs.View.{expression_of, atom_of};

use crate::cursor::Cursor;
use crate::failure::Failure;
use crate::grammar::Grammar;
use crate::token::{Sign, Token, Word};
use crate::tree::{Atom, Expression};
use scw_text::Bytes;
use std::alloc::Global;

impl<F: Fn(Global, &mut Cursor<'_>, usize) -> Result<Expression, Failure>> Grammar<F> {
    /// `E )`
    #[tactic(auto, unfolding(crate::specs::Reading::inner))]
    fn read_inner(&self, tokens: &mut Cursor<'_>) -> Result<Expression, Failure>
        requires { Nests self.now.levels (F.pre self.now.read) (F.post self.now.read) }
        ensures { Reads expression_of (spec.inner (spec.expression_at self.now.levels) tokens.old.rest.now) result tokens.new.rest.now }
    {
        let e = self.read_expression(tokens)?;
        tokens.expect_sign(Sign::CloseParen)?;
        Ok(e)
    }

    /// `( E )`
    #[tactic(auto, unfolding(crate::specs::Reading::in_parens))]
    pub fn read_in_parens(&self, tokens: &mut Cursor<'_>) -> Result<Expression, Failure>
        requires { Nests self.now.levels (F.pre self.now.read) (F.post self.now.read) }
        ensures { Reads expression_of (spec.in_parens (spec.expression_at self.now.levels) tokens.old.rest.now) result tokens.new.rest.now }
    {
        tokens.expect_sign(Sign::OpenParen)?;
        self.read_inner(tokens)
    }

    /// `{, E}`, behind the expressions that were read.
    fn read_more_arguments(
        &self,
        tokens: &mut Cursor<'_>,
        first: Expression,
    ) -> Result<Vec<Expression>, Failure>
        requires { Nests self.now.levels (F.pre self.now.read) (F.post self.now.read) }
        ensures { Reads (λ v. map expression_of v.items) (spec.more_arguments (spec.expression_at self.now.levels) (expression_of first) tokens.old.rest.now) result tokens.new.rest.now }
    {
        let mut found = Vec::new(self.alloc);
        found.push(first)?;
        for _turn in 0..tokens.left() {
            if !tokens.eat_sign(Sign::Comma) {
                return Ok(found);
            }
            found.push(self.read_expression(tokens)?)?;
        }
        Ok(found)
    }

    /// `[E {, E}] )`
    #[tactic(auto, unfolding(crate::specs::Reading::arguments))]
    fn read_arguments(&self, tokens: &mut Cursor<'_>) -> Result<Vec<Expression>, Failure>
        requires { Nests self.now.levels (F.pre self.now.read) (F.post self.now.read) }
        ensures { Reads (λ v. map expression_of v.items) (spec.arguments (spec.expression_at self.now.levels) tokens.old.rest.now) result tokens.new.rest.now }
    {
        if tokens.eat_sign(Sign::CloseParen) {
            return Ok(Vec::new(self.alloc));
        }
        let first = self.read_expression(tokens)?;
        let found = self.read_more_arguments(tokens, first)?;
        tokens.expect_sign(Sign::CloseParen)?;
        Ok(found)
    }

    /// `x` or `m([E {, E}])`, behind the name.
    #[tactic(auto, unfolding(crate::specs::Reading::name_atom))]
    fn read_name_atom(&self, tokens: &mut Cursor<'_>, name: &Bytes) -> Result<Atom, Failure>
        requires { Nests self.now.levels (F.pre self.now.read) (F.post self.now.read) }
        ensures { Reads atom_of (spec.name_atom (spec.expression_at self.now.levels) name.now tokens.old.rest.now) result tokens.new.rest.now }
    {
        let name = Bytes::from_slice(self.alloc, name.as_slice())?;
        if tokens.eat_sign(Sign::OpenParen) {
            let found = self.read_arguments(tokens)?;
            Ok(Atom::Call(name, found))
        } else {
            Ok(Atom::Name(name))
        }
    }

    /// `true`, `false` or `println(E)`, behind the word.
    fn read_word_atom(&self, tokens: &mut Cursor<'_>, word: Word) -> Result<Atom, Failure>
        requires { Nests self.now.levels (F.pre self.now.read) (F.post self.now.read) }
        ensures { Reads atom_of (spec.word_atom (spec.expression_at self.now.levels) word tokens.old.rest.now) result tokens.new.rest.now }
    {
        match word {
            Word::True => Ok(Atom::Truth(true)),
            Word::False => Ok(Atom::Truth(false)),
            Word::Println => {
                let e = self.read_in_parens(tokens)?;
                Ok(Atom::Print(Box::new(self.alloc, e)?))
            }
            Word::Object
            | Word::Def
            | Word::If
            | Word::Else
            | Word::While
            | Word::Val
            | Word::Var
            | Word::MainObject
            | Word::MainMethod
            | Word::Args
            | Word::Array
            | Word::Unit
            | Word::Boolean
            | Word::Int
            | Word::Long
            | Word::String => Err(Failure::Other),
        }
    }

    /// `(E)`, behind the sign.
    fn read_sign_atom(&self, tokens: &mut Cursor<'_>, sign: Sign) -> Result<Atom, Failure>
        requires { Nests self.now.levels (F.pre self.now.read) (F.post self.now.read) }
        ensures { Reads atom_of (spec.sign_atom (spec.expression_at self.now.levels) sign tokens.old.rest.now) result tokens.new.rest.now }
    {
        if sign == Sign::OpenParen {
            let e = self.read_inner(tokens)?;
            Ok(Atom::Paren(Box::new(self.alloc, e)?))
        } else {
            Err(Failure::Other)
        }
    }

    /// `A ::= number | numberL | true | false | "text" | x | m([E {, E}]) | println(E) | (E)`
    #[tactic(auto, unfolding(crate::specs::Reading::atom))]
    pub fn read_atom(&self, tokens: &mut Cursor<'_>) -> Result<Atom, Failure>
        requires { Nests self.now.levels (F.pre self.now.read) (F.post self.now.read) }
        ensures { Reads atom_of (spec.atom (spec.expression_at self.now.levels) tokens.old.rest.now) result tokens.new.rest.now }
    {
        match tokens.next()? {
            Token::Word(word) => self.read_word_atom(tokens, *word),
            Token::Sign(sign) => self.read_sign_atom(tokens, *sign),
            Token::Name(name) => self.read_name_atom(tokens, name),
            Token::Int(n) => Ok(Atom::Int(*n)),
            Token::Long(n) => Ok(Atom::Long(*n)),
            Token::Text(text) => Ok(Atom::Text(Bytes::from_slice(self.alloc, text.as_slice())?)),
        }
    }
}

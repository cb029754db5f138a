//! Products, sums and operations: SLS 6.12.

ghost use Rattle.std.specs.Prelude.{map, []};
ghost use Rattle.scw_reader.specs.Parser.{Reads, chain};
ghost use Rattle.scw_reader.specs.declared.token.Sign.TheVariants as s;
ghost use Rattle.scw_reader.specs.Nests.{Nests};
ghost use Rattle.scw_reader.specs.Reading as spec;
ghost use Rattle.scw_reader.specs.View.{expression_of, atom_of, product_of};

use crate::cursor::Cursor;
use crate::failure::Failure;
use crate::grammar::Grammar;
use crate::token::Sign;
use crate::tree::{Atom, Expression, Product};
use std::alloc::Global;

impl<F: Fn(Global, &mut Cursor<'_>, usize) -> Result<Expression, Failure>> Grammar<F> {
    /// `{* A}`
    fn read_more_atoms(&self, tokens: &mut Cursor<'_>) -> Result<Vec<Atom>, Failure>
        requires { Nests self.now.levels (F.pre self.now.read) (F.post self.now.read) }
        ensures { Reads (λ v. map atom_of v.items) (chain s.Times (spec.atom (spec.expression_at self.now.levels)) [] tokens.old.rest.now) result tokens.new.rest.now }
    {
        let mut found = Vec::new(self.alloc);
        for _turn in 0..tokens.left() {
            if !tokens.eat_sign(Sign::Times) {
                return Ok(found);
            }
            found.push(self.read_atom(tokens)?)?;
        }
        Ok(found)
    }

    /// `P ::= A {* A}`, behind the first atom.
    #[tactic(auto, unfolding(crate::specs::Reading::product_from))]
    fn read_product_from(&self, tokens: &mut Cursor<'_>, first: Atom) -> Result<Product, Failure>
        requires { Nests self.now.levels (F.pre self.now.read) (F.post self.now.read) }
        ensures { Reads product_of (spec.product_from (spec.expression_at self.now.levels) (atom_of first) tokens.old.rest.now) result tokens.new.rest.now }
    {
        let more = self.read_more_atoms(tokens)?;
        Ok(Product { first, more })
    }

    /// `P ::= A {* A}`
    #[tactic(auto, unfolding(crate::specs::Reading::product_at))]
    fn read_product(&self, tokens: &mut Cursor<'_>) -> Result<Product, Failure>
        requires { Nests self.now.levels (F.pre self.now.read) (F.post self.now.read) }
        ensures { Reads product_of (spec.product_at (spec.expression_at self.now.levels) tokens.old.rest.now) result tokens.new.rest.now }
    {
        let first = self.read_atom(tokens)?;
        self.read_product_from(tokens, first)
    }

    /// `{+ P}`
    fn read_more_products(&self, tokens: &mut Cursor<'_>) -> Result<Vec<Product>, Failure>
        requires { Nests self.now.levels (F.pre self.now.read) (F.post self.now.read) }
        ensures { Reads (λ v. map product_of v.items) (chain s.Plus (spec.product_at (spec.expression_at self.now.levels)) [] tokens.old.rest.now) result tokens.new.rest.now }
    {
        let mut found = Vec::new(self.alloc);
        for _turn in 0..tokens.left() {
            if !tokens.eat_sign(Sign::Plus) {
                return Ok(found);
            }
            found.push(self.read_product(tokens)?)?;
        }
        Ok(found)
    }

    /// `P {+ P}`, behind the first atom.
    #[tactic(auto, unfolding(crate::specs::Reading::sum_from))]
    fn read_sum_from(&self, tokens: &mut Cursor<'_>, first: Atom) -> Result<Expression, Failure>
        requires { Nests self.now.levels (F.pre self.now.read) (F.post self.now.read) }
        ensures { Reads expression_of (spec.sum_from (spec.expression_at self.now.levels) (atom_of first) tokens.old.rest.now) result tokens.new.rest.now }
    {
        let product = self.read_product_from(tokens, first)?;
        let more = self.read_more_products(tokens)?;
        Ok(Expression::Sum(product, more))
    }

    /// `P {+ P} | A op A`
    #[tactic(auto, unfolding(crate::specs::Reading::operation_at))]
    pub fn read_operation(&self, tokens: &mut Cursor<'_>) -> Result<Expression, Failure>
        requires { Nests self.now.levels (F.pre self.now.read) (F.post self.now.read) }
        ensures { Reads expression_of (spec.operation_at (spec.expression_at self.now.levels) tokens.old.rest.now) result tokens.new.rest.now }
    {
        let first = self.read_atom(tokens)?;
        match tokens.eat_operator() {
            Some(operator) => {
                let second = self.read_atom(tokens)?;
                Ok(Expression::Operation(operator, first, second))
            }
            None => self.read_sum_from(tokens, first),
        }
    }
}

//! Methods and the object that holds them: SLS 4.6 and 5.4.

ghost use Rattle.std.specs.Prelude.{map, [], ◌∷◌};
ghost use Rattle.scw_reader.specs.declared.token.Sign.TheVariants as s;
ghost use Rattle.scw_reader.specs.Outcome.{Gives};
ghost use Rattle.scw_reader.specs.Parser.{Reads, chain};
ghost use Rattle.scw_reader.specs.ReadingSource as spec;
ghost use Rattle.scw_reader.specs.View.{expression_of, method_of, source_of};

use crate::cursor::Cursor;
use crate::expression::read_expression;
use crate::failure::Failure;
use crate::limit::MAX_NESTING;
use crate::token::{Sign, Token, Word};
use crate::tree::{Expression, Method, Parameter, Source};
use std::alloc::Global;

/// `x: T`
#[tactic(auto, unfolding(crate::specs::ReadingSource::parameter_at))]
fn read_parameter(alloc: Global, tokens: &mut Cursor<'_>) -> Result<Parameter, Failure>
    ensures { Reads (λ p. p) (spec.parameter_at tokens.old.rest.now) result tokens.new.rest.now }
{
    let name = tokens.expect_name(alloc)?;
    tokens.expect_sign(Sign::Colon)?;
    let kind = tokens.expect_type()?;
    Ok(Parameter { name, kind })
}

/// `{, x: T}`, behind the first.
fn read_more_parameters(
    alloc: Global,
    tokens: &mut Cursor<'_>,
    first: Parameter,
) -> Result<Vec<Parameter>, Failure>
    ensures { Reads (λ v. v.items) (spec.more_parameters first tokens.old.rest.now) result tokens.new.rest.now }
{
    let mut found = Vec::new(alloc);
    found.push(first)?;
    for _turn in 0..tokens.left() {
        if !tokens.eat_sign(Sign::Comma) {
            return Ok(found);
        }
        found.push(read_parameter(alloc, tokens)?)?;
    }
    Ok(found)
}

/// `[x: T {, x: T}] )`
#[tactic(auto, unfolding(crate::specs::ReadingSource::parameters_at))]
fn read_parameters(alloc: Global, tokens: &mut Cursor<'_>) -> Result<Vec<Parameter>, Failure>
    ensures { Reads (λ v. v.items) (spec.parameters_at tokens.old.rest.now) result tokens.new.rest.now }
{
    if tokens.eat_sign(Sign::CloseParen) {
        return Ok(Vec::new(alloc));
    }
    let first = read_parameter(alloc, tokens)?;
    let found = read_more_parameters(alloc, tokens, first)?;
    tokens.expect_sign(Sign::CloseParen)?;
    Ok(found)
}

/// `m([x: T {, x: T}]): T = E`, behind `def`.
#[tactic(auto, unfolding(crate::specs::ReadingSource::method_at))]
fn read_method(alloc: Global, tokens: &mut Cursor<'_>) -> Result<Method, Failure>
    ensures { Reads method_of (spec.method_at tokens.old.rest.now) result tokens.new.rest.now }
{
    let name = tokens.expect_name(alloc)?;
    tokens.expect_sign(Sign::OpenParen)?;
    let parameters = read_parameters(alloc, tokens)?;
    tokens.expect_sign(Sign::Colon)?;
    let result = tokens.expect_type()?;
    tokens.expect_sign(Sign::Assign)?;
    let body = read_expression(alloc, tokens, MAX_NESTING)?;
    Ok(Method {
        name,
        parameters,
        result,
        body,
    })
}

/// `(args: Array[String])`
#[tactic(auto, unfolding(crate::specs::ReadingSource::main_clause))]
fn read_main_clause(tokens: &mut Cursor<'_>) -> Result<(), Failure>
    ensures { Reads (λ u. u) (spec.main_clause tokens.old.rest.now) result tokens.new.rest.now }
{
    tokens.expect_sign(Sign::OpenParen)?;
    tokens.expect_word(Word::Args)?;
    tokens.expect_sign(Sign::Colon)?;
    tokens.expect_word(Word::Array)?;
    tokens.expect_sign(Sign::OpenBracket)?;
    tokens.expect_word(Word::String)?;
    tokens.expect_sign(Sign::CloseBracket)?;
    tokens.expect_sign(Sign::CloseParen)
}

/// `(args: Array[String]): Unit = E`, behind `def main`.
#[tactic(auto, unfolding(crate::specs::ReadingSource::main_at))]
fn read_main(alloc: Global, tokens: &mut Cursor<'_>) -> Result<Expression, Failure>
    ensures { Reads expression_of (spec.main_at tokens.old.rest.now) result tokens.new.rest.now }
{
    read_main_clause(tokens)?;
    tokens.expect_sign(Sign::Colon)?;
    tokens.expect_word(Word::Unit)?;
    tokens.expect_sign(Sign::Assign)?;
    read_expression(alloc, tokens, MAX_NESTING)
}

/// The methods before `main`, with `def main`.
#[tactic(auto, unfolding(crate::specs::ReadingSource::before_at))]
fn read_before(alloc: Global, tokens: &mut Cursor<'_>) -> Result<Vec<Method>, Failure>
    ensures { Reads (λ v. map method_of v.items) (spec.before_at tokens.old.rest.now) result tokens.new.rest.now }
{
    let mut found = Vec::new(alloc);
    for _turn in 0..tokens.left() {
        tokens.expect_word(Word::Def)?;
        if tokens.eat_word(Word::MainMethod) {
            return Ok(found);
        }
        let method = read_method(alloc, tokens)?;
        tokens.expect_sign(Sign::Semicolon)?;
        found.push(method)?;
    }
    Err(Failure::Other)
}

/// `def m([x: T {, x: T}]): T = E`
#[tactic(auto, unfolding(crate::specs::ReadingSource::def_at))]
fn read_def(alloc: Global, tokens: &mut Cursor<'_>) -> Result<Method, Failure>
    ensures { Reads method_of (spec.def_at tokens.old.rest.now) result tokens.new.rest.now }
{
    tokens.expect_word(Word::Def)?;
    read_method(alloc, tokens)
}

/// The methods behind `main`.
fn read_after(alloc: Global, tokens: &mut Cursor<'_>) -> Result<Vec<Method>, Failure>
    ensures { Reads (λ v. map method_of v.items) (chain s.Semicolon spec.def_at [] tokens.old.rest.now) result tokens.new.rest.now }
{
    let mut found = Vec::new(alloc);
    for _turn in 0..tokens.left() {
        if !tokens.eat_sign(Sign::Semicolon) {
            return Ok(found);
        }
        found.push(read_def(alloc, tokens)?)?;
    }
    Ok(found)
}

/// `object Main { D {; D} }`, where one method is `main`.
#[tactic(auto, unfolding(crate::specs::ReadingSource::object_at))]
fn read_object(alloc: Global, tokens: &mut Cursor<'_>) -> Result<Source, Failure>
    ensures { Reads source_of (spec.object_at tokens.old.rest.now) result tokens.new.rest.now }
{
    tokens.expect_word(Word::Object)?;
    tokens.expect_word(Word::MainObject)?;
    tokens.expect_sign(Sign::OpenBrace)?;
    let before = read_before(alloc, tokens)?;
    let main = read_main(alloc, tokens)?;
    let after = read_after(alloc, tokens)?;
    tokens.expect_sign(Sign::CloseBrace)?;
    Ok(Source {
        before,
        main,
        after,
    })
}

/// The source whose tokens these are, all of them.
#[tactic(auto, unfolding(crate::specs::ReadingSource::source_in))]
pub(crate) fn read_source(alloc: Global, tokens: &[Token]) -> Result<Source, Failure>
    ensures { Gives source_of result (spec.source_in tokens.now) }
{
    let mut cursor = Cursor { rest: tokens };
    let source = read_object(alloc, &mut cursor)?;
    if cursor.left() == 0 {
        Ok(source)
    } else {
        Err(Failure::Other)
    }
}

//! The tokens that are still to be read, and the steps that every part is made of.

ghost use Rattle.std.specs.Prelude.{◌≡◌, length};
ghost use Rattle.scw_reader.specs.Parser as spec;
ghost use Rattle.scw_reader.specs.Parser.{Reads};
ghost use Rattle.scw_reader.specs.Reading as reading;

use crate::failure::Failure;
use crate::token::{Sign, Token, Word};
use crate::tree::{Operator, TypeName};
use scw_text::Bytes;
use std::alloc::Global;

/// The tokens that are still to be read.
#[derive(Clone, Copy)]
pub(crate) struct Cursor<'a> {
    /// They, in their order.
    pub rest: &'a [Token],
}

/// The form of expression or statement that tokens begin.
#[derive(Clone, Copy, Debug, PartialEq, Eq)]
pub(crate) enum Start {
    /// `if`
    If,
    /// `while`
    While,
    /// `{`
    Block,
    /// `val`
    Val,
    /// `var`
    Var,
    /// `x =`
    Assign,
    /// An operand, or nothing that can be read.
    Other,
}

fn is_word(token: &Token, word: Word) -> bool
    ensures { result ≡ spec.is_word word token.now }
{
    match token {
        Token::Word(other) => word == *other,
        Token::Sign(_) | Token::Name(_) | Token::Int(_) | Token::Long(_) | Token::Text(_) => false,
    }
}

fn is_sign(token: &Token, sign: Sign) -> bool
    ensures { result ≡ spec.is_sign sign token.now }
{
    match token {
        Token::Sign(other) => sign == *other,
        Token::Word(_) | Token::Name(_) | Token::Int(_) | Token::Long(_) | Token::Text(_) => false,
    }
}

fn type_of(word: Word) -> Option<TypeName>
    ensures { result ≡ spec.type_of word }
{
    match word {
        Word::Unit => Some(TypeName::Unit),
        Word::Boolean => Some(TypeName::Boolean),
        Word::Int => Some(TypeName::Int),
        Word::Long => Some(TypeName::Long),
        Word::String => Some(TypeName::String),
        Word::Object
        | Word::Def
        | Word::If
        | Word::Else
        | Word::While
        | Word::Val
        | Word::Var
        | Word::True
        | Word::False
        | Word::MainObject
        | Word::MainMethod
        | Word::Args
        | Word::Array
        | Word::Println => None,
    }
}

fn operator_of(sign: Sign) -> Option<Operator>
    ensures { result ≡ spec.operator_of sign }
{
    match sign {
        Sign::Minus => Some(Operator::Subtract),
        Sign::Divide => Some(Operator::Divide),
        Sign::Remainder => Some(Operator::Remainder),
        Sign::Less => Some(Operator::Less),
        Sign::LessOrEqual => Some(Operator::LessOrEqual),
        Sign::Greater => Some(Operator::Greater),
        Sign::GreaterOrEqual => Some(Operator::GreaterOrEqual),
        Sign::Equal => Some(Operator::Equal),
        Sign::Unequal => Some(Operator::Unequal),
        Sign::And => Some(Operator::And),
        Sign::Or => Some(Operator::Or),
        Sign::OpenParen
        | Sign::CloseParen
        | Sign::OpenBracket
        | Sign::CloseBracket
        | Sign::OpenBrace
        | Sign::CloseBrace
        | Sign::Comma
        | Sign::Semicolon
        | Sign::Colon
        | Sign::Assign
        | Sign::Plus
        | Sign::Times => None,
    }
}

fn operator_in(token: &Token) -> Option<Operator>
    ensures { result ≡ spec.operator_in token.now }
{
    match token {
        Token::Sign(sign) => operator_of(*sign),
        Token::Word(_) | Token::Name(_) | Token::Int(_) | Token::Long(_) | Token::Text(_) => None,
    }
}

fn word_start(word: Word) -> Start
    ensures { result ≡ reading.word_start word }
{
    match word {
        Word::If => Start::If,
        Word::While => Start::While,
        Word::Val => Start::Val,
        Word::Var => Start::Var,
        Word::Object
        | Word::Def
        | Word::Else
        | Word::True
        | Word::False
        | Word::MainObject
        | Word::MainMethod
        | Word::Args
        | Word::Array
        | Word::Println
        | Word::Unit
        | Word::Boolean
        | Word::Int
        | Word::Long
        | Word::String => Start::Other,
    }
}

fn sign_start(sign: Sign) -> Start
    ensures { result ≡ reading.sign_start sign }
{
    if sign == Sign::OpenBrace {
        Start::Block
    } else {
        Start::Other
    }
}

fn name_start(tokens: &[Token]) -> Start
    ensures { result ≡ reading.name_start tokens.now }
{
    match tokens {
        [] => Start::Other,
        [token, ..] => {
            if is_sign(token, Sign::Assign) {
                Start::Assign
            } else {
                Start::Other
            }
        }
    }
}

impl<'a> Cursor<'a> {
    /// How many tokens are still to be read.
    pub fn left(&self) -> usize
        ensures { result ≡ length self.now.rest.now }
    {
        self.rest.len()
    }

    /// The form that the tokens begin.
    #[tactic(auto, unfolding(crate::specs::Reading::start_of))]
    pub fn start(&self) -> Start
        ensures { result ≡ reading.start_of self.now.rest.now }
    {
        match self.rest {
            [] => Start::Other,
            [token, rest @ ..] => match token {
                Token::Word(word) => word_start(*word),
                Token::Sign(sign) => sign_start(*sign),
                Token::Name(_) => name_start(rest),
                Token::Int(_) | Token::Long(_) | Token::Text(_) => Start::Other,
            },
        }
    }

    /// Takes the next token.
    pub fn next(&mut self) -> Result<&'a Token, Failure>
        ensures { Reads (λ t. t.now) (spec.next self.old.rest.now) result self.new.rest.now }
    {
        match self.rest {
            [] => Err(Failure::Other),
            [token, rest @ ..] => {
                self.rest = rest;
                Ok(token)
            }
        }
    }

    /// Takes the word, which has to come next.
    #[tactic(auto, unfolding(crate::specs::Parser::expect_word))]
    pub fn expect_word(&mut self, word: Word) -> Result<(), Failure>
        ensures { Reads (λ u. u) (spec.expect_word word self.old.rest.now) result self.new.rest.now }
    {
        match self.rest {
            [token, rest @ ..] if is_word(token, word) => {
                self.rest = rest;
                Ok(())
            }
            _ => Err(Failure::Other),
        }
    }

    /// Takes the sign, which has to come next.
    #[tactic(auto, unfolding(crate::specs::Parser::expect_sign))]
    pub fn expect_sign(&mut self, sign: Sign) -> Result<(), Failure>
        ensures { Reads (λ u. u) (spec.expect_sign sign self.old.rest.now) result self.new.rest.now }
    {
        match self.rest {
            [token, rest @ ..] if is_sign(token, sign) => {
                self.rest = rest;
                Ok(())
            }
            _ => Err(Failure::Other),
        }
    }

    /// Takes the word, if it comes next, and answers whether it did.
    #[tactic(auto, unfolding(crate::specs::Parser::eat_word))]
    pub fn eat_word(&mut self, word: Word) -> bool
        ensures { spec.eat_word word self.old.rest.now ≡ Some (result, self.new.rest.now) }
    {
        match self.rest {
            [token, rest @ ..] if is_word(token, word) => {
                self.rest = rest;
                true
            }
            _ => false,
        }
    }

    /// Takes the sign, if it comes next, and answers whether it did.
    #[tactic(auto, unfolding(crate::specs::Parser::eat_sign))]
    pub fn eat_sign(&mut self, sign: Sign) -> bool
        ensures { spec.eat_sign sign self.old.rest.now ≡ Some (result, self.new.rest.now) }
    {
        match self.rest {
            [token, rest @ ..] if is_sign(token, sign) => {
                self.rest = rest;
                true
            }
            _ => false,
        }
    }

    /// Takes an operator, if one comes next.
    #[tactic(auto, unfolding(crate::specs::Parser::eat_operator))]
    pub fn eat_operator(&mut self) -> Option<Operator>
        ensures { spec.eat_operator self.old.rest.now ≡ Some (result, self.new.rest.now) }
    {
        match self.rest {
            [] => None,
            [token, rest @ ..] => {
                let operator = operator_in(token)?;
                self.rest = rest;
                Some(operator)
            }
        }
    }

    /// Takes a name, which has to come next.
    #[tactic(auto, unfolding(crate::specs::Parser::expect_name))]
    pub fn expect_name(&mut self, alloc: Global) -> Result<Bytes, Failure>
        ensures { Reads (λ x. x) (spec.expect_name self.old.rest.now) result self.new.rest.now }
    {
        match self.next()? {
            Token::Name(name) => Ok(Bytes::from_slice(alloc, name.as_slice())?),
            Token::Word(_) | Token::Sign(_) | Token::Int(_) | Token::Long(_) | Token::Text(_) => {
                Err(Failure::Other)
            }
        }
    }

    /// Takes a type, which has to come next.
    #[tactic(auto, unfolding(crate::specs::Parser::expect_type))]
    pub fn expect_type(&mut self) -> Result<TypeName, Failure>
        ensures { Reads (λ t. t) (spec.expect_type self.old.rest.now) result self.new.rest.now }
    {
        match self.next()? {
            Token::Word(word) => match type_of(*word) {
                Some(kind) => Ok(kind),
                None => Err(Failure::Other),
            },
            Token::Name(_) | Token::Sign(_) | Token::Int(_) | Token::Long(_) | Token::Text(_) => {
                Err(Failure::Other)
            }
        }
    }
}

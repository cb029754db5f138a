//! Reads the tokens of a source: SLS 1.

ghost use Rattle.std.specs.Prelude.{◌≡◌, ◌≤◌, ◌+◌, List, [], length, take, drop, IfOk, IfErr};
ghost use Rattle.std.specs.Str.{chars};
ghost use Rattle.scw_text.specs.declared.source.TheConstants.{MAX_SOURCE_BYTES};
ghost use Rattle.scw_lex.specs.Lexing as spec;
ghost use Rattle.scw_lex.specs.declared.token.Token.{Token};
ghost use Rattle.scw_lex.specs.Lexing.{bytes};
ghost use Rattle.scw_lex.specs.Tokens.{HasTokens};

use crate::front::piece_at;
use crate::gap::gap_of;
use crate::newline::NewlineFilter;
use crate::piece::Piece;
use crate::token::{Gap, Lexeme, Tok, Token, Tokens};
use crate::utf8::front_len;
use scw_text::{Fault, NoMemory, Refusal, Rule, Source, Span, Texts};
use std::alloc::Global;

/// The characters of a source.
pub(crate) fn characters(alloc: Global, source: &Source) -> Result<Vec<char>, NoMemory>
    ensures { IfOk result (λ text. text.items ≡ chars source.now.bytes) }
{
    match str::from_utf8(source.bytes()) {
        Ok(text) => Ok(text.chars().collect(alloc)?),
        Err(_) => Ok(Vec::new(alloc)),
    }
}

/// What is read next.
#[derive(Debug, Drop)]
pub enum Reading {
    /// A token, behind which more is to be read.
    Token(Lexeme),
    /// The end of the source.
    End(Lexeme),
}

/// What of a source is still to be read.
#[derive(Debug, Drop)]
pub struct Lexer<'a> {
    /// The number of the source.
    file: u32,
    /// How many bytes were read.
    at: u32,
    /// The characters that are left.
    text: &'a [char],
    ghost within: { at + bytes text.now ≤ MAX_SOURCE_BYTES },
}

impl<'a> Lexer<'a> {
    /// Reads the characters of the source with this number.
    pub fn new(file: u32, text: &'a [char]) -> Lexer<'a>
        requires { bytes text.now ≤ MAX_SOURCE_BYTES }
        ensures file { result.file ≡ file }
        ensures at { result.at ≡ 0 }
        ensures text { result.text.now ≡ text.now }
    {
        Lexer { file, at: 0, text }
    }

    /// Passes over characters.
    fn pass(&mut self, len: usize)
        requires { len ≤ length self.old.text.now }
        ensures file { self.new.file ≡ self.old.file }
        ensures at { self.new.at ≡ self.old.at + bytes (take len self.old.text.now) }
        ensures text { self.new.text.now ≡ drop len self.old.text.now }
    {
        let (_, rest) = self.text.split_at(len);
        *self = Lexer {
            file: self.file,
            at: self.at + front_len(self.text, len),
            text: rest,
        };
    }

    /// The refusal of a part of the characters that are left.
    fn refusal(&self, alloc: Global, rule: Rule, before: usize, len: usize) -> Refusal
        requires { before + len ≤ length self.now.text.now }
        ensures { spec.IsRefusal self.now.file (self.now.at + bytes (take before self.now.text.now)) (self.now.at + bytes (take before self.now.text.now) + bytes (take len (drop before self.now.text.now))) rule result }
    {
        let start = self.at + front_len(self.text, before);
        let (_, rest) = self.text.split_at(before);
        let span = Span {
            file: self.file,
            start,
            end: start + front_len(rest, len),
        };
        Refusal::new(rule, span, Texts::new(alloc))
    }

    /// The token of this length, behind the gap.
    fn take(&mut self, gap: Gap, kind: Tok, len: usize) -> Lexeme
        requires { len ≤ length self.old.text.now }
        ensures lexeme { spec.IsLexeme self.old.file self.old.at (self.old.at + bytes (take len self.old.text.now)) gap kind result }
        ensures file { self.new.file ≡ self.old.file }
        ensures at { self.new.at ≡ self.old.at + bytes (take len self.old.text.now) }
        ensures text { self.new.text.now ≡ drop len self.old.text.now }
    {
        let start = self.at;
        self.pass(len);
        let span = Span {
            file: self.file,
            start,
            end: self.at,
        };
        Lexeme {
            gap,
            token: Token { kind, span },
        }
    }

    /// The next token, or the end of the source.
    ///
    /// # Errors
    ///
    /// `Refused` where a rule of tokens is broken before or at it, and `NoMemory` where memory runs out.
    pub fn next(&mut self, alloc: Global) -> Result<Reading, Fault>
        ensures ok { IfOk result (λ reading. spec.Next self.old.file self.old.at [] self.old.at self.old.text.now (spec.found reading self.new.at self.new.text.now)) }
        ensures err { IfErr result (spec.Fails self.old.file self.old.at self.old.text.now) }
        ensures file { self.new.file ≡ self.old.file }
        ensures within { IfOk result (λ reading. spec.Advances reading (length self.old.text.now) (length self.new.text.now)) }
    {
        let since = self.at;
        let from = self.text;
        while !self.text.is_empty() {
            match piece_at(alloc, self.text)? {
                Piece::Skip(len) => self.pass(len),
                Piece::Token(kind, len) => {
                    let (between, _) = from.split_at(from.len() - self.text.len());
                    let lexeme = self.take(gap_of(since, between), kind, len);
                    return Ok(Reading::Token(lexeme));
                }
                Piece::Refused(rule, before, len) => {
                    return Err(Fault::Refused(self.refusal(alloc, rule, before, len)));
                }
            }
        }
        let end = self.take(gap_of(since, from), Tok::Eof, 0);
        Ok(Reading::End(end))
    }
}

/// The tokens of a source in their order, with the newlines that end statements, and its end.
///
/// # Errors
///
/// `Refused` at the first place at which the source breaks a rule of tokens, and `NoMemory` where memory runs out.
pub fn lex(alloc: Global, source: &Source) -> Result<Tokens, Fault>
    ensures ok { IfOk result (λ tokens. HasTokens source.now.file (chars source.now.bytes) tokens) }
    ensures only { IfOk result (λ tokens. (others : List Token) → HasTokens source.now.file (chars source.now.bytes) others → others ≡ tokens) }
    ensures refused { IfErr result (spec.HasFault source.now.file (chars source.now.bytes)) }
{
    let text = characters(alloc, source)?;
    let mut lexer = Lexer::new(source.file(), text.as_slice());
    let mut filter = NewlineFilter::new(alloc);
    loop {
        match lexer.next(alloc) {
            Ok(Reading::Token(lexeme)) => filter.push(lexeme)?,
            Ok(Reading::End(lexeme)) => {
                filter.push(lexeme)?;
                return Ok(filter.finish()?);
            }
            Err(fault) => return Err(fault),
        }
    }
}

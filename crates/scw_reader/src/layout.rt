//! Reads the tokens of a source.

ghost use Rattle.std.specs.Prelude.{◌≡◌, List, IfOk, IfSome, IfNone};
ghost use Rattle.std.specs.List.{list_all};
ghost use Rattle.std.specs.Option.{option_map};
ghost use Rattle.scw_reader.specs.declared.token.Token.{Token};
ghost use Rattle.scw_reader.specs.Layout as spec;
ghost use Rattle.scw_reader.specs.Layout.{Spelled};
ghost use Rattle.scw_reader.specs.Lexing as lexing;
ghost use Rattle.scw_reader.specs.Outcome.{Gives};

use crate::class::{Class, run};
use crate::failure::Failure;
use crate::lexing::token_at;
use crate::token::{Sign, Token};
use scw_text::NoMemory;
use sqlite_items::Items;
use std::alloc::Global;

/// The tokens of a source, in their order.
pub type Tokens = Items<Token>;

/// Whether line feeds may stand behind the token.
fn is_before_lines(token: &Token) -> bool
    ensures { result ≡ spec.is_before_lines token.now }
{
    match token {
        Token::Sign(sign) => matches!(sign, Sign::Semicolon | Sign::OpenBrace),
        Token::Word(_) | Token::Name(_) | Token::Int(_) | Token::Long(_) | Token::Text(_) => false,
    }
}

/// Whether line feeds may stand before the token.
fn is_after_lines(token: &Token) -> bool
    ensures { result ≡ spec.is_after_lines token.now }
{
    match token {
        Token::Sign(sign) => matches!(sign, Sign::CloseBrace),
        Token::Word(_) | Token::Name(_) | Token::Int(_) | Token::Long(_) | Token::Text(_) => false,
    }
}

fn is_gap_char(lines: bool, c: u8) -> bool
    ensures { result ≡ spec.is_gap_char lines c }
{
    c == b' ' || (lines && c == b'\n')
}

fn is_gap(lines: bool, gap: &[u8]) -> bool
    ensures { result ≡ spec.is_gap lines gap.now }
{
    gap.iter().all(|c| is_gap_char(lines, *c))
}

/// The next token and what follows it, or nothing at the end.
#[tactic(auto, unfolding(crate::specs::Lexing::next_at))]
fn next_at(alloc: Global, lines: bool, bytes: &[u8]) -> Result<Option<(Token, &[u8])>, Failure>
    ensures { Gives (λ next. option_map (λ r. (r.0, r.1.now)) next) result (lexing.next_at lines bytes.now) }
{
    let (gap, rest) = run(Class::Blank, bytes);
    if rest.is_empty() {
        return Ok(None);
    }
    let (token, rest) = token_at(alloc, rest)?;
    if is_gap(lines || is_after_lines(&token), gap) {
        Ok(Some((token, rest)))
    } else {
        Err(Failure::Other)
    }
}

/// The tokens that the bytes are, if they are tokens in the layout of the language.
///
/// # Errors
///
/// `NoMemory` where memory runs out.
pub fn read_tokens(alloc: Global, bytes: &[u8]) -> Result<Option<Tokens>, NoMemory>
    ensures ok { IfOk result (λ read. IfSome read (λ tokens. Spelled bytes.now tokens)) }
    ensures only { IfOk result (λ read. IfSome read (λ tokens. (others : List Token) → Spelled bytes.now others → others ≡ tokens)) }
    ensures none { IfOk result (λ read. IfNone read ((others : List Token) → Spelled bytes.now others → ⊥)) }
{
    let mut tokens = Items::new(alloc);
    let mut lines = false;
    let mut rest = bytes;
    loop {
        match next_at(alloc, lines, rest) {
            Ok(Some((token, after))) => {
                lines = is_before_lines(&token);
                tokens.push(token)?;
                rest = after;
            }
            Ok(None) => return Ok(Some(tokens)),
            Err(Failure::Other) => return Ok(None),
            Err(Failure::NoMemory) => return Err(NoMemory),
        }
    }
}

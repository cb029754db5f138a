//! Which line ends are newline tokens: SLS 1.2.

ghost use Rattle.std.specs.Prelude.{◌≡◌, ◌<◌, ◌+◌, ◌^◌, List, [], ◌∷◌, ◌++◌, ℕ, IfOk};
ghost use Rattle.scw_lex.specs.declared.token.Lexeme.{Lexeme};
ghost use Rattle.scw_lex.specs.Newline as spec;
ghost use Rattle.scw_lex.specs.Newline.{HasPlace, WithNewlines};
ghost use Rattle.scw_lex.specs.Filter as filter;
ghost use Rattle.scw_lex.specs.Read.{HasRead, IsAdded, NewlineOf};

use crate::bracket::{Bracket, OpenBrackets, mark_of};
use crate::token::{Gap, Lexeme, Tok, Token, Tokens};
use scw_text::{NoMemory, Span};
use sqlite_items::Items;
use std::alloc::Global;

/// Whether a statement can end with the token.
fn can_end(kind: &Tok) -> bool
    ensures { result ≡ spec.can_end kind.now }
{
    matches!(
        kind,
        Tok::Int(_)
            | Tok::Long(_)
            | Tok::MinInt
            | Tok::MinLong
            | Tok::Char(_)
            | Tok::Str(_)
            | Tok::Id(_)
            | Tok::Back(_)
            | Tok::KwThis
            | Tok::KwNull
            | Tok::KwTrue
            | Tok::KwFalse
            | Tok::KwReturn
            | Tok::KwType
            | Tok::KwUnderscore
            | Tok::KwCloseParenthesis
            | Tok::KwCloseBracket
            | Tok::KwCloseBrace
    )
}

/// Whether a class or an object begins with the token, behind its modifiers.
fn is_template(kind: &Tok) -> bool
    ensures { result ≡ spec.is_template kind.now }
{
    matches!(kind, Tok::KwClass | Tok::KwObject)
}

/// Whether a statement can begin with the token; with `case` it can where a class or an object follows.
fn can_begin(kind: &Tok, is_before_template: bool) -> bool
    ensures { result ≡ spec.can_begin kind.now is_before_template }
{
    if matches!(kind, Tok::KwCase) {
        return is_before_template;
    }
    !matches!(
        kind,
        Tok::KwCatch
            | Tok::KwElse
            | Tok::KwExtends
            | Tok::KwFinally
            | Tok::KwForSome
            | Tok::KwMatch
            | Tok::KwWith
            | Tok::KwYield
            | Tok::KwComma
            | Tok::KwDot
            | Tok::KwSemicolon
            | Tok::KwColon
            | Tok::KwEquals
            | Tok::KwArrow
            | Tok::KwLeftArrow
            | Tok::KwUpperBound
            | Tok::KwViewBound
            | Tok::KwLowerBound
            | Tok::KwHash
            | Tok::KwOpenBracket
            | Tok::KwCloseParenthesis
            | Tok::KwCloseBracket
            | Tok::KwCloseBrace
            | Tok::Nl
            | Tok::Nl2
            | Tok::Eof
    )
}

/// Whether a line end may be a newline token where this bracket is the innermost.
fn is_enabled(innermost: Option<Bracket>) -> bool
    ensures { result ≡ spec.is_enabled innermost }
{
    match innermost {
        None | Some(Bracket::Brace) => true,
        Some(Bracket::Parenthesis | Bracket::Square | Bracket::Case) => false,
    }
}

/// The token of one byte.
fn at_byte(kind: Tok, file: u32, at: u32) -> Token
    requires { at + 1 < 2 ^ 32 }
    ensures kind { result.kind ≡ kind }
    ensures span { spec.IsByte file at result.span }
{
    let span = Span {
        file,
        start: at,
        end: at + 1,
    };
    Token { kind, span }
}

/// The newline token of the line ends before a token, if there are any.
fn newline_of(file: u32, gap: Gap) -> Option<Token>
    requires { HasPlace gap }
    ensures { NewlineOf file gap result }
{
    match gap {
        Gap::Joined => None,
        Gap::LineEnd(at) => Some(at_byte(Tok::Nl, file, at)),
        Gap::BlankLine(at) => Some(at_byte(Tok::Nl2, file, at)),
    }
}

/// A token whose place among the others waits for the next one.
#[derive(Drop)]
struct Pending {
    /// The newline token of the line ends before it.
    newline: Option<Token>,
    /// The token.
    token: Token,
}

/// The tokens so far, and what decides whether a newline token follows them.
#[derive(Drop)]
struct Settled {
    /// The tokens, with the newline tokens.
    tokens: Tokens,
    /// The brackets that they leave open.
    brackets: OpenBrackets,
    /// Whether a statement can end with the last.
    is_ended: bool,
}

impl Settled {
    /// The newline token, if it may stand behind these tokens and before that one.
    fn kept(&self, newline: Option<Token>, kind: &Tok, is_before_template: bool) -> Option<Token>
        ensures { result ≡ filter.kept self.now.is_ended self.now.brackets newline kind.now is_before_template }
    {
        if self.is_ended
            && can_begin(kind, is_before_template)
            && is_enabled(self.brackets.innermost())
        {
            newline
        } else {
            None
        }
    }

    /// Puts the token behind, and its newline token before it if that may stand there.
    fn add(&mut self, pending: Pending, is_before_template: bool) -> Result<(), NoMemory>
        ensures { IfOk result (λ _. IsAdded self.old pending is_before_template self.new) }
    {
        let Pending { newline, token } = pending;
        if let Some(newline) = self.kept(newline, &token.kind, is_before_template) {
            self.tokens.push(newline)?;
        }
        self.brackets
            .mark(mark_of(&token.kind, is_before_template))?;
        self.is_ended = can_end(&token.kind);
        self.tokens.push(token)?;
        Ok(())
    }
}

/// Puts newline tokens between lexemes that come one at a time.
#[derive(Drop)]
pub struct NewlineFilter {
    settled: Settled,
    pending: Option<Pending>,
}

impl NewlineFilter {
    /// A filter that has read nothing.
    pub fn new(alloc: Global) -> NewlineFilter
        ensures { HasRead result [] }
    {
        NewlineFilter {
            settled: Settled {
                tokens: Items::new(alloc),
                brackets: OpenBrackets::new(alloc),
                is_ended: false,
            },
            pending: None,
        }
    }

    /// Reads the next lexeme.
    ///
    /// # Errors
    ///
    /// `NoMemory` where memory runs out. Nothing is known of the filter then.
    pub fn push(&mut self, lexeme: Lexeme) -> Result<(), NoMemory>
        requires { HasPlace lexeme.gap }
        ensures { IfOk result (λ _. (lexemes : List Lexeme) → HasRead self.old lexemes → HasRead self.new (lexemes ++ lexeme ∷ [])) }
    {
        let Lexeme { gap, token } = lexeme;
        let is_before_template = is_template(&token.kind);
        let newline = newline_of(token.span.file, gap);
        if let Some(last) = self.pending.replace(Pending { newline, token }) {
            self.settled.add(last, is_before_template)?;
        }
        Ok(())
    }

    /// The tokens of the lexemes that were read, with the newline tokens between them.
    ///
    /// # Errors
    ///
    /// `NoMemory` where memory runs out.
    pub fn finish(self) -> Result<Tokens, NoMemory>
        ensures { IfOk result (λ tokens. (lexemes : List Lexeme) → HasRead self lexemes → WithNewlines lexemes tokens) }
    {
        let NewlineFilter {
            mut settled,
            pending,
        } = self;
        if let Some(last) = pending {
            settled.add(last, false)?;
        }
        Ok(settled.tokens)
    }
}

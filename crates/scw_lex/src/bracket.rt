//! The brackets between which a line end is no newline token, or is one again: SLS 1.2.

ghost use Rattle.std.specs.Prelude.{◌≡◌, [], IfOk, MatchOption};
ghost use Rattle.scw_lex.specs.Newline as spec;
ghost use Rattle.scw_lex.specs.Filter as filter;

use crate::token::Tok;
use scw_text::NoMemory;
use sqlite_items::Items;
use std::alloc::Global;
use std::marker::Model;

/// A pair of tokens that encloses others.
#[derive(Clone, Copy, Debug, PartialEq, Eq)]
pub enum Bracket {
    /// `(` and `)`
    Parenthesis,
    /// `[` and `]`
    Square,
    /// `{` and `}`
    Brace,
    /// `case` of a pattern and its `=>`
    Case,
}

/// What a token is among the brackets.
#[derive(Clone, Copy, Debug, PartialEq, Eq)]
pub enum Mark {
    /// The first of a pair.
    Opens(Bracket),
    /// The second of a pair.
    Closes(Bracket),
    /// None of either.
    Neither,
}

/// What the token is among the brackets; `case` of a class or an object is none.
pub fn mark_of(kind: &Tok, is_before_template: bool) -> Mark
    ensures { result ≡ spec.mark_of kind.now is_before_template }
{
    match kind {
        Tok::KwOpenParenthesis => Mark::Opens(Bracket::Parenthesis),
        Tok::KwCloseParenthesis => Mark::Closes(Bracket::Parenthesis),
        Tok::KwOpenBracket => Mark::Opens(Bracket::Square),
        Tok::KwCloseBracket => Mark::Closes(Bracket::Square),
        Tok::KwOpenBrace => Mark::Opens(Bracket::Brace),
        Tok::KwCloseBrace => Mark::Closes(Bracket::Brace),
        Tok::KwCase => {
            if is_before_template {
                Mark::Neither
            } else {
                Mark::Opens(Bracket::Case)
            }
        }
        Tok::KwArrow => Mark::Closes(Bracket::Case),
        _ => Mark::Neither,
    }
}

/// The brackets that are open, the innermost first.
#[derive(Drop)]
pub struct OpenBrackets {
    outermost_first: Items<Bracket>,
}

impl Model for OpenBrackets {
    ghost use Rattle.std.specs.Prelude.{List, reverse};
    ghost use Rattle.scw_lex.specs.declared.bracket.Bracket.{Bracket};

    ghost Value = { List Bracket };

    ghost view = { λ b. reverse b.outermost_first };
}

impl OpenBrackets {
    /// None.
    pub fn new(alloc: Global) -> OpenBrackets
        ensures { result ≡ [] }
    {
        OpenBrackets {
            outermost_first: Items::new(alloc),
        }
    }

    /// The innermost, if one is open.
    pub fn innermost(&self) -> Option<Bracket>
        ensures { result ≡ filter.innermost self.now }
    {
        match self.outermost_first.as_slice() {
            [] => None,
            [.., bracket] => Some(*bracket),
        }
    }

    /// Opens or closes one.
    ///
    /// # Errors
    ///
    /// `NoMemory` where memory runs out.
    pub fn mark(&mut self, mark: Mark) -> Result<(), NoMemory>
        ensures { IfOk result (λ _. self.new ≡ filter.after_mark self.old mark) }
    {
        match mark {
            Mark::Opens(bracket) => self.outermost_first.push(bracket)?,
            Mark::Closes(bracket) => self.close(bracket),
            Mark::Neither => {}
        }
        Ok(())
    }

    /// Closes the innermost, if it is of this kind.
    fn close(&mut self, bracket: Bracket)
        ensures { self.new ≡ filter.after_close self.old bracket }
    {
        if self.innermost() == Some(bracket) {
            self.outermost_first.pop();
        }
    }
}

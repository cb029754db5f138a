//! A refusal of a source.

ghost use Rattle.std.specs.Prelude.{◌≡◌};
ghost use Rattle.scw_text.specs.Rule.{number_of};

use crate::memory::NoMemory;
use crate::rule::Rule;
use crate::span::Span;
use crate::text::Texts;

/// Why and where a source is refused.
#[derive(Debug, Drop)]
pub struct Refusal {
    /// The number of the rule, by `Rule::number`.
    pub rule: u8,
    /// The part of the source that breaks it.
    pub span: Span,
    /// What the message names: names, types, symbols.
    pub words: Texts,
}

impl Refusal {
    /// The refusal by a rule, whose number is written nowhere else.
    pub fn new(rule: Rule, span: Span, words: Texts) -> Refusal
        ensures rule { result.rule ≡ number_of rule }
        ensures span { result.span ≡ span }
        ensures words { result.words ≡ words }
    {
        Refusal {
            rule: rule.number(),
            span,
            words,
        }
    }
}

/// Why a phase gives no tree.
#[derive(Debug, Drop)]
pub enum Fault {
    /// The source breaks a rule.
    Refused(Refusal),
    /// Memory ran out.
    NoMemory,
}

impl From<NoMemory> for Fault {
    ghost use Rattle.scw_text.specs.declared.refusal.Fault.TheVariants as fault;

    ghost from_gives = { λ _ e. e ≡ fault.NoMemory };

    fn from(_: NoMemory) -> Fault {
        Fault::NoMemory
    }
}

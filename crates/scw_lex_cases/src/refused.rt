//! Refusals by their rules, and as messages.

use crate::lexed::{lexed, source_of, tokens_of};
use scw_rows::Stop;
use scw_text::{Refusal, Rule, Source};
use std::alloc::{AllocError, Global};

/// The rules of tokens.
#[rattlefmt::skip]
const RULES: [Rule; 8] = [
    Rule::BadChar, Rule::OpenComment, Rule::OpenText, Rule::BadEscape,
    Rule::BadNumber, Rule::BadName, Rule::LongText, Rule::LeftOutToken,
];

/// What is shown of a source with tokens.
fn accepted(alloc: Global) -> Result<String, AllocError> {
    String::from_str(alloc, "accepted")
}

/// Whether the text is accepted, or the rule by which it is refused.
pub fn rule(alloc: Global, text: &str) -> Result<String, Stop> {
    match tokens_of(alloc, text)? {
        Ok(_) => Ok(accepted(alloc)?),
        Err(refusal) => Ok(format!(in alloc; "rule {}", refusal.rule)?),
    }
}

/// The message of the refusal, where the source has the name `Main.scala`.
fn message_of(alloc: Global, source: &Source, refusal: &Refusal) -> Result<String, AllocError> {
    let at = refusal.span.start;
    if source.bytes().len() < at as usize {
        return format!(in alloc; "past the end");
    }
    let place = source.place(at);
    for rule in RULES {
        if rule.number() == refusal.rule {
            return format!(in alloc;
                "Main.scala:{}:{}: {} {rule:?}",
                place.line, place.column, refusal.rule
            );
        }
    }
    format!(in alloc; "rule {}", refusal.rule)
}

/// Whether the text is accepted, or the message of its refusal.
pub fn message(alloc: Global, text: &str) -> Result<String, Stop> {
    let source = source_of(alloc, text)?;
    match lexed(alloc, &source)? {
        Ok(_) => Ok(accepted(alloc)?),
        Err(refusal) => Ok(message_of(alloc, &source, &refusal)?),
    }
}

//! What all layers share: sources with their lines and columns, texts and their modified UTF-8, refusals and their
//! rules, numbered names.
//!
//! It opens no file and reads no token.
#![tactic(auto)]

mod memory;
mod modified;
mod number;
mod place;
mod refusal;
mod rule;
mod source;
mod span;
mod text;

pub use memory::NoMemory;
pub use modified::{ModifiedFault, from_modified, to_modified, write_modified};
pub use number::{NameId, SymId, TypeId, UnitId};
pub use place::Place;
pub use refusal::{Fault, Refusal};
pub use rule::Rule;
pub use source::{MAX_SOURCE_BYTES, Source, TextFault};
pub use span::Span;
pub use text::{Bytes, Text, Texts, Units};

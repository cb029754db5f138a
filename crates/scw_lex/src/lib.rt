//! The tokens of a source, with the newlines that end statements.
//!
//! It knows no grammar: `-1` is two tokens here, and `[A]` is three.
#![tactic(auto)]

mod bracket;
mod character;
mod comment;
mod escape;
mod front;
mod gap;
mod laws;
mod lexer;
mod literal;
mod name;
mod newline;
mod number;
mod piece;
mod reserved;
mod token;
mod utf8;

pub use character::{ASCII, Class};
pub use escape::ESCAPES;
pub use laws::{newlines_are_decided, sources_are_decided};
pub use lexer::lex;
pub use literal::MAX_TEXT_BYTES;
pub use name::MAX_NAME_BYTES;
pub use number::{MAX_INT, MAX_INT_BITS, MAX_LONG};
pub use reserved::{ARROWS, Reserved, SEPARATORS, WORDS};
pub use token::{Gap, Lexeme, Tok, Token, Tokens};

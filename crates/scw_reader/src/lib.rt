//! Reads a source of the small language, one object with loops and calls, into its syntax tree.
//!
//! It knows no types of expressions and no scopes: it reads what the grammar and the limits allow, and nothing else.
#![tactic(auto)]

mod atom;
mod block;
mod class;
mod cursor;
mod depth;
mod expression;
mod failure;
mod grammar;
mod layout;
mod lexing;
mod limit;
mod method;
mod number;
mod operation;
mod source;
mod token;
mod tree;

pub use failure::Failure;
pub use layout::{Tokens, read_tokens};
pub use limit::{MAX_BYTES, MAX_DEPTH, MAX_NESTING, MAX_PARAMETERS};
pub use source::read_small;
pub use token::{Sign, Token, Word};
pub use tree::{
    Atom, Expression, Method, Operator, Parameter, Product, Source, Statement, TypeName,
};

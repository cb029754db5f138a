//! Reads a source.

ghost use Rattle.std.specs.Prelude.{◌≡◌, ◌+◌, ◌≤◌, ◌↔◌, max, map, IsTrue, IfOk, IfSome, IfNone};
ghost use Rattle.scw_reader.specs.Syntax as syntax;
ghost use Rattle.scw_reader.specs.Limits as limits;
ghost use Rattle.scw_reader.specs.Capped.{capped, IsSmall};
ghost use Rattle.scw_reader.specs.Source.{Says};
ghost use Rattle.scw_reader.specs.View.{expression_of, method_of, source_of};

use crate::depth::expression_depth;
use crate::failure::Failure;
use crate::layout::read_tokens;
use crate::limit::{MAX_BYTES, MAX_DEPTH, MAX_PARAMETERS};
use crate::method::read_source;
use crate::tree::{Expression, Method, Parameter, Source};
use scw_text::NoMemory;
use std::alloc::Global;

/// The depth of the parameters in their parentheses.
fn clause_depth(parameters: &[Parameter]) -> usize
    ensures { result ≡ limits.clause_depth parameters.now }
{
    if parameters.is_empty() { 1 } else { 3 }
}

/// The depth of a method, or some more than the limit if it is deeper.
fn method_depth(method: &Method) -> usize
    ensures value { capped result ≡ capped (limits.method_depth (method_of method.now)) }
    ensures within { result ≤ MAX_DEPTH + 3 }
{
    2 + clause_depth(&method.parameters).max(expression_depth(&method.body))
}

/// The depth of `main`, or some more than the limit if it is deeper.
fn main_depth(body: &Expression) -> usize
    ensures value { capped result ≡ capped (limits.main_depth (expression_of body.now)) }
    ensures within { result ≤ MAX_DEPTH + 3 }
{
    2 + expression_depth(body).max(4)
}

/// The depth of the deepest method, or some more than the limit if it is deeper.
fn methods_depth(methods: &[Method]) -> usize
    ensures value { capped result ≡ capped (limits.methods_depth (map method_of methods.now)) }
    ensures within { result ≤ MAX_DEPTH + 3 }
{
    let mut depth = 0;
    for method in methods {
        depth = method_depth(method).max(depth);
    }
    depth
}

/// How many parameters the method with the most has.
fn most_parameters(methods: &[Method]) -> usize
    ensures { result ≡ limits.most_parameters (map method_of methods.now) }
{
    let mut most = 0;
    for method in methods {
        most = method.parameters.len().max(most);
    }
    most
}

/// Whether the tree is no deeper than the limit.
fn is_flat(source: &Source) -> bool
    ensures { IsTrue result ↔ (limits.source_depth (source_of source.now) ≤ MAX_DEPTH) }
{
    let others = methods_depth(&source.before).max(methods_depth(&source.after));
    5 + others.max(main_depth(&source.main)) <= MAX_DEPTH
}

/// Whether no method has more parameters than the limit.
fn has_few_parameters(source: &Source) -> bool
    ensures { IsTrue result ↔ (max (limits.most_parameters (map method_of source.now.before.items)) (limits.most_parameters (map method_of source.now.after.items)) ≤ MAX_PARAMETERS) }
{
    most_parameters(&source.before).max(most_parameters(&source.after)) <= MAX_PARAMETERS
}

/// Whether the tree is within the limits that reading doesn't keep.
fn is_small(source: &Source) -> bool
    ensures { IsTrue result ↔ IsSmall (source_of source.now) }
{
    is_flat(source) && has_few_parameters(source)
}

/// The syntax tree of a source of the small language, if the bytes are one.
///
/// # Errors
///
/// `NoMemory` where memory runs out.
pub fn read_small(alloc: Global, bytes: &[u8]) -> Result<Option<Source>, NoMemory>
    ensures ok { IfOk result (λ read. IfSome read (λ e. Says bytes.now (source_of e))) }
    ensures only { IfOk result (λ read. IfSome read (λ e. (other : syntax.Source) → Says bytes.now other → other ≡ source_of e)) }
    ensures none { IfOk result (λ read. IfNone read ((other : syntax.Source) → Says bytes.now other → ⊥)) }
{
    if MAX_BYTES < bytes.len() {
        return Ok(None);
    }
    let Some(tokens) = read_tokens(alloc, bytes)? else {
        return Ok(None);
    };
    match read_source(alloc, tokens.as_slice()) {
        Ok(source) => {
            if is_small(&source) {
                Ok(Some(source))
            } else {
                Ok(None)
            }
        }
        Err(Failure::Other) => Ok(None),
        Err(Failure::NoMemory) => Err(NoMemory),
    }
}

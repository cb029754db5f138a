//! The attribute `Code`: JVMS 4.7.3.

ghost use Rattle.std.specs.Prelude.{◌≡◌, ◌++◌, ℕ, [], IsTrue, OnOk};
ghost use Rattle.std.specs.Option.{option_map};
ghost use Rattle.scw_classfile.specs.Code.{after_attribute, after_attribute_list, after_attributes, after_handlers, after_measured, code_end, passed};
ghost use Rattle.scw_classfile.specs.Format.{code, code_tail, sized_code};
ghost use Rattle.scw_classfile.specs.Gives.{Gives};

use crate::class_file::{Attribute, Attributes, Code, Handler, Handlers};
use crate::class_rule::ClassRule;
use crate::code_array::{code_array_at, write_code_array};
use crate::context::Context;
use crate::fault::{Fault, ReadFault};
use crate::field::{Plain, read_counted, write_counted};
use crate::number::{u2_at, u2_front, u4_at, u4_front, write_two};
use std::alloc::{AllocError, Global};

/// What follows so many bytes.
fn passed(n: usize, bytes: &[u8]) -> Option<&[u8]>
    ensures { option_map (λ r. r.now) result ≡ passed n bytes.now }
{
    if bytes.len() < n {
        None
    } else {
        Some(&bytes[n..])
    }
}

/// What follows a length of four bytes and that many bytes.
fn after_measured(bytes: &[u8]) -> Option<&[u8]>
    ensures { option_map (λ r. r.now) result ≡ after_measured bytes.now }
{
    let (n, rest) = u4_front(bytes)?;
    passed(n as usize, rest)
}

/// What follows `attribute_name_index`, `attribute_length` and `info`.
fn after_attribute(bytes: &[u8]) -> Option<&[u8]>
    ensures { option_map (λ r. r.now) result ≡ after_attribute bytes.now }
{
    let rest = passed(2, bytes)?;
    after_measured(rest)
}

/// What follows so many attributes.
fn after_attributes(count: u16, bytes: &[u8]) -> Option<&[u8]>
    ensures { option_map (λ r. r.now) result ≡ after_attributes count bytes.now }
{
    let mut rest = bytes;
    for _ in 0..count {
        rest = after_attribute(rest)?;
    }
    Some(rest)
}

/// What follows `attributes_count` and `attributes`.
fn after_attribute_list(bytes: &[u8]) -> Option<&[u8]>
    ensures { option_map (λ r. r.now) result ≡ after_attribute_list bytes.now }
{
    let (count, rest) = u2_front(bytes)?;
    after_attributes(count, rest)
}

/// What follows `exception_table_length` and `exception_table`.
fn after_handlers(bytes: &[u8]) -> Option<&[u8]>
    ensures { option_map (λ r. r.now) result ≡ after_handlers bytes.now }
{
    let (count, rest) = u2_front(bytes)?;
    passed(8 * count as usize, rest)
}

/// What follows the parts behind `attribute_length`, by their counts and lengths alone.
#[tactic(auto, unfolding(crate::specs::Code::code_end))]
fn code_end(bytes: &[u8]) -> Option<&[u8]>
    ensures { option_map (λ r. r.now) result ≡ code_end bytes.now }
{
    let rest = passed(4, bytes)?;
    let rest = after_measured(rest)?;
    let rest = after_handlers(rest)?;
    after_attribute_list(rest)
}

/// The exception table and the attributes of code whose instructions begin at these places.
fn tail_at<'b>(
    alloc: Global,
    context: Context<'_>,
    bytes: &'b [u8],
) -> Result<((Handlers, Attributes), &'b [u8]), ReadFault>
    ensures { Gives (λ x. (x.0, x.1.now)) result ((code_tail context.entry.major context.entry.kinds.now context.entry.starts.now).read bytes.now) }
{
    let (handlers, rest) = read_counted::<Plain, Handler>(alloc, context, bytes)?;
    let (attributes, rest) = read_counted::<Plain, Attribute>(alloc, context, rest)?;
    Ok(((handlers, attributes), rest))
}

/// What stands behind `attribute_length`.
#[tactic(auto, unfolding(crate::specs::Format::code))]
fn code_at<'b>(
    alloc: Global,
    context: Context<'_>,
    bytes: &'b [u8],
) -> Result<(Code, &'b [u8]), ReadFault>
    ensures { Gives (λ x. (x.0, x.1.now)) result ((code context.entry.major context.entry.kinds.now).read bytes.now) }
{
    let (stack, rest) = u2_at(bytes)?;
    let (locals, rest) = u2_at(rest)?;
    let ((code, marks), rest) = code_array_at(alloc, context, rest)?;
    let inside = Context {
        major: context.major,
        kinds: context.kinds,
        starts: &marks,
    };
    let ((handlers, attributes), rest) = tail_at(alloc, inside, rest)?;
    let code = Code {
        stack,
        locals,
        code,
        handlers,
        attributes,
    };
    Ok((code, rest))
}

#[tactic(auto, unfolding(crate::specs::Format::code))]
fn write_code(c: &Code, out: &mut Vec<u8>) -> Result<(), AllocError>
    requires { IsTrue ((code 0 []).counts c.now) }
    ensures { OnOk result (out.new.items ≡ out.old.items ++ (code 0 []).spell c.now) }
{
    write_two(c.stack, c.locals, out)?;
    write_code_array(c.code.as_slice(), out)?;
    write_counted::<Plain, Handler>(c.handlers.as_slice(), out)?;
    write_counted::<Plain, Attribute>(c.attributes.as_slice(), out)
}

/// `attribute_length`, and code that takes so many bytes.
pub fn sized_code_at<'b>(
    alloc: Global,
    context: Context<'_>,
    bytes: &'b [u8],
) -> Result<(Code, &'b [u8]), ReadFault>
    ensures { Gives (λ x. (x.0, x.1.now)) result ((sized_code context.entry.major context.entry.kinds.now).read bytes.now) }
{
    let (size, rest) = u4_at(bytes)?;
    match code_end(rest) {
        Some(after) if rest.len().saturating_sub(after.len()) != size as usize => {
            Err(ReadFault::Broken(Fault {
                rule: ClassRule::AttributeLength,
                left: rest.len() + 4,
            }))
        }
        Some(_) | None => code_at(alloc, context, rest),
    }
}

/// Writes `attribute_length`, and the code.
pub fn write_sized_code(c: &Code, out: &mut Vec<u8>) -> Result<(), AllocError>
    requires { IsTrue ((sized_code 0 []).counts c.now) }
    ensures { OnOk result (out.new.items ≡ out.old.items ++ (sized_code 0 []).spell c.now) }
{
    let mut inner = Vec::new(*out.allocator());
    write_code(c, &mut inner)?;
    let size = inner.len() as u32;
    out.extend_from_slice(&size.to_be_bytes())?;
    out.extend_from_slice(&inner)
}

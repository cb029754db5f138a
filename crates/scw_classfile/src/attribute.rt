//! Attributes: JVMS 4.7.

ghost use Rattle.std.specs.List.{flat_map, list_all};
ghost use Rattle.std.specs.Prelude.{◌≡◌, ◌++◌, ℕ, false, [], IsTrue, OnOk};
ghost use Rattle.scw_classfile.specs.Codec.{read_flagged};
ghost use Rattle.scw_classfile.specs.Format.{body_bytes, body_counts, index, names_code, other, own, own_bytes, own_counts, own_item, own_list, own_name, own_seen, raw, read_body};
ghost use Rattle.scw_classfile.specs.Gives.{Gives};
ghost use Rattle.scw_classfile.specs.declared.index.Expected.TheVariants as expected;

use crate::class_file::{AttrBody, Attribute, Attributes};
use crate::class_rule::ClassRule;
use crate::code::{sized_code_at, write_sized_code};
use crate::context::Context;
use crate::fault::{ReadFault, judged};
use crate::field::{Field, Plain};
use crate::flaw::{first_of_two, unless};
use crate::index::{Expected, TextTest, index_flaw, is_text_that};
use crate::number::{bytes_at, u2_at, u4_at};
use scw_text::Bytes;
use sqlite_items::Items;
use std::alloc::{AllocError, Global};

/// An index that names what is expected.
pub fn index_at<'b>(
    context: Context<'_>,
    expected: Expected,
    bytes: &'b [u8],
) -> Result<(u16, &'b [u8]), ReadFault>
    ensures { Gives (λ x. (x.0, x.1.now)) result ((index context.entry.major context.entry.kinds.now expected).read bytes.now) }
{
    let (n, rest) = u2_at(bytes)?;
    let flaw = index_flaw(context.major, context.kinds, expected, n, 0);
    judged(n, rest, bytes.len(), flaw)
}

/// `attribute_length, info`.
fn raw_at(alloc: Global, bytes: &[u8]) -> Result<(Bytes, &[u8]), ReadFault>
    ensures { Gives (λ x. (x.0, x.1.now)) result (raw.read bytes.now) }
{
    let (count, rest) = u4_at(bytes)?;
    let (front, rest) = bytes_at(count as usize, rest)?;
    Ok((Items::from_slice(alloc, front)?, rest))
}

fn write_raw(bytes: &[u8], out: &mut Vec<u8>) -> Result<(), AllocError>
    requires { IsTrue (raw.counts bytes.now) }
    ensures { OnOk result (out.new.items ≡ out.old.items ++ raw.spell bytes.now) }
{
    let count = bytes.len() as u32;
    out.extend_from_slice(&count.to_be_bytes())?;
    out.extend_from_slice(bytes)
}

/// An attribute outside a method's own list.
impl Field<Plain> for Attribute {
    ghost codec = { λ major kinds _. other major kinds };

    fn read<'b>(
        alloc: Global,
        context: Context<'_>,
        bytes: &'b [u8],
    ) -> Result<(Attribute, &'b [u8]), ReadFault> {
        let (name, rest) = index_at(context, Expected::Text, bytes)?;
        let (bytes, rest) = raw_at(alloc, rest)?;
        let body = AttrBody::Other(bytes);
        Ok((Attribute { name, body }, rest))
    }

    fn write(&self, out: &mut Vec<u8>) -> Result<(), AllocError> {
        out.extend_from_slice(&self.name.to_be_bytes())?;
        match &self.body {
            AttrBody::Other(bytes) => write_raw(bytes.as_slice(), out),
            AttrBody::Code(_) => Ok(()),
        }
    }
}

/// Whether the index is of the name of the attribute `Code`.
fn names_code(context: Context<'_>, n: u16) -> bool
    ensures { result ≡ names_code context.entry.kinds.now n }
{
    is_text_that(context.kinds, TextTest::Code, n)
}

/// The name of an attribute in a method's own list, which has one `Code` at most.
fn own_name_at<'b>(
    context: Context<'_>,
    seen: bool,
    bytes: &'b [u8],
) -> Result<(u16, &'b [u8]), ReadFault>
    ensures { Gives (λ x. (x.0, x.1.now)) result ((own_name context.entry.major context.entry.kinds.now seen).read bytes.now) }
{
    let (n, rest) = u2_at(bytes)?;
    let second = seen && names_code(context, n);
    let flaw = first_of_two(
        index_flaw(context.major, context.kinds, Expected::Text, n, 0),
        unless(!second, ClassRule::Code, 0),
    );
    judged(n, rest, bytes.len(), flaw)
}

/// The body of an attribute, which is code where its name says so.
fn body_at<'b>(
    alloc: Global,
    context: Context<'_>,
    named: bool,
    bytes: &'b [u8],
) -> Result<(AttrBody, &'b [u8]), ReadFault>
    ensures { Gives (λ x. (x.0, x.1.now)) result (read_body context.entry.major context.entry.kinds.now named bytes.now) }
{
    if named {
        let (code, rest) = sized_code_at(alloc, context, bytes)?;
        Ok((AttrBody::Code(code), rest))
    } else {
        let (bytes, rest) = raw_at(alloc, bytes)?;
        Ok((AttrBody::Other(bytes), rest))
    }
}

/// An attribute in a method's own list, after a `Code` or before one.
fn own_at<'b>(
    alloc: Global,
    context: Context<'_>,
    seen: bool,
    bytes: &'b [u8],
) -> Result<(Attribute, &'b [u8]), ReadFault>
    ensures { Gives (λ x. (x.0, x.1.now)) result ((own context.entry.major context.entry.kinds.now seen).read bytes.now) }
{
    let (name, rest) = own_name_at(context, seen, bytes)?;
    let (body, rest) = body_at(alloc, context, names_code(context, name), rest)?;
    Ok((Attribute { name, body }, rest))
}

/// Whether there was a `Code`, this attribute among those seen.
fn is_seen(context: Context<'_>, seen: bool, attribute: &Attribute) -> bool
    ensures { result ≡ own_seen context.entry.kinds.now seen attribute.now }
{
    seen || names_code(context, attribute.name)
}

/// So many attributes of a method's own list.
fn own_times<'b>(
    alloc: Global,
    context: Context<'_>,
    count: u16,
    bytes: &'b [u8],
) -> Result<(Attributes, &'b [u8]), ReadFault>
    ensures { Gives (λ x. (x.0, x.1.now)) result (read_flagged (own_item context.entry.major context.entry.kinds.now) (own_seen context.entry.kinds.now) false count bytes.now) }
{
    let mut attributes = Items::new(alloc);
    let mut rest = bytes;
    let mut seen = false;
    for _ in 0..count {
        let (attribute, after) = own_at(alloc, context, seen, rest)?;
        seen = is_seen(context, seen, &attribute);
        attributes.push(attribute)?;
        rest = after;
    }
    Ok((attributes, rest))
}

/// A method's own list of attributes (JVMS 4.6).
pub fn own_list_at<'b>(
    alloc: Global,
    context: Context<'_>,
    bytes: &'b [u8],
) -> Result<(Attributes, &'b [u8]), ReadFault>
    ensures { Gives (λ x. (x.0, x.1.now)) result ((own_list context.entry.major context.entry.kinds.now).read bytes.now) }
{
    let (count, rest) = u2_at(bytes)?;
    own_times(alloc, context, count, rest)
}

#[tactic(auto, unfolding(crate::specs::Format::code))]
fn write_body(body: &AttrBody, out: &mut Vec<u8>) -> Result<(), AllocError>
    requires { IsTrue (body_counts body.now) }
    ensures { OnOk result (out.new.items ≡ out.old.items ++ body_bytes body.now) }
{
    match body {
        AttrBody::Code(code) => write_sized_code(code, out),
        AttrBody::Other(bytes) => write_raw(bytes.as_slice(), out),
    }
}

fn write_own(attribute: &Attribute, out: &mut Vec<u8>) -> Result<(), AllocError>
    requires { IsTrue (own_counts attribute.now) }
    ensures { OnOk result (out.new.items ≡ out.old.items ++ own_bytes attribute.now) }
{
    out.extend_from_slice(&attribute.name.to_be_bytes())?;
    write_body(&attribute.body, out)
}

fn write_own_each(attributes: &[Attribute], out: &mut Vec<u8>) -> Result<(), AllocError>
    requires { IsTrue (list_all own_counts attributes.now) }
    ensures { OnOk result (out.new.items ≡ out.old.items ++ flat_map own_bytes attributes.now) }
{
    for attribute in attributes {
        write_own(attribute, out)?;
    }
    Ok(())
}

/// Writes a method's own list of attributes.
pub fn write_own_list(attributes: &[Attribute], out: &mut Vec<u8>) -> Result<(), AllocError>
    requires { IsTrue ((own_list 0 []).counts attributes.now) }
    ensures { OnOk result (out.new.items ≡ out.old.items ++ (own_list 0 []).spell attributes.now) }
{
    let count = attributes.len() as u16;
    out.extend_from_slice(&count.to_be_bytes())?;
    write_own_each(attributes, out)
}

//! Classes: JVMS 4.1.

ghost use Rattle.std.specs.Prelude.{◌≡◌, ◌≤◌, ◌++◌, [], length, IfOk, IsTrue, OnOk};
ghost use Rattle.scw_classfile.specs.Codec.{whole};
ghost use Rattle.scw_classfile.specs.Format.{body, body_of, class, interface, magic, major_version, parent, parent_is, start, tail, tail_of};
ghost use Rattle.scw_classfile.specs.Gives.{Gives};
ghost use Rattle.scw_classfile.specs.ReadClass.{read_class, refusal_of, ClassBytes, IfBad, IsOkOrNoMemory, IsWritable, Reads};
ghost use Rattle.scw_classfile.specs.declared.class_file.ClassFile.{ClassFile};

use crate::access_flags::AccessFlags;
use crate::attribute::index_at;
use crate::class_file::{Attribute, Attributes, ClassFile, Indices, MemberInfo, MemberInfos};
use crate::class_rule::ClassRule;
use crate::context::Context;
use crate::fault::{ClassFault, ClassRefusal, Fault, ReadFault, judged};
use crate::field::{Field, Own, Plain, read_counted, write_counted};
use crate::flaw::unless;
use crate::index::{Expected, TextTest, is_class_that, is_index};
use crate::member::flags_at;
use crate::number::{u2_at, u4_at, write_two};
use crate::pool::{pool_at, write_pool};
use scw_text::{Bytes, NoMemory};
use sqlite_items::Items;
use std::alloc::{AllocError, Global};

/// The number that class files begin with (JVMS 4.1).
const MAGIC: u32 = 0xcafebabe;

/// `magic`.
fn magic_at(bytes: &[u8]) -> Result<(u32, &[u8]), ReadFault>
    ensures { Gives (λ x. (x.0, x.1.now)) result (magic.read bytes.now) }
{
    let (number, rest) = u4_at(bytes)?;
    let flaw = unless(number == MAGIC, ClassRule::Magic, 0);
    judged(number, rest, bytes.len(), flaw)
}

/// `major_version`, from 45 to 52.
fn major_at(bytes: &[u8]) -> Result<(u16, &[u8]), ReadFault>
    ensures { Gives (λ x. (x.0, x.1.now)) result (major_version.read bytes.now) }
{
    let (number, rest) = u2_at(bytes)?;
    let flaw = unless(45 <= number && number <= 52, ClassRule::Version, 0);
    judged(number, rest, bytes.len(), flaw)
}

/// `magic, minor_version, major_version`.
fn start_at(bytes: &[u8]) -> Result<((u16, u16), &[u8]), ReadFault>
    ensures { Gives (λ x. (x.0, x.1.now)) result (start.read bytes.now) }
{
    let (_, rest) = magic_at(bytes)?;
    let (minor, rest) = u2_at(rest)?;
    let (major, rest) = major_at(rest)?;
    Ok(((minor, major), rest))
}

/// Whether the index is of a superclass, which `java/lang/Object` alone is without.
fn parent_is(context: Context<'_>, this: u16, n: u16) -> bool
    ensures { result ≡ parent_is context.entry.major context.entry.kinds.now this n }
{
    if n == 0 {
        is_class_that(context.kinds, TextTest::Object, this)
    } else {
        is_index(
            context.major,
            context.kinds,
            Expected::Class,
            usize::from(n),
        )
    }
}

/// `super_class`, in a class with this `this_class`.
fn parent_at<'b>(
    context: Context<'_>,
    this: u16,
    bytes: &'b [u8],
) -> Result<(u16, &'b [u8]), ReadFault>
    ensures { Gives (λ x. (x.0, x.1.now)) result ((parent context.entry.major context.entry.kinds.now this).read bytes.now) }
{
    let (n, rest) = u2_at(bytes)?;
    let flaw = unless(parent_is(context, this, n), ClassRule::Index, 0);
    judged(n, rest, bytes.len(), flaw)
}

/// An interface.
impl Field<Plain> for u16 {
    ghost codec = { λ major kinds _. interface major kinds };

    fn read<'b>(
        _alloc: Global,
        context: Context<'_>,
        bytes: &'b [u8],
    ) -> Result<(u16, &'b [u8]), ReadFault> {
        index_at(context, Expected::Class, bytes)
    }

    fn write(&self, out: &mut Vec<u8>) -> Result<(), AllocError> {
        out.extend_from_slice(&self.to_be_bytes())
    }
}

/// Interfaces, fields, methods and attributes.
type Tail = (Indices, (MemberInfos, (MemberInfos, Attributes)));

/// What stands behind `super_class`.
#[tactic(auto, unfolding(crate::specs::Format::tail))]
fn tail_at<'b>(
    alloc: Global,
    context: Context<'_>,
    bytes: &'b [u8],
) -> Result<(Tail, &'b [u8]), ReadFault>
    ensures { Gives (λ x. (x.0, x.1.now)) result ((tail context.entry.major context.entry.kinds.now).read bytes.now) }
{
    let (interfaces, rest) = read_counted::<Plain, u16>(alloc, context, bytes)?;
    let (fields, rest) = read_counted::<Plain, MemberInfo>(alloc, context, rest)?;
    let (methods, rest) = read_counted::<Own, MemberInfo>(alloc, context, rest)?;
    let (attributes, rest) = read_counted::<Plain, Attribute>(alloc, context, rest)?;
    Ok(((interfaces, (fields, (methods, attributes))), rest))
}

#[tactic(auto, unfolding(crate::specs::Format::tail))]
fn write_tail(c: &ClassFile, out: &mut Vec<u8>) -> Result<(), AllocError>
    requires { IsTrue ((tail 0 []).counts (tail_of c.now)) }
    ensures { OnOk result (out.new.items ≡ out.old.items ++ (tail 0 []).spell (tail_of c.now)) }
{
    write_counted::<Plain, u16>(c.interfaces.as_slice(), out)?;
    write_counted::<Plain, MemberInfo>(c.fields.as_slice(), out)?;
    write_counted::<Own, MemberInfo>(c.methods.as_slice(), out)?;
    write_counted::<Plain, Attribute>(c.attributes.as_slice(), out)
}

/// `access_flags`, `this_class`, `super_class` and what stands behind them.
type Body = (AccessFlags, (u16, (u16, Tail)));

/// What stands behind the pool.
fn body_at<'b>(
    alloc: Global,
    context: Context<'_>,
    bytes: &'b [u8],
) -> Result<(Body, &'b [u8]), ReadFault>
    ensures { Gives (λ x. (x.0, x.1.now)) result ((body context.entry.major context.entry.kinds.now).read bytes.now) }
{
    let (flags, rest) = flags_at(bytes)?;
    let (this, rest) = index_at(context, Expected::Class, rest)?;
    let (parent, rest) = parent_at(context, this, rest)?;
    let (tail, rest) = tail_at(alloc, context, rest)?;
    Ok(((flags, (this, (parent, tail))), rest))
}

/// The class that the bytes begin with.
#[tactic(auto, unfolding(crate::specs::Format::class))]
fn class_at(alloc: Global, bytes: &[u8]) -> Result<(ClassFile, &[u8]), ReadFault>
    ensures { Gives (λ x. (x.0, x.1.now)) result (class.read bytes.now) }
{
    let ((minor, major), rest) = start_at(bytes)?;
    let ((pool, kinds), rest) = pool_at(alloc, major, rest)?;
    let context = Context {
        major,
        kinds: &kinds,
        starts: &[],
    };
    let (body, rest) = body_at(alloc, context, rest)?;
    let (flags, (this, (parent, tail))) = body;
    let (interfaces, (fields, (methods, attributes))) = tail;
    let class = ClassFile {
        minor,
        major,
        pool,
        flags,
        this,
        parent,
        interfaces,
        fields,
        methods,
        attributes,
    };
    Ok((class, rest))
}

/// The class that takes all of the bytes.
fn whole_class(alloc: Global, bytes: &[u8]) -> Result<ClassFile, ReadFault>
    ensures { Gives (λ x. x) result (whole class.read bytes.now) }
{
    let (class, rest) = class_at(alloc, bytes)?;
    if rest.is_empty() {
        Ok(class)
    } else {
        Err(ReadFault::Broken(Fault {
            rule: ClassRule::Trailing,
            left: rest.len(),
        }))
    }
}

/// The fault in a file of so many bytes, as it is reported.
fn refusal(size: usize, fault: Fault) -> ClassRefusal
    ensures { result ≡ refusal_of size fault }
{
    let place = size.saturating_sub(fault.left).min(u32::MAX as usize);
    ClassRefusal {
        rule: fault.rule.number(),
        place: place as u32,
    }
}

#[tactic(auto, unfolding(crate::specs::ReadClass::read_class))]
fn reported_class(alloc: Global, bytes: &[u8]) -> Result<ClassFile, ClassFault>
    ensures { Reads result (read_class bytes.now) }
{
    match whole_class(alloc, bytes) {
        Ok(class) => Ok(class),
        Err(ReadFault::Broken(fault)) => Err(ClassFault::Bad(refusal(bytes.len(), fault))),
        Err(ReadFault::NoMemory) => Err(ClassFault::NoMemory),
    }
}

/// The class that the bytes hold, from the first to the last (JVMS 4.1 and 4.8).
///
/// # Errors
///
/// `Bad` with the first rule that the bytes break and its place, in the order magic and version, the
/// entries of the pool, their indices, and then the rest in the order of the bytes. `NoMemory` where
/// memory runs out.
pub fn read_class(alloc: Global, bytes: &[u8]) -> Result<ClassFile, ClassFault>
    ensures read { Reads result (read_class bytes.now) }
    ensures ok { IfOk result (λ c. ClassBytes c bytes.now) }

    // Bytes that are those of a class are never refused: what `write_class` gave is read again.
    ensures again { (c : ClassFile) → ClassBytes c bytes.now → IsOkOrNoMemory result c }
    ensures within { IfBad result (λ r. r.place ≤ length bytes.now) }
{
    reported_class(alloc, bytes)
}

/// Writes `magic, minor_version, major_version`.
fn write_start(minor: u16, major: u16, out: &mut Vec<u8>) -> Result<(), AllocError>
    ensures { OnOk result (out.new.items ≡ out.old.items ++ start.spell (minor, major)) }
{
    out.extend_from_slice(&MAGIC.to_be_bytes())?;
    write_two(minor, major, out)
}

/// Writes what stands behind the pool.
fn write_body(c: &ClassFile, out: &mut Vec<u8>) -> Result<(), AllocError>
    requires { IsTrue ((tail 0 []).counts (tail_of c.now)) }
    ensures { OnOk result (out.new.items ≡ out.old.items ++ (body 0 []).spell (body_of c.now)) }
{
    write_two(c.flags.0, c.this, out)?;
    out.extend_from_slice(&c.parent.to_be_bytes())?;
    write_tail(c, out)
}

/// The bytes of the class (JVMS 4.1).
///
/// # Errors
///
/// `NoMemory` where memory runs out.
pub fn write_class(alloc: Global, c: &ClassFile) -> Result<Bytes, NoMemory>
    requires { IsWritable c.now }
    ensures { IfOk result (λ bytes. bytes ≡ class.spell c.now) }
{
    let mut out = Vec::new(alloc);
    write_start(c.minor, c.major, &mut out)?;
    write_pool(c.pool.as_slice(), &mut out)?;
    write_body(c, &mut out)?;
    Ok(Items::from_vec(out))
}

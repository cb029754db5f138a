//! How many bytes the parts of a class file take, and where code begins (JVMS 4.1, 4.4 to 4.7).

ghost use Rattle.std.specs.Prelude.{◌≡◌, ◌+◌, ◌*◌, ◌<◌, ◌^◌, IfOk, length, sum_by};
ghost use Rattle.scw_link.specs.Sizes as z;

use crate::number::sum;
use scw_classfile::{AttrBody, Attribute, ClassFile, Code, MemberInfo, PoolEntry};
use scw_code::Instr;
use scw_text::{NoMemory, to_modified};
use std::alloc::Global;

fn entry_size(alloc: Global, entry: &PoolEntry) -> Result<usize, NoMemory>
    ensures { IfOk result (λ n. n ≡ z.entry_size entry.now) }
{
    match entry {
        PoolEntry::Utf8(units) => sum(3, to_modified(alloc, units.as_slice())?.len()),
        PoolEntry::Long(_) | PoolEntry::Double(_) => Ok(9),
        PoolEntry::Class(_) | PoolEntry::Str(_) | PoolEntry::MethodType(_) => Ok(3),
        PoolEntry::Integer(_)
        | PoolEntry::Float(_)
        | PoolEntry::Fieldref(_, _)
        | PoolEntry::Methodref(_, _)
        | PoolEntry::InterfaceMethodref(_, _)
        | PoolEntry::NameAndType(_, _)
        | PoolEntry::InvokeDynamic(_, _) => Ok(5),
        PoolEntry::MethodHandle(_, _) => Ok(4),
        PoolEntry::Second => Ok(0),
    }
}

fn pool_size(alloc: Global, pool: &[PoolEntry]) -> Result<usize, NoMemory>
    ensures { IfOk result (λ n. n ≡ sum_by z.entry_size pool.now) }
{
    let mut size = 0;
    for entry in pool {
        size = sum(size, entry_size(alloc, entry)?)?;
    }
    Ok(size)
}

fn other_size(attribute: &Attribute) -> Result<usize, NoMemory>
    ensures { IfOk result (λ n. n ≡ z.other_size attribute.now) }
{
    match &attribute.body {
        AttrBody::Code(_) => Ok(6),
        AttrBody::Other(bytes) => sum(6, bytes.len()),
    }
}

fn others_size(attributes: &[Attribute]) -> Result<usize, NoMemory>
    ensures { IfOk result (λ n. n ≡ sum_by z.other_size attributes.now) }
{
    let mut size = 0;
    for attribute in attributes {
        size = sum(size, other_size(attribute)?)?;
    }
    Ok(size)
}

fn end_of(instrs: &[Instr]) -> Result<usize, NoMemory>
    ensures { IfOk result (λ n. n ≡ z.end_of 0 instrs.now) }
{
    let mut place = 0;
    for instr in instrs {
        place = sum(place, instr.size(place))?;
    }
    Ok(place)
}

fn times(factor: usize, n: usize) -> Result<usize, NoMemory>
    ensures { IfOk result (λ m. m ≡ factor * n) }
{
    match factor.checked_mul(n) {
        Some(product) => Ok(product),
        None => Err(NoMemory),
    }
}

fn behind_code(code: &Code) -> Result<usize, NoMemory>
    ensures { IfOk result (λ n. n ≡ z.behind_code code.now) }
{
    let attributes = sum(2, others_size(code.attributes.as_slice())?)?;
    let handlers = times(8, code.handlers.len())?;
    let tables = sum(2, sum(handlers, attributes)?)?;
    sum(end_of(code.code.as_slice())?, tables)
}

fn own_size(attribute: &Attribute) -> Result<usize, NoMemory>
    ensures { IfOk result (λ n. n ≡ z.own_size attribute.now) }
{
    match &attribute.body {
        AttrBody::Code(code) => sum(14, behind_code(code)?),
        AttrBody::Other(bytes) => sum(6, bytes.len()),
    }
}

fn own_sizes(attributes: &[Attribute]) -> Result<usize, NoMemory>
    ensures { IfOk result (λ n. n ≡ sum_by z.own_size attributes.now) }
{
    let mut size = 0;
    for attribute in attributes {
        size = sum(size, own_size(attribute)?)?;
    }
    Ok(size)
}

fn fields_size(fields: &[MemberInfo]) -> Result<usize, NoMemory>
    ensures { IfOk result (λ n. n ≡ sum_by z.field_size fields.now) }
{
    let mut size = 0;
    for field in fields {
        size = sum(size, sum(8, others_size(field.attributes.as_slice())?)?)?;
    }
    Ok(size)
}

/// How many bytes a method takes.
pub fn method_size(method: &MemberInfo) -> Result<usize, NoMemory>
    ensures { IfOk result (λ n. n ≡ z.method_size method.now) }
{
    sum(8, own_sizes(method.attributes.as_slice())?)
}

fn code_place(attributes: &[Attribute]) -> Result<Option<usize>, NoMemory>
    ensures { IfOk result (λ n. n ≡ z.code_place attributes.now) }
{
    match attributes {
        [] => Ok(None),
        [attribute, more @ ..] => match &attribute.body {
            AttrBody::Code(_) => Ok(Some(14)),
            AttrBody::Other(_) => match code_place(more)? {
                Some(n) => Ok(Some(sum(own_size(attribute)?, n)?)),
                None => Ok(None),
            },
        },
    }
}

/// How many bytes of a file stand before its methods.
pub fn before_methods(alloc: Global, file: &ClassFile) -> Result<usize, NoMemory>
    ensures { IfOk result (λ n. n ≡ z.before_methods file.now) }
{
    let fields = sum(2, sum(fields_size(file.fields.as_slice())?, 2)?)?;
    let interfaces = sum(8, sum(times(2, file.interfaces.len())?, fields)?)?;
    sum(
        10,
        sum(pool_size(alloc, file.pool.as_slice())?, interfaces)?,
    )
}

/// The byte of the file at which the code of a method begins that stands at the place, or 0 if it has none.
pub fn start_of(place: usize, method: &MemberInfo) -> Result<usize, NoMemory>
    ensures { IfOk result (λ n. n ≡ z.start_of place method.now) }
{
    match code_place(method.attributes.as_slice())? {
        Some(n) => sum(place, sum(8, n)?),
        None => Ok(0),
    }
}

//! What of a class doesn't fit a class file (JVMS 4.11).

ghost use Rattle.std.specs.Prelude.{◌≡◌, ◌-◌, ◌^◌, min, map, IfOk};
ghost use Rattle.scw_gen.specs.Excess as spec;
ghost use Rattle.scw_gen.specs.Method.{method_of_rust};

use crate::fault::LargeKind;
use crate::instr::bytes_of;
use crate::method::Method;
use scw_classfile::PoolEntry;
use scw_text::{Units, write_modified};
use std::alloc::{AllocError, Global};

/// The most bytes of a method's code, of a text, or of local variables, words of the stack and methods: each is counted in 16
/// bits.
pub const MAX_SHORT: u64 = 65_535;

/// The most entries of a pool: its count is one more.
pub const MAX_POOL: u64 = 65_534;

/// The most slots of parameters (JVMS 4.3.3).
pub const MAX_ARGUMENTS: u64 = 255;

/// What doesn't fit, and how many there are.
#[derive(Clone, Copy, Debug, PartialEq, Eq)]
pub struct Excess {
    pub kind: LargeKind,
    pub number: u64,
}

fn above(kind: LargeKind, limit: u64, number: u64) -> Option<Excess>
    ensures { result ≡ spec.above kind limit number }
{
    if number <= limit {
        None
    } else {
        Some(Excess { kind, number })
    }
}

/// The first code that is too long.
fn code_excess(methods: &[Method]) -> Option<Excess>
    ensures { result ≡ spec.code_excess (map method_of_rust methods.now) }
{
    for m in methods {
        match above(LargeKind::Code, MAX_SHORT, bytes_of(&m.instrs)) {
            None => {}
            Some(excess) => return Some(excess),
        }
    }
    None
}

fn slots_of_method(m: &Method) -> Option<Excess>
    ensures { result ≡ spec.slots_of_method (method_of_rust m.now) }
{
    match above(LargeKind::Slots, MAX_ARGUMENTS, m.arguments) {
        Some(excess) => Some(excess),
        None => match above(LargeKind::Slots, MAX_SHORT, m.locals) {
            Some(excess) => Some(excess),
            None => above(LargeKind::Slots, MAX_SHORT, m.stack),
        },
    }
}

/// The first method with too many slots.
fn slots_excess(methods: &[Method]) -> Option<Excess>
    ensures { result ≡ spec.slots_excess (map method_of_rust methods.now) }
{
    for m in methods {
        match slots_of_method(m) {
            None => {}
            Some(excess) => return Some(excess),
        }
    }
    None
}

fn text_excess_of(alloc: Global, text: &Units) -> Result<Option<Excess>, AllocError>
    ensures { IfOk result (λ e. e ≡ spec.text_excess_of text.now) }
{
    let mut bytes = Vec::new(alloc);
    write_modified(text.as_slice(), &mut bytes)?;
    Ok(above(LargeKind::Descriptor, MAX_SHORT, bytes.len() as u64))
}

fn entry_excess(alloc: Global, entry: &PoolEntry) -> Result<Option<Excess>, AllocError>
    ensures { IfOk result (λ e. e ≡ spec.entry_excess entry.now) }
{
    match entry {
        PoolEntry::Utf8(text) => text_excess_of(alloc, text),
        PoolEntry::Integer(_) | PoolEntry::Float(_) | PoolEntry::Long(_) => Ok(None),
        PoolEntry::Double(_) | PoolEntry::Second => Ok(None),
        PoolEntry::Class(_) | PoolEntry::Str(_) | PoolEntry::MethodType(_) => Ok(None),
        PoolEntry::Fieldref(..) | PoolEntry::Methodref(..) => Ok(None),
        PoolEntry::InterfaceMethodref(..) | PoolEntry::NameAndType(..) => Ok(None),
        PoolEntry::InvokeDynamic(..) | PoolEntry::MethodHandle(..) => Ok(None),
    }
}

/// The first text that is too long.
fn text_excess(alloc: Global, pool: &[PoolEntry]) -> Result<Option<Excess>, AllocError>
    ensures { IfOk result (λ e. e ≡ spec.text_excess pool.now) }
{
    for entry in pool {
        match entry_excess(alloc, entry)? {
            None => {}
            Some(excess) => return Ok(Some(excess)),
        }
    }
    Ok(None)
}

/// What of the methods and the pool doesn't fit, but for texts.
fn number_excess(pool: &[PoolEntry], methods: &[Method]) -> Option<Excess>
    ensures { result ≡ spec.number_excess pool.now (map method_of_rust methods.now) }
{
    if let Some(excess) = code_excess(methods) {
        return Some(excess);
    }
    if let Some(excess) = above(LargeKind::Pool, MAX_POOL, pool.len() as u64) {
        return Some(excess);
    }
    if let Some(excess) = above(LargeKind::Methods, MAX_SHORT, methods.len() as u64) {
        return Some(excess);
    }
    slots_excess(methods)
}

/// What of the methods and the pool doesn't fit: the first in the order of `LargeKind`.
pub(crate) fn excess_of(
    alloc: Global,
    pool: &[PoolEntry],
    methods: &[Method],
) -> Result<Option<Excess>, AllocError>
    ensures { IfOk result (λ e. e ≡ spec.excess_of pool.now (map method_of_rust methods.now)) }
{
    match number_excess(pool, methods) {
        Some(excess) => Ok(Some(excess)),
        None => text_excess(alloc, pool),
    }
}

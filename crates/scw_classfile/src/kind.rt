//! What is asked of the entries of a pool: JVMS 4.4.

ghost use Rattle.std.specs.Prelude.{◌≡◌, IfOk};
ghost use Rattle.scw_classfile.specs.Kinds.{kind_of, kinds_of};

use crate::descriptor::text_kind;
use crate::pool_entry::{EntryKind, PoolEntry};
use std::alloc::{AllocError, Global};

impl PoolEntry {
    /// What is asked of the entry where an index of it stands.
    pub fn kind(&self) -> EntryKind
        ensures { result ≡ kind_of self.now }
    {
        match self {
            PoolEntry::Utf8(units) => EntryKind::Utf8(text_kind(units.as_slice())),
            PoolEntry::Integer(_) => EntryKind::Integer,
            PoolEntry::Float(_) => EntryKind::Float,
            PoolEntry::Long(_) => EntryKind::Long,
            PoolEntry::Double(_) => EntryKind::Double,
            PoolEntry::Class(name) => EntryKind::Class(*name),
            PoolEntry::Str(_) => EntryKind::Str,
            PoolEntry::MethodType(_) => EntryKind::MethodType,
            PoolEntry::Fieldref(_, _) => EntryKind::Fieldref,
            PoolEntry::Methodref(_, _) => EntryKind::Methodref,
            PoolEntry::InterfaceMethodref(_, _) => EntryKind::InterfaceMethodref,
            PoolEntry::NameAndType(_, descriptor) => EntryKind::NameAndType(*descriptor),
            PoolEntry::InvokeDynamic(_, _) => EntryKind::InvokeDynamic,
            PoolEntry::MethodHandle(_, _) => EntryKind::MethodHandle,
            PoolEntry::Second => EntryKind::Second,
        }
    }
}

/// What is asked of each entry of the pool, in order.
///
/// # Errors
///
/// `AllocError` where memory runs out.
pub fn kinds_of(alloc: Global, pool: &[PoolEntry]) -> Result<Vec<EntryKind>, AllocError>
    ensures { IfOk result (λ v. v.items ≡ kinds_of pool.now) }
{
    pool.iter().map(PoolEntry::kind).collect(alloc)
}

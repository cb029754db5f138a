//! What the code of a class depends on beside its trees.

ghost use Rattle.std.specs.Prelude.{◌≡◌};
ghost use Rattle.scw_gen.specs.Around as spec;

use crate::kind::{Kind, kind_at};
use scw_classfile::PoolEntry;
use scw_core::{CoreClass, Table};
use scw_text::TypeId;
use std::alloc::Global;

/// What the code of a class depends on beside its trees.
#[derive(Drop)]
pub(crate) struct Around<'a> {
    /// What gives memory.
    pub alloc: Global,
    pub table: &'a Table,
    pub class: &'a CoreClass,
    pub pool: &'a [PoolEntry],
    /// Jumps have ways of 32 bits.
    pub is_far: bool,
}

impl Around<'_> {
    /// What a value of the type is.
    pub fn kind_at(&self, t: TypeId) -> Option<Kind>
        ensures { result ≡ spec.kind_in (spec.around_of self.now) t }
    {
        kind_at(self.table, self.class.symbol, t)
    }
}

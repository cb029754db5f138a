//! Instructions with a constant or a field (JVMS 5.4.3.2 and 6.5).

ghost use Rattle.std.specs.Prelude.{◌≡◌, ◌+◌, IfOk, map};
ghost use Rattle.std.specs.Option.{option_copied, option_map};
ghost use Rattle.scw_link.specs.NamedView.{named_view};
ghost use Rattle.scw_link.specs.Classes.{class_number};
ghost use Rattle.scw_link.specs.Resolve as r;
ghost use Rattle.scw_link.specs.SiteView.{site_view};

use crate::classes::{class_number, superclasses};
use crate::descriptor::field_kind;
use crate::meaning::{ByConstant, ByField};
use crate::members::{Place, place_in, static_in};
use crate::names::{Named, entry_at, field_at};
use crate::number::{narrow, sum};
use crate::site::Site;
use scw_classfile::PoolEntry;
use scw_frame::{ClassNumber, Operation, StaticNumber, TextNumber, Value, ValueKind};
use scw_text::{NoMemory, Units};
use sqlite_items::Items;
use std::alloc::Global;

/// The index that a number of an instruction is.
pub fn pool_index(n: i32) -> usize
    ensures { result ≡ r.pool_index n }
{
    if n < 0 { 0 } else { n as usize }
}

/// The number of the type or the text of an index of the file's pool.
pub fn number_of(site: Site<'_>, n: usize) -> Result<u32, NoMemory>
    ensures { IfOk result (λ k. k ≡ r.number_of (site_view site.entry) n) }
{
    narrow(sum(site.before, n)?)
}

fn one_constant(number: u32, entry: Option<&PoolEntry>) -> Operation
    ensures { result ≡ r.one_constant number (option_copied entry.entry) }
{
    match entry {
        Some(PoolEntry::Integer(bits)) => Operation::Push(Value::Int(*bits)),
        Some(PoolEntry::Str(_)) => Operation::PushText(TextNumber(number)),
        _ => Operation::Undefined,
    }
}

fn long_constant(entry: Option<&PoolEntry>) -> Operation
    ensures { result ≡ r.long_constant (option_copied entry.entry) }
{
    match entry {
        Some(PoolEntry::Long(bits)) => Operation::Push(Value::Long(*bits)),
        _ => Operation::Undefined,
    }
}

/// An instruction with a constant.
pub fn by_constant(kind: ByConstant, site: Site<'_>, n: usize) -> Result<Operation, NoMemory>
    ensures { IfOk result (λ o. o ≡ r.by_constant kind (site_view site.entry) n) }
{
    match kind {
        ByConstant::One => Ok(one_constant(number_of(site, n)?, entry_at(site.pool, n))),
        ByConstant::Long => Ok(long_constant(entry_at(site.pool, n))),
    }
}

/// The line of a class of a name.
pub fn line_of(
    alloc: Global,
    site: Site<'_>,
    name: &Units,
) -> Result<Option<Items<usize>>, NoMemory>
    ensures { IfOk result (λ x. x ≡ r.line_of (site_view site.entry) name.now) }
{
    match class_number(site.files, name.as_slice())? {
        Some(class) => Ok(Some(superclasses(alloc, site.parents, class)?)),
        None => Ok(None),
    }
}

fn static_field(alloc: Global, site: Site<'_>, n: Named<'_>) -> Result<Option<usize>, NoMemory>
    ensures { IfOk result (λ x. x ≡ r.static_field (site_view site.entry) (named_view n.entry)) }
{
    match line_of(alloc, site, n.class)? {
        Some(line) => static_in(
            site.files,
            n.name.as_slice(),
            n.descriptor.as_slice(),
            line.as_slice(),
        ),
        None => Ok(None),
    }
}

fn instance_field(alloc: Global, site: Site<'_>, n: Named<'_>) -> Result<Option<Place>, NoMemory>
    ensures { IfOk result (λ x. x ≡ r.instance_field (site_view site.entry) (named_view n.entry)) }
{
    match line_of(alloc, site, n.class)? {
        Some(line) => place_in(
            site.files,
            n.name.as_slice(),
            n.descriptor.as_slice(),
            line.as_slice(),
        ),
        None => Ok(None),
    }
}

fn static_operation(
    alloc: Global,
    site: Site<'_>,
    n: Named<'_>,
) -> Result<Option<StaticNumber>, NoMemory>
    ensures { IfOk result (λ x. x ≡ option_map (λ k. record { 0 = k }) (r.static_field (site_view site.entry) (named_view n.entry))) }
{
    match static_field(alloc, site, n)? {
        Some(number) => Ok(Some(StaticNumber(narrow(number)?))),
        None => Ok(None),
    }
}

fn get_place(kind: ValueKind, place: Place) -> Result<Operation, NoMemory>
    ensures { IfOk result (λ o. o ≡ r.get_place kind place) }
{
    Ok(Operation::GetField {
        class: ClassNumber(narrow(place.class)?),
        field: narrow(place.field)?,
        kind,
    })
}

fn put_place(kind: ValueKind, place: Place) -> Result<Operation, NoMemory>
    ensures { IfOk result (λ o. o ≡ r.put_place kind place) }
{
    Ok(Operation::PutField {
        class: ClassNumber(narrow(place.class)?),
        field: narrow(place.field)?,
        kind,
    })
}

fn field_operation(
    alloc: Global,
    kind: ByField,
    site: Site<'_>,
    n: Named<'_>,
    value: ValueKind,
) -> Result<Operation, NoMemory>
    ensures { IfOk result (λ o. o ≡ r.field_operation kind (site_view site.entry) (named_view n.entry) value) }
{
    match kind {
        ByField::GetStatic => match static_operation(alloc, site, n)? {
            Some(number) => Ok(Operation::GetStatic(number)),
            None => Ok(Operation::Undefined),
        },
        ByField::PutStatic => match static_operation(alloc, site, n)? {
            Some(number) => Ok(Operation::PutStatic(number)),
            None => Ok(Operation::Undefined),
        },
        ByField::Get => match instance_field(alloc, site, n)? {
            Some(place) => get_place(value, place),
            None => Ok(Operation::Undefined),
        },
        ByField::Put => match instance_field(alloc, site, n)? {
            Some(place) => put_place(value, place),
            None => Ok(Operation::Undefined),
        },
    }
}

/// An instruction with a field.
pub fn by_field(
    alloc: Global,
    kind: ByField,
    site: Site<'_>,
    n: usize,
) -> Result<Operation, NoMemory>
    ensures { IfOk result (λ o. o ≡ r.by_field kind (site_view site.entry) n) }
{
    match field_at(site.pool, n) {
        Some(named) => match field_kind(named.descriptor.as_slice()) {
            Some(value) => field_operation(alloc, kind, site, named, value),
            None => Ok(Operation::Undefined),
        },
        None => Ok(Operation::Undefined),
    }
}

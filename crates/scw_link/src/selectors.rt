//! The names and descriptors that virtual calls select by (JVMS 6.5, `invokevirtual` and `invokeinterface`).

ghost use Rattle.std.specs.Prelude.{◌≡◌, IfOk, OnOk, map, fold};
ghost use Rattle.std.specs.List.{flat_map};
ghost use Rattle.scw_link.specs.NamedView.{named_view};
ghost use Rattle.scw_link.specs.Selectors as d;
ghost use Rattle.scw_link.specs.SiteView.{selector_view};

use crate::calls::selector_number;
use crate::descriptor::argument_kinds;
use crate::names::{Named, method_in};
use crate::site::Selector;
use scw_classfile::{ClassFile, PoolEntry};
use scw_frame::ValueKind;
use scw_text::NoMemory;
use sqlite_items::Items;
use std::alloc::{AllocError, Global};

fn add_selector<'f>(named: Named<'f>, selectors: &mut Vec<Selector<'f>>) -> Result<(), NoMemory>
    ensures { OnOk result (map selector_view selectors.new.items ≡ d.with_selector (map selector_view selectors.old.items) (d.selector_of (named_view named.entry))) }
{
    let name = named.name;
    let descriptor = named.descriptor;
    if selector_number(selectors.as_slice(), name.as_slice(), descriptor.as_slice()).is_some() {
        return Ok(());
    }
    match selectors.push(Selector { name, descriptor }) {
        Ok(()) => Ok(()),
        Err(e) => Err(AllocError::from(e).into()),
    }
}

fn add_called<'f>(pool: &'f [PoolEntry], selectors: &mut Vec<Selector<'f>>) -> Result<(), NoMemory>
    ensures { OnOk result (map selector_view selectors.new.items ≡ fold d.with_selector (map selector_view selectors.old.items) (d.called_in pool.now)) }
{
    for entry in pool {
        if let Some(named) = method_in(pool, Some(entry)) {
            add_selector(named, selectors)?;
        }
    }
    Ok(())
}

fn add_selectors<'f>(
    files: &'f [ClassFile],
    selectors: &mut Vec<Selector<'f>>,
) -> Result<(), NoMemory>
    ensures { OnOk result (map selector_view selectors.new.items ≡ fold d.with_selector (map selector_view selectors.old.items) (flat_map (λ c. d.called_in c.pool) files.now)) }
{
    for file in files {
        add_called(file.pool.as_slice(), selectors)?;
    }
    Ok(())
}

/// A first selector, and those of the files.
pub fn selectors_of<'f>(
    alloc: Global,
    files: &'f [ClassFile],
    first: Selector<'f>,
) -> Result<Vec<Selector<'f>>, NoMemory>
    ensures { IfOk result (λ x. map selector_view x.items ≡ d.selectors_from (selector_view first.entry) files.now) }
{
    let mut selectors = Vec::new(alloc);
    match selectors.push(first) {
        Ok(()) => {}
        Err(e) => return Err(AllocError::from(e).into()),
    }
    add_selectors(files, &mut selectors)?;
    Ok(selectors)
}

/// The kinds of the arguments of each selector.
pub fn selector_kinds(
    alloc: Global,
    selectors: &[Selector<'_>],
) -> Result<Items<Items<ValueKind>>, NoMemory>
    ensures { IfOk result (λ x. x ≡ d.selector_kinds (map selector_view selectors.now)) }
{
    let mut kinds = Items::new(alloc);
    for selector in selectors {
        kinds.push(argument_kinds(alloc, selector.descriptor.as_slice())?)?;
    }
    Ok(kinds)
}

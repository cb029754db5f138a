//! Which classes extend or implement which (JVMS 4.10.1.2, and 6.5, `instanceof`).

ghost use Rattle.std.specs.Prelude.{◌≡◌, ◌++◌, IfOk, IsTrue, OnOk, map, filter_map, length, false, slice_index_or, [], ◌||◌, ◌==◌};
ghost use Rattle.std.specs.List.{list_any, range_with_len};
ghost use Rattle.std.specs.Option.{option_to_list};
ghost use Rattle.scw_link.specs.Ancestors as d;
ghost use Rattle.scw_link.specs.Classes.{named_class};
ghost use Rattle.scw_link.specs.AncestorRows as t;

use crate::built_in_class::CLASSES;
use crate::classes::named_class;
use scw_classfile::ClassFile;
use scw_text::NoMemory;
use sqlite_items::Items;
use std::alloc::{AllocError, Global};

fn push_found(found: Option<usize>, supers: &mut Items<usize>) -> Result<(), AllocError>
    ensures { OnOk result (supers.new ≡ supers.old ++ option_to_list found) }
{
    match found {
        Some(class) => supers.push(class),
        None => Ok(()),
    }
}

fn push_interfaces(
    files: &[ClassFile],
    file: &ClassFile,
    supers: &mut Items<usize>,
) -> Result<(), NoMemory>
    ensures { OnOk result (supers.new ≡ supers.old ++ filter_map (named_class files.now file.now) file.now.interfaces) }
{
    for interface in file.interfaces.as_slice() {
        push_found(named_class(files, file, *interface)?, supers)?;
    }
    Ok(())
}

fn supers_in(alloc: Global, files: &[ClassFile], file: &ClassFile) -> Result<Items<usize>, NoMemory>
    ensures { IfOk result (λ x. x ≡ d.supers_in files.now file.now) }
{
    let mut supers = Items::new(alloc);
    push_found(named_class(files, file, file.parent)?, &mut supers)?;
    push_interfaces(files, file, &mut supers)?;
    Ok(supers)
}

fn built_in_supers(alloc: Global, parent: Option<usize>) -> Result<Items<usize>, AllocError>
    ensures { IfOk result (λ x. x ≡ option_to_list parent) }
{
    let mut supers = Items::new(alloc);
    push_found(parent, &mut supers)?;
    Ok(supers)
}

/// The direct superclass and the direct superinterfaces of each class.
#[tactic(auto, unfolding(crate::specs::Ancestors::supers_of))]
pub fn supers_of(alloc: Global, files: &[ClassFile]) -> Result<Items<Items<usize>>, NoMemory>
    ensures { IfOk result (λ x. x ≡ d.supers_of files.now) }
{
    let mut supers = Items::new(alloc);
    for class in &CLASSES {
        supers.push(built_in_supers(alloc, class.parent)?)?;
    }
    for file in files {
        supers.push(supers_in(alloc, files, file)?)?;
    }
    Ok(supers)
}

fn row_at(rows: &[Items<bool>], c: usize) -> &[bool]
    ensures { result.now ≡ slice_index_or rows.now c [] }
{
    match rows.get(c) {
        Some(row) => row.as_slice(),
        None => &[],
    }
}

fn bit(rows: &[Items<bool>], c: usize, d: usize) -> bool
    ensures { result ≡ t.bit rows.now c d }
{
    let row = row_at(rows, c);
    if d < row.len() { row[d] } else { false }
}

fn any_bit(rows: &[Items<bool>], supers: &[usize], d: usize) -> bool
    ensures { result ≡ list_any (λ s. t.bit rows.now s d) supers.now }
{
    for class in supers {
        if bit(rows, *class, d) {
            return true;
        }
    }
    false
}

fn next_bit(rows: &[Items<bool>], supers: &[usize], c: usize, d: usize) -> bool
    ensures { result ≡ t.next_bit rows.now supers.now c d }
{
    c == d || any_bit(rows, supers, d)
}

fn next_row(
    alloc: Global,
    rows: &[Items<bool>],
    supers: &[usize],
    c: usize,
    size: usize,
) -> Result<Items<bool>, AllocError>
    ensures { IfOk result (λ x. x ≡ map (t.next_bit rows.now supers.now c) (range_with_len 0 size)) }
{
    let mut row = Items::new(alloc);
    for d in 0..size {
        row.push(next_bit(rows, supers, c, d))?;
    }
    Ok(row)
}

fn supers_at(supers: &[Items<usize>], c: usize) -> &[usize]
    ensures { result.now ≡ slice_index_or supers.now c [] }
{
    match supers.get(c) {
        Some(classes) => classes.as_slice(),
        None => &[],
    }
}

fn next_rows(
    alloc: Global,
    supers: &[Items<usize>],
    rows: &[Items<bool>],
) -> Result<Items<Items<bool>>, AllocError>
    ensures { IfOk result (λ x. x ≡ t.next_rows supers.now rows.now) }
{
    let mut next = Items::new(alloc);
    for c in 0..supers.len() {
        next.push(next_row(alloc, rows, supers_at(supers, c), c, supers.len())?)?;
    }
    Ok(next)
}

fn first_row(alloc: Global, c: usize, size: usize) -> Result<Items<bool>, AllocError>
    ensures { IfOk result (λ x. x ≡ map (λ d. c == d) (range_with_len 0 size)) }
{
    let mut row = Items::new(alloc);
    for d in 0..size {
        row.push(c == d)?;
    }
    Ok(row)
}

fn first_rows(alloc: Global, supers: &[Items<usize>]) -> Result<Items<Items<bool>>, AllocError>
    ensures { IfOk result (λ x. x ≡ d.all_reached supers.now 0) }
{
    let mut rows = Items::new(alloc);
    for c in 0..supers.len() {
        rows.push(first_row(alloc, c, supers.len())?)?;
    }
    Ok(rows)
}

fn same_row(a: &[bool], b: &[bool]) -> bool
    ensures { IsTrue result → a.now ≡ b.now }
{
    if a.len() != b.len() {
        return false;
    }
    for i in 0..a.len() {
        if a[i] != b[i] {
            return false;
        }
    }
    true
}

fn same_rows(a: &[Items<bool>], b: &[Items<bool>]) -> bool
    ensures { IsTrue result → a.now ≡ b.now }
{
    if a.len() != b.len() {
        return false;
    }
    for i in 0..a.len() {
        if !same_row(a[i].as_slice(), b[i].as_slice()) {
            return false;
        }
    }
    true
}

/// For each class all classes that it is, extends or implements.
pub fn ancestors_of(alloc: Global, supers: &[Items<usize>]) -> Result<Items<Items<bool>>, NoMemory>
    ensures { IfOk result (λ x. x ≡ d.ancestors_of supers.now) }
{
    let mut rows = first_rows(alloc, supers)?;
    for _ in 0..supers.len() {
        let next = next_rows(alloc, supers, rows.as_slice())?;
        // From here on no round adds anything.
        if same_rows(rows.as_slice(), next.as_slice()) {
            return Ok(rows);
        }
        rows = next;
    }
    Ok(rows)
}

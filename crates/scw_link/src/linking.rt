//! A program of class files with its names resolved (JVMS 5.3 and 5.4).

ghost use Rattle.std.specs.Prelude.{◌≡◌, ◌∷◌, ◌++◌, [], IfOk, map, unwrap_or, slice_index_or};
ghost use Rattle.scw_link.specs.Names.{at, class_name};
ghost use Rattle.scw_link.specs.Linked as d;
ghost use Rattle.scw_link.specs.SiteView.{selector_view};

use crate::ancestors::{ancestors_of, supers_of};
use crate::built_in_class::built_in_name;
use crate::classes::{fields_of, file_of, parents, superclasses};
use crate::launch::{getter_target, launcher};
use crate::members::target_in;
use crate::methods::{push_file_methods, statics_of, switches_of};
use crate::names::class_name_at;
use crate::number::narrow;
use crate::pools::{texts_of, types_of};
use crate::selectors::{selector_kinds, selectors_of};
use crate::site::Selector;
use crate::units::units_of;
use scw_classfile::ClassFile;
use scw_frame::{Class, Method, Program, Target};
use scw_text::{NoMemory, Units};
use sqlite_items::Items;
use std::alloc::{AllocError, Global};

fn file_name(alloc: Global, file: &ClassFile) -> Result<Units, AllocError>
    ensures { IfOk result (λ x. x ≡ unwrap_or (class_name file.now.pool (at file.now.pool file.now.this)) []) }
{
    match class_name_at(file.pool.as_slice(), usize::from(file.this)) {
        Some(name) => Items::from_slice(alloc, name.as_slice()),
        None => Ok(Items::new(alloc)),
    }
}

fn name_of(alloc: Global, files: &[ClassFile], class: usize) -> Result<Units, AllocError>
    ensures { IfOk result (λ x. x ≡ d.name_of files.now class) }
{
    match file_of(files, class) {
        Some(file) => file_name(alloc, file),
        None => units_of(alloc, built_in_name(class)),
    }
}

fn selected(
    files: &[ClassFile],
    line: &[usize],
    selector: &Selector<'_>,
) -> Result<Option<Target>, NoMemory>
    ensures { IfOk result (λ t. t ≡ d.selected files.now line.now (selector_view selector.now)) }
{
    target_in(
        files,
        false,
        selector.name.as_slice(),
        selector.descriptor.as_slice(),
        line,
    )
}

fn targets_of(
    alloc: Global,
    files: &[ClassFile],
    selectors: &[Selector<'_>],
    line: &[usize],
) -> Result<Items<Option<Target>>, NoMemory>
    ensures { IfOk result (λ x. x ≡ map (d.selected files.now line.now) (map selector_view selectors.now)) }
{
    let mut targets = Items::new(alloc);
    for selector in selectors {
        targets.push(selected(files, line, selector)?)?;
    }
    Ok(targets)
}

fn class_with(
    alloc: Global,
    files: &[ClassFile],
    selectors: &[Selector<'_>],
    class: usize,
    row: &[bool],
    line: &[usize],
) -> Result<Class, NoMemory>
    ensures { IfOk result (λ x. x ≡ d.class_with files.now (map selector_view selectors.now) class row.now line.now) }
{
    Ok(Class {
        name: name_of(alloc, files, class)?,
        fields: narrow(fields_of(files, line)?)?,
        ancestors: Items::from_slice(alloc, row)?,
        targets: targets_of(alloc, files, selectors, line)?,
    })
}

fn row_of(rows: &[Items<bool>], class: usize) -> &[bool]
    ensures { result.now ≡ slice_index_or rows.now class [] }
{
    match rows.get(class) {
        Some(row) => row.as_slice(),
        None => &[],
    }
}

fn class_at(
    alloc: Global,
    files: &[ClassFile],
    parents: &[Option<usize>],
    selectors: &[Selector<'_>],
    rows: &[Items<bool>],
    class: usize,
) -> Result<Class, NoMemory>
    ensures { IfOk result (λ x. x ≡ d.class_at files.now parents.now (map selector_view selectors.now) rows.now class) }
{
    let line = superclasses(alloc, parents, class)?;
    class_with(
        alloc,
        files,
        selectors,
        class,
        row_of(rows, class),
        line.as_slice(),
    )
}

fn classes_of(
    alloc: Global,
    files: &[ClassFile],
    parents: &[Option<usize>],
    selectors: &[Selector<'_>],
    rows: &[Items<bool>],
) -> Result<Items<Class>, NoMemory>
    ensures { IfOk result (λ x. x ≡ d.classes_of files.now parents.now (map selector_view selectors.now) rows.now) }
{
    let mut classes = Items::new(alloc);
    for class in 0..parents.len() {
        classes.push(class_at(alloc, files, parents, selectors, rows, class)?)?;
    }
    Ok(classes)
}

fn methods_of(
    alloc: Global,
    files: &[ClassFile],
    parents: &[Option<usize>],
    selectors: &[Selector<'_>],
    main: &Units,
) -> Result<Items<Method>, NoMemory>
    ensures { IfOk result (λ x. x ≡ d.methods_of files.now parents.now (map selector_view selectors.now) main.now) }
{
    let target = getter_target(alloc, files, parents, selectors, main)?;
    let mut others = Items::new(alloc);
    push_file_methods(alloc, files, parents, selectors, &mut others)?;
    let mut methods = Items::new(alloc);
    methods.push(launcher(alloc, others.as_slice(), target)?)?;
    methods.append(others)?;
    Ok(methods)
}

fn program_with(
    alloc: Global,
    files: &[ClassFile],
    parents: &[Option<usize>],
    selectors: &[Selector<'_>],
    main: &Units,
) -> Result<Program, NoMemory>
    ensures { IfOk result (λ p. p ≡ d.program_with files.now parents.now (map selector_view selectors.now) main.now) }
{
    let supers = supers_of(alloc, files)?;
    let rows = ancestors_of(alloc, supers.as_slice())?;
    Ok(Program {
        classes: classes_of(alloc, files, parents, selectors, rows.as_slice())?,
        methods: methods_of(alloc, files, parents, selectors, main)?,
        selectors: selector_kinds(alloc, selectors)?,
        types: types_of(alloc, files)?,
        texts: texts_of(alloc, files)?,
        switches: switches_of(alloc, files)?,
        statics: statics_of(alloc, files)?,
    })
}

/// The program of the files, which runs the object of this name.
///
/// # Errors
///
/// `NoMemory` where memory runs out, or where there are more classes, methods or the like than 32 bits number.
pub fn link(alloc: Global, files: &[ClassFile], main: &Units) -> Result<Program, NoMemory>
    ensures { IfOk result (λ p. p ≡ d.linked files.now main.now) }
{
    let parents = parents(alloc, files)?;
    let name = units_of(alloc, b"main")?;
    let descriptor = units_of(alloc, b"([Ljava/lang/String;)V")?;
    let first = Selector {
        name: &name,
        descriptor: &descriptor,
    };
    let selectors = selectors_of(alloc, files, first)?;
    program_with(alloc, files, parents.as_slice(), selectors.as_slice(), main)
}

//! The methods of the files, their switches and the static fields (JVMS 4.5, 4.6 and 4.7.3).

ghost use Rattle.std.specs.Prelude.{◌≡◌, ◌+◌, ◌++◌, IfOk, OnOk, map, length};
ghost use Rattle.std.specs.List.{flat_map};
ghost use Rattle.std.specs.Option.{option_copied};
ghost use Rattle.scw_link.specs.Methods as d;
ghost use Rattle.scw_link.specs.SiteView.{selector_view, site_view};

use crate::classes::is_static;
use crate::code::{guards_of, instructions_of, push_switches, switch_count};
use crate::descriptor::{kind_of, push_parameter_kinds};
use crate::members::code_of;
use crate::names::utf8_at;
use crate::number::{narrow, sum};
use crate::site::{Selector, Site};
use crate::sizes::{before_methods, method_size, start_of};
use scw_classfile::{ClassFile, Code, MemberInfo, PoolEntry};
use scw_code::Instr;
use scw_frame::{Method, Origin, Switch, ValueKind};
use scw_text::NoMemory;
use sqlite_items::Items;
use std::alloc::Global;

fn descriptor_of<'p>(pool: &'p [PoolEntry], member: &MemberInfo) -> &'p [u16]
    ensures { result.now ≡ d.descriptor_of pool.now member.now }
{
    match utf8_at(pool, member.descriptor) {
        Some(units) => units.as_slice(),
        None => &[],
    }
}

fn arguments_of(
    alloc: Global,
    pool: &[PoolEntry],
    method: &MemberInfo,
) -> Result<Items<ValueKind>, NoMemory>
    ensures { IfOk result (λ x. x ≡ d.arguments_of pool.now method.now) }
{
    let mut kinds = Items::new(alloc);
    if !is_static(method) {
        kinds.push(ValueKind::Reference)?;
    }
    push_parameter_kinds(descriptor_of(pool, method), &mut kinds)?;
    Ok(kinds)
}

fn with_code(
    alloc: Global,
    site: Site<'_>,
    origin: Origin,
    arguments: Items<ValueKind>,
    number: usize,
    code: Option<&Code>,
) -> Result<Method, NoMemory>
    ensures { IfOk result (λ m. m ≡ d.with_code (site_view site.entry) origin arguments number (option_copied code.entry)) }
{
    match code {
        None => Ok(Method {
            origin,
            arguments,
            stack: 0,
            locals: 0,
            code: Items::new(alloc),
            guards: Items::new(alloc),
        }),
        Some(code) => Ok(Method {
            origin,
            arguments,
            stack: code.stack,
            locals: code.locals,
            code: instructions_of(alloc, site, number, code.code.as_slice())?,
            guards: guards_of(alloc, site, code.handlers.as_slice())?,
        }),
    }
}

fn method_of(
    alloc: Global,
    site: Site<'_>,
    origin: (usize, usize),
    place: usize,
    number: usize,
    method: &MemberInfo,
) -> Result<Method, NoMemory>
    ensures { IfOk result (λ m. m ≡ d.method_of (site_view site.entry) origin.0 origin.1 place number method.now) }
{
    let origin = Origin {
        file: narrow(origin.0)?,
        method: narrow(origin.1)?,
        start: narrow(start_of(place, method)?)?,
    };
    let arguments = arguments_of(alloc, site.pool, method)?;
    with_code(alloc, site, origin, arguments, number, code_of(method))
}

fn instrs_of(method: &MemberInfo) -> &[Instr]
    ensures { result.now ≡ d.instrs_of method.now }
{
    match code_of(method) {
        Some(code) => code.code.as_slice(),
        None => &[],
    }
}

fn push_methods(
    alloc: Global,
    site: Site<'_>,
    file: usize,
    start: usize,
    first: usize,
    members: &[MemberInfo],
    methods: &mut Items<Method>,
) -> Result<(), NoMemory>
    ensures { OnOk result (methods.new ≡ methods.old ++ d.methods_from (site_view site.entry) file 0 start first members.now) }
{
    let mut method = 0;
    let mut place = start;
    let mut number = first;
    for member in members {
        methods.push(method_of(alloc, site, (file, method), place, number, member)?)?;
        method = sum(method, 1)?;
        place = sum(place, method_size(member)?)?;
        number = sum(number, switch_count(instrs_of(member))?)?;
    }
    Ok(())
}

fn file_switches(file: &ClassFile) -> Result<usize, NoMemory>
    ensures { IfOk result (λ n. n ≡ d.file_switches file.now) }
{
    let mut count = 0;
    for method in file.methods.as_slice() {
        count = sum(count, switch_count(instrs_of(method))?)?;
    }
    Ok(count)
}

/// Adds the methods of the files.
pub fn push_file_methods(
    alloc: Global,
    files: &[ClassFile],
    parents: &[Option<usize>],
    selectors: &[Selector<'_>],
    methods: &mut Items<Method>,
) -> Result<(), NoMemory>
    ensures { OnOk result (methods.new ≡ methods.old ++ d.file_methods files.now parents.now (map selector_view selectors.now) 0 0 0 files.now) }
{
    let mut place = 0;
    let mut before = 0;
    let mut number = 0;
    for file in files {
        let site = Site {
            files,
            parents,
            selectors,
            pool: file.pool.as_slice(),
            before,
        };
        let start = before_methods(alloc, file)?;
        push_methods(
            alloc,
            site,
            place,
            start,
            number,
            file.methods.as_slice(),
            methods,
        )?;
        place = sum(place, 1)?;
        before = sum(before, file.pool.len())?;
        number = sum(number, file_switches(file)?)?;
    }
    Ok(())
}

fn push_file_switches(
    alloc: Global,
    methods: &[MemberInfo],
    switches: &mut Items<Switch>,
) -> Result<(), NoMemory>
    ensures { OnOk result (switches.new ≡ switches.old ++ flat_map d.method_switches methods.now) }
{
    for method in methods {
        push_switches(alloc, instrs_of(method), switches)?;
    }
    Ok(())
}

/// The switches of the files.
pub fn switches_of(alloc: Global, files: &[ClassFile]) -> Result<Items<Switch>, NoMemory>
    ensures { IfOk result (λ x. x ≡ d.switches_of files.now) }
{
    let mut switches = Items::new(alloc);
    for file in files {
        push_file_switches(alloc, file.methods.as_slice(), &mut switches)?;
    }
    Ok(switches)
}

fn push_statics(
    pool: &[PoolEntry],
    fields: &[MemberInfo],
    statics: &mut Items<ValueKind>,
) -> Result<(), NoMemory>
    ensures { OnOk result (statics.new ≡ statics.old ++ d.statics_in pool.now fields.now) }
{
    for field in fields {
        if is_static(field) {
            statics.push(kind_of(descriptor_of(pool, field)))?;
        }
    }
    Ok(())
}

/// The kinds of the static fields.
pub fn statics_of(alloc: Global, files: &[ClassFile]) -> Result<Items<ValueKind>, NoMemory>
    ensures { IfOk result (λ x. x ≡ d.statics_of files.now) }
{
    let mut statics = Items::new(alloc);
    for file in files {
        push_statics(file.pool.as_slice(), file.fields.as_slice(), &mut statics)?;
    }
    Ok(statics)
}

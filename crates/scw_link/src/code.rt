//! The code of methods, byte by byte, with its switches and its handlers (JVMS 4.7.3 and 6.5).

ghost use Rattle.std.specs.Prelude.{◌≡◌, ◌+◌, ◌++◌, IfOk, OnOk, map, length, replicate};
ghost use Rattle.scw_link.specs.Names.{and_then, at, class_name};
ghost use Rattle.scw_link.specs.Classes.{class_number};
ghost use Rattle.scw_link.specs.Code as d;
ghost use Rattle.scw_link.specs.SiteView.{site_view};

use crate::calls::operation;
use crate::classes::class_number;
use crate::names::class_name_at;
use crate::number::{narrow, sum};
use crate::numbers::place_at;
use crate::site::Site;
use scw_classfile::Handler;
use scw_code::{Instr, InstrArgs};
use scw_frame::{Case, Catch, ClassNumber, Guard, Instruction, Operation, Switch};
use scw_text::NoMemory;
use sqlite_items::Items;
use std::alloc::{AllocError, Global};

const NO_INSTRUCTION: Instruction = Instruction {
    operation: Operation::Undefined,
    next: 0,
};

fn place_or_last(n: usize) -> u16
    ensures { result ≡ d.place_or_last n }
{
    if n < 65_535 { n as u16 } else { 65_535 }
}

fn push_none(count: usize, code: &mut Items<Instruction>) -> Result<(), AllocError>
    ensures { OnOk result (code.new ≡ code.old ++ replicate count d.no_instruction) }
{
    for _ in 0..count {
        code.push(NO_INSTRUCTION)?;
    }
    Ok(())
}

fn instruction(
    alloc: Global,
    site: Site<'_>,
    place: usize,
    number: usize,
    instr: &Instr,
) -> Result<Instruction, NoMemory>
    ensures { IfOk result (λ i. i ≡ d.instruction (site_view site.entry) place number instr.now) }
{
    Ok(Instruction {
        operation: operation(alloc, site, place, number, instr)?,
        next: place_or_last(sum(place, instr.size(place))?),
    })
}

fn push_bytes(
    alloc: Global,
    site: Site<'_>,
    number: usize,
    instr: &Instr,
    code: &mut Items<Instruction>,
) -> Result<(), NoMemory>
    ensures { OnOk result (code.new ≡ code.old ++ d.bytes_of (site_view site.entry) (length code.old) number instr.now) }
{
    let place = code.len();
    code.push(instruction(alloc, site, place, number, instr)?)?;
    push_none(instr.size(place).saturating_sub(1), code)?;
    Ok(())
}

fn switches_of(args: &InstrArgs) -> usize
    ensures { result ≡ d.switches_of args.now }
{
    match args {
        InstrArgs::Plain(_) | InstrArgs::Wide { op: _, args: _ } => 0,
        InstrArgs::Table(_) | InstrArgs::Lookup(_) => 1,
    }
}

/// How many switches there are.
pub fn switch_count(instrs: &[Instr]) -> Result<usize, NoMemory>
    ensures { IfOk result (λ n. n ≡ d.switch_count instrs.now) }
{
    let mut count = 0;
    for instr in instrs {
        count = sum(count, switches_of(&instr.args))?;
    }
    Ok(count)
}

/// What begins at each byte of the code, whose first switch has this number.
pub fn instructions_of(
    alloc: Global,
    site: Site<'_>,
    first: usize,
    instrs: &[Instr],
) -> Result<Items<Instruction>, NoMemory>
    ensures { IfOk result (λ code. code ≡ d.code_from (site_view site.entry) 0 first instrs.now) }
{
    let mut code = Items::new(alloc);
    let mut number = first;
    for instr in instrs {
        push_bytes(alloc, site, number, instr, &mut code)?;
        number = sum(number, switches_of(&instr.args))?;
    }
    Ok(code)
}

fn switch_target(place: usize, distance: i32) -> u16
    ensures { result ≡ d.switch_target place distance }
{
    match place_at(place, distance) {
        Some(target) => target,
        None => 65_535,
    }
}

fn targets_of(alloc: Global, place: usize, distances: &[i32]) -> Result<Items<u16>, AllocError>
    ensures { IfOk result (λ x. x ≡ map (d.switch_target place) distances.now) }
{
    let mut targets = Items::new(alloc);
    for distance in distances {
        targets.push(switch_target(place, *distance))?;
    }
    Ok(targets)
}

fn cases_of(alloc: Global, place: usize, pairs: &[(i32, i32)]) -> Result<Items<Case>, AllocError>
    ensures { IfOk result (λ x. x ≡ map (d.case_of place) pairs.now) }
{
    let mut cases = Items::new(alloc);
    for pair in pairs {
        cases.push(Case {
            key: pair.0.cast_unsigned(),
            target: switch_target(place, pair.1),
        })?;
    }
    Ok(cases)
}

fn push_switch(
    alloc: Global,
    place: usize,
    args: &InstrArgs,
    switches: &mut Items<Switch>,
) -> Result<(), NoMemory>
    ensures { OnOk result (switches.new ≡ switches.old ++ d.switch_at place args.now) }
{
    match args {
        InstrArgs::Plain(_) | InstrArgs::Wide { op: _, args: _ } => {}
        InstrArgs::Table(table) => {
            let table = table.get();
            switches.push(Switch::Table {
                default: switch_target(place, table.default),
                low: table.low.cast_unsigned(),
                targets: targets_of(alloc, place, table.jumps.as_slice())?,
            })?;
        }
        InstrArgs::Lookup(lookup) => {
            let lookup = lookup.get();
            switches.push(Switch::Lookup {
                default: switch_target(place, lookup.default),
                cases: cases_of(alloc, place, lookup.pairs.as_slice())?,
            })?;
        }
    }
    Ok(())
}

/// Adds the switches of instructions.
pub fn push_switches(
    alloc: Global,
    instrs: &[Instr],
    switches: &mut Items<Switch>,
) -> Result<(), NoMemory>
    ensures { OnOk result (switches.new ≡ switches.old ++ d.switches_from 0 instrs.now) }
{
    let mut place = 0;
    for instr in instrs {
        push_switch(alloc, place, &instr.args, switches)?;
        place = sum(place, instr.size(place))?;
    }
    Ok(())
}

fn catch_of(class: u16, found: Option<usize>) -> Result<Catch, NoMemory>
    ensures { IfOk result (λ c. c ≡ d.catch_of class found) }
{
    if class == 0 {
        return Ok(Catch::All);
    }
    match found {
        Some(number) => Ok(Catch::Class(ClassNumber(narrow(number)?))),
        None => Ok(Catch::Nothing),
    }
}

fn handler_class(site: Site<'_>, class: u16) -> Result<Option<usize>, NoMemory>
    ensures { IfOk result (λ n. n ≡ and_then (class_name site.entry.pool.now (at site.entry.pool.now class)) (class_number site.entry.files.now)) }
{
    match class_name_at(site.pool, usize::from(class)) {
        Some(name) => class_number(site.files, name.as_slice()),
        None => Ok(None),
    }
}

fn guard_of(site: Site<'_>, h: Handler) -> Result<Guard, NoMemory>
    ensures { IfOk result (λ g. g ≡ d.guard_of (site_view site.entry) h) }
{
    let found = handler_class(site, h.class)?;
    Ok(Guard {
        from: h.from,
        to: h.to,
        at: h.at,
        catch: catch_of(h.class, found)?,
    })
}

/// The handlers, in their order.
pub fn guards_of(
    alloc: Global,
    site: Site<'_>,
    handlers: &[Handler],
) -> Result<Items<Guard>, NoMemory>
    ensures { IfOk result (λ x. x ≡ map (d.guard_of (site_view site.entry)) handlers.now) }
{
    let mut guards = Items::new(alloc);
    for handler in handlers {
        guards.push(guard_of(site, *handler)?)?;
    }
    Ok(guards)
}

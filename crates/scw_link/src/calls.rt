//! Instructions with a method or a class, and instructions as a whole (JVMS 5.4.3.3 and 6.5).

ghost use Rattle.std.specs.Prelude.{◌≡◌, IfOk, map, position};
ghost use Rattle.std.specs.Option.{option_copied, option_map};
ghost use Rattle.scw_link.specs.NamedView.{named_view};
ghost use Rattle.scw_link.specs.declared.meaning.ByCall.TheVariants as call;
ghost use Rattle.scw_link.specs.declared.meaning.ByClass.TheVariants as class;
ghost use Rattle.scw_link.specs.Resolve as r;
ghost use Rattle.scw_link.specs.SiteView.{selector_view, site_view};

use crate::classes::{class_number, file_of};
use crate::meaning::{ByCall, ByClass, ByNumber, Meaning, meaning_of};
use crate::members::target_in;
use crate::names::{Named, class_name_at, entry_at, method_in};
use crate::number::narrow;
use crate::numbers::{by_jump, by_number};
use crate::resolve::{by_constant, by_field, line_of, number_of, pool_index};
use crate::site::{Selector, Site};
use crate::types::type_of;
use bitflags::Flags;
use scw_classfile::{AccessFlags, ClassFile};
use scw_code::{Instr, InstrArgs, Numbers};
use scw_frame::{ClassNumber, Operation, SelectorNumber, SwitchNumber, Target, TypeNumber};
use scw_text::NoMemory;
use std::alloc::Global;

fn is_selector(name: &[u16], descriptor: &[u16], selector: &Selector<'_>) -> bool
    ensures { result ≡ r.is_selector name.now descriptor.now (selector_view selector.now) }
{
    selector.name.as_slice() == name && selector.descriptor.as_slice() == descriptor
}

fn first_selector(selectors: &[Selector<'_>], name: &[u16], descriptor: &[u16]) -> Option<usize>
    ensures { result ≡ position (λ s. r.is_selector name.now descriptor.now (selector_view s)) selectors.now }
{
    selectors
        .iter()
        .position(|selector| is_selector(name, descriptor, selector))
}

/// The number of the selector of a name and a descriptor.
pub fn selector_number(
    selectors: &[Selector<'_>],
    name: &[u16],
    descriptor: &[u16],
) -> Option<usize>
    ensures { result ≡ r.selector_number (map selector_view selectors.now) name.now descriptor.now }
{
    first_selector(selectors, name, descriptor)
}

/// What a call of a method runs, static or not as wanted.
pub fn target(
    alloc: Global,
    site: Site<'_>,
    wants_static: bool,
    n: Named<'_>,
) -> Result<Option<Target>, NoMemory>
    ensures { IfOk result (λ t. t ≡ r.target (site_view site.entry) wants_static (named_view n.entry)) }
{
    match line_of(alloc, site, n.class)? {
        Some(line) => target_in(
            site.files,
            wants_static,
            n.name.as_slice(),
            n.descriptor.as_slice(),
            line.as_slice(),
        ),
        None => Ok(None),
    }
}

fn virtual_call(site: Site<'_>, n: Named<'_>) -> Result<Operation, NoMemory>
    ensures { IfOk result (λ o. o ≡ r.call_operation call.Virtual (site_view site.entry) (named_view n.entry)) }
{
    match selector_number(site.selectors, n.name.as_slice(), n.descriptor.as_slice()) {
        Some(number) => Ok(Operation::CallVirtual(SelectorNumber(narrow(number)?))),
        None => Ok(Operation::Undefined),
    }
}

fn call_operation(
    alloc: Global,
    kind: ByCall,
    site: Site<'_>,
    n: Named<'_>,
) -> Result<Operation, NoMemory>
    ensures { IfOk result (λ o. o ≡ r.call_operation kind (site_view site.entry) (named_view n.entry)) }
{
    match kind {
        ByCall::Virtual => virtual_call(site, n),
        ByCall::Special => match target(alloc, site, false, n)? {
            Some(target) => Ok(Operation::CallSpecial(target)),
            None => Ok(Operation::Undefined),
        },
        ByCall::Static => match target(alloc, site, true, n)? {
            Some(target) => Ok(Operation::CallStatic(target)),
            None => Ok(Operation::Undefined),
        },
    }
}

fn by_call(alloc: Global, kind: ByCall, site: Site<'_>, n: usize) -> Result<Operation, NoMemory>
    ensures { IfOk result (λ o. o ≡ r.by_call kind (site_view site.entry) n) }
{
    match method_in(site.pool, entry_at(site.pool, n)) {
        Some(named) => call_operation(alloc, kind, site, named),
        None => Ok(Operation::Undefined),
    }
}

#[tactic(auto, unfolding(crate::specs::Resolve::is_concrete))]
fn is_concrete(file: &ClassFile) -> bool
    ensures { result ≡ r.is_concrete file.now }
{
    file.flags.0 & 0x0200 == 0 && file.flags.0 & 0x0400 == 0
}

fn is_made(files: &[ClassFile], class: usize) -> bool
    ensures { result ≡ r.is_made files.now class }
{
    match file_of(files, class) {
        None => class == 0 || 8 <= class,
        Some(file) => is_concrete(file),
    }
}

fn new_of(files: &[ClassFile], class: usize) -> Result<Option<Operation>, NoMemory>
    ensures { IfOk result (λ o. o ≡ r.new_of files.now class) }
{
    if is_made(files, class) {
        Ok(Some(Operation::New(ClassNumber(narrow(class)?))))
    } else {
        Ok(None)
    }
}

fn by_new(site: Site<'_>, n: usize) -> Result<Operation, NoMemory>
    ensures { IfOk result (λ o. o ≡ r.by_class class.New (site_view site.entry) n) }
{
    let Some(name) = class_name_at(site.pool, n) else {
        return Ok(Operation::Undefined);
    };
    let Some(class) = class_number(site.files, name.as_slice())? else {
        return Ok(Operation::Undefined);
    };
    match new_of(site.files, class)? {
        Some(operation) => Ok(operation),
        None => Ok(Operation::Undefined),
    }
}

fn type_operation(kind: ByClass, number: TypeNumber) -> Operation
    ensures { result ≡ r.type_operation kind number }
{
    match kind {
        ByClass::New => Operation::Undefined,
        ByClass::NewReferences => Operation::NewReferences(number),
        ByClass::CheckCast => Operation::CheckCast(number),
        ByClass::InstanceOf => Operation::InstanceOf(number),
    }
}

fn by_type(kind: ByClass, site: Site<'_>, n: usize) -> Result<Operation, NoMemory>
    ensures { IfOk result (λ o. o ≡ r.by_type kind (site_view site.entry) n) }
{
    match type_of(site.files, class_name_at(site.pool, n))? {
        Some(_) => Ok(type_operation(kind, TypeNumber(number_of(site, n)?))),
        None => Ok(Operation::Undefined),
    }
}

fn by_class(kind: ByClass, site: Site<'_>, n: usize) -> Result<Operation, NoMemory>
    ensures { IfOk result (λ o. o ≡ r.by_class kind (site_view site.entry) n) }
{
    match kind {
        ByClass::New => by_new(site, n),
        ByClass::NewReferences | ByClass::CheckCast | ByClass::InstanceOf => by_type(kind, site, n),
    }
}

fn by_meaning(
    alloc: Global,
    site: Site<'_>,
    place: usize,
    meaning: Meaning,
    numbers: Numbers,
) -> Result<Operation, NoMemory>
    ensures { IfOk result (λ o. o ≡ r.by_meaning (site_view site.entry) place meaning numbers) }
{
    let n = pool_index(numbers.first());
    match meaning {
        Meaning::Alone(operation) => Ok(operation),
        Meaning::Number(kind) => Ok(by_number(kind, numbers)),
        Meaning::Jump(kind) => Ok(by_jump(kind, place, numbers)),
        Meaning::Constant(kind) => by_constant(kind, site, n),
        Meaning::Field(kind) => by_field(alloc, kind, site, n),
        Meaning::Call(kind) => by_call(alloc, kind, site, n),
        Meaning::Class(kind) => by_class(kind, site, n),
    }
}

fn widened(meaning: Meaning, numbers: Numbers) -> Operation
    ensures { result ≡ r.widened meaning numbers }
{
    match meaning {
        Meaning::Number(kind) => match kind {
            ByNumber::Load(_) | ByNumber::Store(_) | ByNumber::Increment => by_number(
                kind, numbers,
            ),
            ByNumber::Push | ByNumber::NewNumbers => Operation::Undefined,
        },
        Meaning::Alone(_)
        | Meaning::Jump(_)
        | Meaning::Constant(_)
        | Meaning::Field(_)
        | Meaning::Call(_)
        | Meaning::Class(_) => Operation::Undefined,
    }
}

/// What an instruction of a place does; a switch has this number.
pub fn operation(
    alloc: Global,
    site: Site<'_>,
    place: usize,
    switch: usize,
    instr: &Instr,
) -> Result<Operation, NoMemory>
    ensures { IfOk result (λ o. o ≡ r.operation (site_view site.entry) place switch instr.now) }
{
    match &instr.args {
        InstrArgs::Plain(numbers) => {
            by_meaning(alloc, site, place, meaning_of(instr.op), *numbers)
        }
        InstrArgs::Table(_) | InstrArgs::Lookup(_) => {
            Ok(Operation::Switch(SwitchNumber(narrow(switch)?)))
        }
        InstrArgs::Wide { op, args } => Ok(widened(meaning_of(*op), *args)),
    }
}

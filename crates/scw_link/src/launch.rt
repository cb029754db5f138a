//! The launcher, which gets the main object and calls its `main`.

ghost use Rattle.std.specs.Prelude.{◌≡◌, ◌∷◌, ◌++◌, [], IfOk, map, codes, true, false};
ghost use Rattle.std.specs.Option.{option_map};
ghost use Rattle.scw_frame.specs.declared.operation.Operation.TheVariants as op;
ghost use Rattle.scw_link.specs.Linked as d;
ghost use Rattle.scw_link.specs.Numbers.{or_undefined};
ghost use Rattle.scw_link.specs.NamedView.{named_view};
ghost use Rattle.scw_link.specs.Resolve as r;
ghost use Rattle.scw_link.specs.Selectors.{main_selector};
ghost use Rattle.scw_link.specs.SiteView.{selector_view, site_view};

use crate::calls::target;
use crate::classes::parents;
use crate::names::Named;
use crate::site::{Selector, Site};
use crate::units::{joined, units_of};
use scw_classfile::ClassFile;
use scw_frame::{
    Instruction, Method, Operation, Origin, SelectorNumber, Target, TypeNumber, Value,
};
use scw_text::{NoMemory, Units};
use sqlite_items::Items;
use std::alloc::{AllocError, Global};

const NO_ORIGIN: Origin = Origin {
    file: 0,
    method: 0,
    start: 0,
};

fn object_class(alloc: Global, main: &Units) -> Result<Units, AllocError>
    ensures { IfOk result (λ x. x ≡ d.object_class main.now) }
{
    joined(alloc, main, &units_of(alloc, b"$")?)
}

// The descriptor of the accessor of an object of this class.
fn getter_descriptor(alloc: Global, class: &Units) -> Result<Units, AllocError>
    ensures { IfOk result (λ x. x ≡ codes "()L" ++ class.now ++ codes ";") }
{
    let front = units_of(alloc, b"()L")?;
    let back = units_of(alloc, b";")?;
    let both = joined(alloc, &front, class)?;
    joined(alloc, &both, &back)
}

/// The accessor of the main object.
pub fn getter_target(
    alloc: Global,
    files: &[ClassFile],
    parents: &[Option<usize>],
    selectors: &[Selector<'_>],
    main: &Units,
) -> Result<Option<Target>, NoMemory>
    ensures { IfOk result (λ t. t ≡ d.getter_target files.now parents.now (map selector_view selectors.now) main.now) }
{
    let class = object_class(alloc, main)?;
    let name = units_of(alloc, b"$get")?;
    let descriptor = getter_descriptor(alloc, &class)?;
    let site = Site {
        files,
        parents,
        selectors,
        pool: &[],
        before: 0,
    };
    let named = Named {
        class: &class,
        name: &name,
        descriptor: &descriptor,
    };
    target(alloc, site, true, named)
}

fn call_of(target: Option<Target>) -> Operation
    ensures { result ≡ or_undefined (option_map (λ x. op.CallStatic x) target) }
{
    match target {
        Some(target) => Operation::CallStatic(target),
        None => Operation::Undefined,
    }
}

fn then_at(next: u16, operation: Operation) -> Instruction
    ensures { result ≡ d.then_at next operation }
{
    Instruction { operation, next }
}

fn launch_code(alloc: Global, target: Option<Target>) -> Result<Items<Instruction>, AllocError>
    ensures { IfOk result (λ x. x ≡ d.launch_code target) }
{
    let mut code = Items::new(alloc);
    code.push(then_at(1, call_of(target)))?;
    code.push(then_at(2, Operation::Push(Value::Int(0))))?;
    code.push(then_at(3, Operation::NewReferences(TypeNumber(0))))?;
    code.push(then_at(4, Operation::CallVirtual(SelectorNumber(0))))?;
    code.push(then_at(5, Operation::Return))?;
    Ok(code)
}

fn origin_of(methods: &[Method], target: Option<Target>) -> Origin
    ensures { result ≡ d.origin_of methods.now target }
{
    match target {
        Some(Target::Code(number)) => match methods.get((number.0 as usize).saturating_sub(1)) {
            Some(method) => method.origin,
            None => NO_ORIGIN,
        },
        Some(Target::BuiltIn(_)) | None => NO_ORIGIN,
    }
}

/// The method that runs the program, before the methods of the files.
pub fn launcher(
    alloc: Global,
    methods: &[Method],
    target: Option<Target>,
) -> Result<Method, AllocError>
    ensures { IfOk result (λ m. m ≡ d.launcher methods.now target) }
{
    Ok(Method {
        origin: origin_of(methods, target),
        arguments: Items::new(alloc),
        stack: 2,
        locals: 1,
        code: launch_code(alloc, target)?,
        guards: Items::new(alloc),
    })
}

fn is_code(target: Option<Target>) -> bool
    ensures { result ≡ d.is_code target }
{
    matches!(target, Some(Target::Code(_)))
}

fn main_target(
    alloc: Global,
    files: &[ClassFile],
    parents: &[Option<usize>],
    main: &Units,
) -> Result<Option<Target>, NoMemory>
    ensures { IfOk result (λ t. t ≡ r.target (d.outside files.now parents.now []) false (d.main_method main.now)) }
{
    let class = object_class(alloc, main)?;
    let name = units_of(alloc, b"main")?;
    let descriptor = units_of(alloc, b"([Ljava/lang/String;)V")?;
    let site = Site {
        files,
        parents,
        selectors: &[],
        pool: &[],
        before: 0,
    };
    let named = Named {
        class: &class,
        name: &name,
        descriptor: &descriptor,
    };
    target(alloc, site, false, named)
}

/// Whether the files have a main object of this name, with its accessor and its `main`.
pub fn has_main(alloc: Global, files: &[ClassFile], main: &Units) -> Result<bool, NoMemory>
    ensures { IfOk result (λ b. b ≡ d.has_main files.now main.now) }
{
    let parents = parents(alloc, files)?;
    let getter = getter_target(alloc, files, parents.as_slice(), &[], main)?;
    let method = main_target(alloc, files, parents.as_slice(), main)?;
    Ok(is_code(getter) && is_code(method))
}

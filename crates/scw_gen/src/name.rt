//! Names and descriptors of methods (JVMS 4.2, 4.3).

ghost use Rattle.std.specs.Prelude.{◌≡◌, ◌++◌, IfOk, OnOk};
ghost use Rattle.scw_core.specs.Text.{units_of_character, units_of_name};
ghost use Rattle.scw_gen.specs.Around.{around_of};
ghost use Rattle.scw_gen.specs.Name as spec;
ghost use Rattle.scw_gen.specs.Outcome.{Gives};

use crate::around::Around;
use crate::failure::Failure;
use crate::instr::BuiltIn;
use crate::kind::Kind;
use crate::pool::MethodName;
use scw_classfile::is_method;
use scw_core::{Member, Parameter};
use scw_text::Units;
use sqlite_items::Items;
use std::alloc::{AllocError, Global};

/// Adds a text of bytes below 128, each one unit.
fn add_bytes(units: &mut Units, bytes: &[u8]) -> Result<(), AllocError>
    ensures { OnOk result (units.new ≡ units.old ++ bytes.now) }
{
    for byte in bytes {
        units.push(u16::from(*byte))?;
    }
    Ok(())
}

/// The text of bytes below 128.
pub(crate) fn units_of(alloc: Global, bytes: &[u8]) -> Result<Units, AllocError>
    ensures { IfOk result (λ units. units ≡ bytes.now) }
{
    let mut units = Items::new(alloc);
    add_bytes(&mut units, bytes)?;
    Ok(units)
}

fn add_character(units: &mut Units, c: char) -> Result<(), AllocError>
    ensures { OnOk result (units.new ≡ units.old ++ units_of_character c) }
{
    let code = u32::from(c);
    if code < 0x1_0000 {
        units.push(code as u16)?;
    } else {
        let above = code - 0x1_0000;
        units.push((0xd800 + above / 0x400) as u16)?;
        units.push((0xdc00 + above % 0x400) as u16)?;
    }
    Ok(())
}

/// Adds a name, by its UTF-16 units.
fn add_name(units: &mut Units, name: &[char]) -> Result<(), AllocError>
    ensures { OnOk result (units.new ≡ units.old ++ units_of_name name.now) }
{
    for c in name {
        add_character(units, *c)?;
    }
    Ok(())
}

/// The UTF-16 units of a name.
pub(crate) fn units_of_name(alloc: Global, name: &[char]) -> Result<Units, AllocError>
    ensures { IfOk result (λ units. units ≡ units_of_name name.now) }
{
    let mut units = Items::new(alloc);
    add_name(&mut units, name)?;
    Ok(units)
}

/// Adds the descriptor of the class itself.
fn add_this(units: &mut Units, name: &[char]) -> Result<(), AllocError>
    ensures { OnOk result (units.new ≡ units.old ++ spec.this_text name.now) }
{
    add_bytes(units, b"L")?;
    add_name(units, name)?;
    add_bytes(units, b";")
}

/// Adds the descriptor of a value.
fn add_field(units: &mut Units, own: &[char], k: Kind) -> Result<(), AllocError>
    ensures { OnOk result (units.new ≡ units.old ++ spec.field_text own.now k) }
{
    match k {
        Kind::Unit => add_bytes(units, b"Lscalaw/rt/Unit;"),
        Kind::Boolean => add_bytes(units, b"Z"),
        Kind::Int => add_bytes(units, b"I"),
        Kind::Long => add_bytes(units, b"J"),
        Kind::String => add_bytes(units, b"Ljava/lang/String;"),
        Kind::Strings => add_bytes(units, b"[Ljava/lang/String;"),
        Kind::This => add_this(units, own),
    }
}

/// Adds the descriptor of a result.
fn add_result(units: &mut Units, own: &[char], k: Kind) -> Result<(), AllocError>
    ensures { OnOk result (units.new ≡ units.old ++ spec.result_text own.now k) }
{
    match k {
        Kind::Unit => add_bytes(units, b"V"),
        Kind::Boolean | Kind::Int | Kind::Long | Kind::String | Kind::Strings | Kind::This =>
            add_field(units, own, k),
    }
}

/// What a parameter is.
pub(crate) fn kind_of_parameter(g: &Around<'_>, x: Parameter) -> Option<Kind>
    ensures { result ≡ spec.kind_of_parameter (around_of g.now) x }
{
    if x.is_by_name {
        None
    } else {
        g.kind_at(x.type_id)
    }
}

/// The descriptor of a method up to its last parameter.
#[tactic(auto, unfolding(crate::specs::Name::parameters_text))]
fn parameters_text(g: &Around<'_>, parameters: &[Parameter]) -> Result<Units, Failure>
    ensures { Gives (λ us. us) result (spec.parameters_text (around_of g.now) spec.opened parameters.now) }
{
    let mut units = units_of(g.alloc, b"(")?;
    for x in parameters {
        match kind_of_parameter(g, *x) {
            None => return Err(Failure::Other),
            Some(k) => add_field(&mut units, g.class.binary_name.as_slice(), k)?,
        }
    }
    Ok(units)
}

/// The descriptor of a method (JVMS 4.3.3).
pub(crate) fn descriptor(g: &Around<'_>, m: &Member) -> Result<Units, Failure>
    ensures { Gives (λ us. us) result (spec.descriptor (around_of g.now) m.now) }
{
    let mut units = parameters_text(g, m.parameters.as_slice())?;
    match g.kind_at(m.result) {
        None => Err(Failure::Other),
        Some(k) => {
            add_bytes(&mut units, b")")?;
            add_result(&mut units, g.class.binary_name.as_slice(), k)?;
            Ok(units)
        }
    }
}

/// A method of the class itself.
pub(crate) fn method_name(g: &Around<'_>, m: &Member) -> Result<MethodName, Failure>
    ensures { Gives (λ n. n) result (spec.method_name (around_of g.now) m.now) }
{
    let descriptor = descriptor(g, m)?;
    let class = units_of_name(g.alloc, g.class.binary_name.as_slice())?;
    let name = units_of_name(g.alloc, m.name.as_slice())?;
    if !is_method(descriptor.as_slice()) {
        return Err(Failure::Other);
    }
    Ok(MethodName {
        class,
        name,
        descriptor,
    })
}

/// A method of a class of the machine's own.
fn named(
    alloc: Global,
    class: &[u8],
    name: &[u8],
    descriptor: &[u8],
) -> Result<MethodName, AllocError>
    ensures { IfOk result (λ n. n ≡ spec.named class.now name.now descriptor.now) }
{
    let class = units_of(alloc, class)?;
    let name = units_of(alloc, name)?;
    let descriptor = units_of(alloc, descriptor)?;
    Ok(MethodName {
        class,
        name,
        descriptor,
    })
}

/// A method of the class `scalaw/rt/Run`.
fn run_method(alloc: Global, name: &[u8], descriptor: &[u8]) -> Result<MethodName, AllocError>
    ensures { IfOk result (λ n. n ≡ spec.run_method name.now descriptor.now) }
{
    named(alloc, b"scalaw/rt/Run", name, descriptor)
}

/// A method that code calls of the machine's own classes.
pub(crate) fn built_in_name(alloc: Global, m: BuiltIn) -> Result<MethodName, AllocError>
    ensures { IfOk result (λ n. n ≡ spec.built_in_name m) }
{
    match m {
        BuiltIn::Print => run_method(alloc, b"print", b"(Ljava/lang/String;)V"),
        BuiltIn::Concat => run_method(
            alloc,
            b"concat",
            b"(Ljava/lang/String;Ljava/lang/String;)Ljava/lang/String;",
        ),
        BuiltIn::Unit => run_method(alloc, b"unit", b"()Lscalaw/rt/Unit;"),
        BuiltIn::BoxBoolean => run_method(alloc, b"box", b"(Z)Ljava/lang/Boolean;"),
        BuiltIn::BoxInt => run_method(alloc, b"box", b"(I)Ljava/lang/Integer;"),
        BuiltIn::BoxLong => run_method(alloc, b"box", b"(J)Ljava/lang/Long;"),
        BuiltIn::ToString => named(
            alloc,
            b"java/lang/Object",
            b"toString",
            b"()Ljava/lang/String;",
        ),
    }
}

/// The constructor of `java/lang/Object`.
pub(crate) fn object_init(alloc: Global) -> Result<MethodName, AllocError>
    ensures { IfOk result (λ n. n ≡ spec.object_init) }
{
    named(alloc, b"java/lang/Object", b"<init>", b"()V")
}

/// The constructor of the class itself.
pub(crate) fn this_init(g: &Around<'_>) -> Result<MethodName, AllocError>
    ensures { IfOk result (λ n. n ≡ spec.this_init (around_of g.now)) }
{
    let class = units_of_name(g.alloc, g.class.binary_name.as_slice())?;
    let name = units_of(g.alloc, b"<init>")?;
    let descriptor = units_of(g.alloc, b"()V")?;
    Ok(MethodName {
        class,
        name,
        descriptor,
    })
}

/// The method of the class that gives its object.
pub(crate) fn get_name(g: &Around<'_>) -> Result<MethodName, AllocError>
    ensures { IfOk result (λ n. n ≡ spec.get_name (around_of g.now)) }
{
    let class = units_of_name(g.alloc, g.class.binary_name.as_slice())?;
    let name = units_of(g.alloc, b"$get")?;
    let mut descriptor = units_of(g.alloc, b"()")?;
    add_this(&mut descriptor, g.class.binary_name.as_slice())?;
    Ok(MethodName {
        class,
        name,
        descriptor,
    })
}

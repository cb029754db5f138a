//! The code of operators, behind that of their operands.

ghost use Rattle.std.specs.Prelude.{◌≡◌, option_copied, IfOk, find};
ghost use Rattle.scw_core.specs.Program.{in_members, text_at};
ghost use Rattle.scw_gen.specs.Around.{around_of};
ghost use Rattle.scw_gen.specs.Operator as spec;
ghost use Rattle.scw_gen.specs.Outcome.{Gives};
ghost use Rattle.scw_gen.specs.Scope.{scope_of};

use crate::around::Around;
use crate::failure::Failure;
use crate::instr::{BuiltIn, Constant, Instr};
use crate::kind::Kind;
use crate::mode::{Mode, comparison, ended, given, join, one, truth, unit};
use crate::pool::{integer_index, string_index};
use crate::scope::{Scope, Slot, slot_of};
use scw_core::{Literal, Logic, Member, Op, Primitive, TextId, Width};
use scw_text::SymId;
use scw_value::Comparison;
use std::alloc::AllocError;

/// How operands are evaluated.
#[derive(Clone, Copy, Debug, PartialEq, Eq)]
pub enum Form {
    /// Their values stand on the stack.
    Values,
    /// Their values are dropped, or never made.
    Effects,
    /// The texts of their values stand on the stack.
    Texts,
}

/// How operands are evaluated of an operator that does nothing but give a value.
fn form_of_value(mode: Mode) -> Form
    ensures { result ≡ spec.form_of_value mode }
{
    match mode {
        Mode::Effect => Form::Effects,
        Mode::Value | Mode::Test(..) | Mode::Return(_) => Form::Values,
    }
}

fn form_of_primitive(mode: Mode, p: Primitive) -> Form
    ensures { result ≡ spec.form_of_primitive mode p }
{
    match p {
        Primitive::Arithmetic(..) | Primitive::Comparison(..) | Primitive::Logic(_) => {
            form_of_value(mode)
        }
        Primitive::Concatenate => Form::Texts,
        Primitive::Division(..) | Primitive::Shift(..) => Form::Values,
        Primitive::Negate(_) | Primitive::Complement(_) | Primitive::Convert(..) => Form::Values,
        Primitive::Not | Primitive::Equal | Primitive::NotEqual => Form::Values,
        Primitive::Same | Primitive::NotSame => Form::Values,
        Primitive::StringLength | Primitive::CharAt | Primitive::Substring => Form::Values,
        Primitive::IsEmpty | Primitive::CompareTo => Form::Values,
    }
}

/// How the operands of an operator are evaluated.
pub(crate) fn form_of(mode: Mode, op: Op) -> Form
    ensures { result ≡ spec.form_of mode op }
{
    match op {
        Op::Primitive(p) => form_of_primitive(mode, p),
        Op::Literal(_) | Op::Local(_) | Op::SetLocal(_) | Op::Call(_) | Op::Run(_) => Form::Values,
        Op::Get(_) | Op::Set(_) | Op::LazyGet(_) | Op::Module(_) => Form::Values,
        Op::New(_) | Op::NewInner(_) | Op::Super(..) | Op::Direct(_) => Form::Values,
        Op::Static(..) | Op::GetStatic(..) | Op::SetStatic(..) => Form::Values,
        Op::Force | Op::Throw | Op::Exit(_) => Form::Values,
        Op::IsA(_) | Op::Cast(_) | Op::Coerce(_) | Op::Box | Op::Unbox(_) => Form::Values,
        Op::ArrayNew(_) | Op::ArrayGet | Op::ArraySet | Op::ArrayLength => Form::Values,
        Op::Cell | Op::CellGet | Op::CellSet => Form::Values,
    }
}

fn loaded(index: u16, c: Constant) -> Instr
    ensures { result ≡ spec.loaded index c }
{
    if index <= 255 {
        Instr::Constant(c)
    } else {
        Instr::WideConstant(c)
    }
}

/// The shortest instruction that gives the number.
fn int_instr(g: &Around<'_>, n: u32) -> Instr
    ensures { result ≡ spec.int_instr (around_of g.now) n }
{
    let signed = n.cast_signed();
    if -32_768 <= signed && signed <= 32_767 {
        return Instr::Number(signed);
    }
    loaded(integer_index(g.pool, n), Constant::Int(n))
}

fn long_instr(n: u64) -> Instr
    ensures { result ≡ spec.long_instr n }
{
    if n <= 1 {
        Instr::LongBit(n == 1)
    } else {
        Instr::LongConstant(n)
    }
}

/// The code of a value that one instruction puts on the stack.
fn given_by(g: &Around<'_>, mode: Mode, k: Kind, instr: Instr) -> Result<Vec<Instr>, AllocError>
    ensures { IfOk result (λ v. v.items ≡ spec.given_by (around_of g.now) mode k instr) }
{
    let value = one(g.alloc, Some(instr))?;
    given(g.alloc, g.is_far, mode, k, value)
}

#[tactic(auto, unfolding(scw_core::specs::Program::text_at))]
fn string(g: &Around<'_>, mode: Mode, t: TextId) -> Result<Vec<Instr>, Failure>
    ensures { Gives (λ v. v.items) result (spec.string (around_of g.now) mode t) }
{
    match g.table.texts.as_slice().get(t.0 as usize) {
        None => Err(Failure::Other),
        Some(text) => {
            let instr = loaded(string_index(g.pool, text.as_slice()), Constant::Text(t));
            Ok(given_by(g, mode, Kind::String, instr)?)
        }
    }
}

fn literal(g: &Around<'_>, mode: Mode, l: Literal) -> Result<Vec<Instr>, Failure>
    ensures { Gives (λ v. v.items) result (spec.literal (around_of g.now) mode l) }
{
    match l {
        Literal::Unit => Ok(unit(g.alloc, g.is_far, mode)?),
        Literal::Boolean(b) => Ok(truth(g.alloc, g.is_far, mode, b)?),
        Literal::Int(n) => Ok(given_by(g, mode, Kind::Int, int_instr(g, n))?),
        Literal::Long(n) => Ok(given_by(g, mode, Kind::Long, long_instr(n))?),
        Literal::String(t) => string(g, mode, t),
        Literal::Char(_) | Literal::Null => Err(Failure::Other),
    }
}

fn local(g: &Around<'_>, mode: Mode, slot: Option<&Slot>) -> Result<Vec<Instr>, Failure>
    ensures { Gives (λ v. v.items) result (spec.local (around_of g.now) mode (option_copied slot.entry)) }
{
    match slot {
        None => Err(Failure::Other),
        Some(slot) => {
            let instr = Instr::Load(slot.kind.word(), slot.place);
            Ok(given_by(g, mode, slot.kind, instr)?)
        }
    }
}

/// The instruction, and then `()`.
fn done(g: &Around<'_>, mode: Mode, instr: Instr) -> Result<Vec<Instr>, AllocError>
    ensures { IfOk result (λ v. v.items ≡ spec.done (around_of g.now) mode instr) }
{
    let first = one(g.alloc, Some(instr))?;
    let value = unit(g.alloc, g.is_far, mode)?;
    join(first, &value)
}

/// The instruction, which gives a value.
fn made(g: &Around<'_>, mode: Mode, k: Kind, instr: Instr) -> Result<Vec<Instr>, AllocError>
    ensures { IfOk result (λ v. v.items ≡ spec.made (around_of g.now) mode k instr) }
{
    let first = one(g.alloc, Some(instr))?;
    let end = ended(g.alloc, g.is_far, mode, k)?;
    join(first, &end)
}

fn set_local(g: &Around<'_>, mode: Mode, slot: Option<&Slot>) -> Result<Vec<Instr>, Failure>
    ensures { Gives (λ v. v.items) result (spec.set_local (around_of g.now) mode (option_copied slot.entry)) }
{
    match slot {
        None => Err(Failure::Other),
        Some(slot) => Ok(done(g, mode, Instr::Store(slot.kind.word(), slot.place))?),
    }
}

fn called(g: &Around<'_>, mode: Mode, m: SymId, k: Kind) -> Result<Vec<Instr>, AllocError>
    ensures { IfOk result (λ v. v.items ≡ spec.called (around_of g.now) mode m k) }
{
    match k {
        Kind::Unit => done(g, mode, Instr::Call(m)),
        Kind::Boolean | Kind::Int | Kind::Long | Kind::String | Kind::Strings | Kind::This => made(
            g,
            mode,
            k,
            Instr::Call(m),
        ),
    }
}

/// The member of the class with the symbol.
pub(crate) fn member_in<'a>(members: &'a [Member], m: SymId) -> Option<&'a Member>
    ensures { option_copied result ≡ in_members members.now m }
{
    members.iter().find(|x| x.symbol.0 == m.0)
}

fn call(g: &Around<'_>, mode: Mode, m: SymId) -> Result<Vec<Instr>, Failure>
    ensures { Gives (λ v. v.items) result (spec.call (around_of g.now) mode m) }
{
    match member_in(g.class.members.as_slice(), m) {
        None => Err(Failure::Other),
        Some(member) => match g.kind_at(member.result) {
            None => Err(Failure::Other),
            Some(k) => Ok(called(g, mode, m, k)?),
        },
    }
}

pub(crate) fn kind_of_width(w: Width) -> Kind
    ensures { result ≡ spec.kind_of_width w }
{
    match w {
        Width::Int => Kind::Int,
        Width::Long => Kind::Long,
    }
}

fn logic(g: &Around<'_>, mode: Mode, l: Logic) -> Result<Vec<Instr>, Failure>
    ensures { Gives (λ v. v.items) result (spec.logic (around_of g.now) mode l) }
{
    match l {
        Logic::Equal => { Ok(comparison(g.alloc, g.is_far, mode, Width::Int, Comparison::Equal)?) }
        Logic::NotEqual => {
            Ok(comparison(g.alloc, g.is_far, mode, Width::Int, Comparison::NotEqual)?)
        }
        Logic::And | Logic::Or | Logic::Xor => Err(Failure::Other),
    }
}

fn primitive(g: &Around<'_>, mode: Mode, p: Primitive) -> Result<Vec<Instr>, Failure>
    ensures { Gives (λ v. v.items) result (spec.primitive (around_of g.now) mode p) }
{
    match p {
        Primitive::Arithmetic(w, o) => {
            Ok(given_by(g, mode, kind_of_width(w), Instr::Arithmetic(w, o))?)
        }
        Primitive::Division(w, o) => Ok(made(g, mode, kind_of_width(w), Instr::Division(w, o))?),
        Primitive::Comparison(w, c) => Ok(comparison(g.alloc, g.is_far, mode, w, c)?),
        Primitive::Logic(l) => logic(g, mode, l),
        Primitive::Concatenate => {
            Ok(made(g, mode, Kind::String, Instr::CallBuiltIn(BuiltIn::Concat))?)
        }
        Primitive::Shift(..) | Primitive::Negate(_) => Err(Failure::Other),
        Primitive::Complement(_) | Primitive::Convert(..) => Err(Failure::Other),
        Primitive::Not | Primitive::Equal | Primitive::NotEqual => Err(Failure::Other),
        Primitive::Same | Primitive::NotSame => Err(Failure::Other),
        Primitive::StringLength | Primitive::CharAt | Primitive::Substring => Err(Failure::Other),
        Primitive::IsEmpty | Primitive::CompareTo => Err(Failure::Other),
    }
}

/// The code of an operator behind that of its operands.
pub(crate) fn op_code(
    g: &Around<'_>,
    scope: &Scope,
    mode: Mode,
    op: Op,
) -> Result<Vec<Instr>, Failure>
    ensures { Gives (λ v. v.items) result (spec.op_code (around_of g.now) (scope_of scope.now) mode op) }
{
    match op {
        Op::Literal(l) => literal(g, mode, l),
        Op::Local(x) => local(g, mode, slot_of(scope, x)),
        Op::SetLocal(x) => set_local(g, mode, slot_of(scope, x)),
        Op::Call(m) => call(g, mode, m),
        Op::Primitive(p) => primitive(g, mode, p),
        Op::Run(_) => Ok(done(g, mode, Instr::CallBuiltIn(BuiltIn::Print))?),
        Op::Get(_) | Op::Set(_) | Op::LazyGet(_) | Op::Module(_) => Err(Failure::Other),
        Op::New(_) | Op::NewInner(_) | Op::Super(..) | Op::Direct(_) => Err(Failure::Other),
        Op::Static(..) | Op::GetStatic(..) | Op::SetStatic(..) => Err(Failure::Other),
        Op::Force | Op::Throw | Op::Exit(_) => Err(Failure::Other),
        Op::IsA(_) | Op::Cast(_) | Op::Coerce(_) | Op::Box | Op::Unbox(_) => Err(Failure::Other),
        Op::ArrayNew(_) | Op::ArrayGet | Op::ArraySet | Op::ArrayLength => Err(Failure::Other),
        Op::Cell | Op::CellGet | Op::CellSet => Err(Failure::Other),
    }
}

fn text_by(g: &Around<'_>, by: BuiltIn) -> Result<Vec<Instr>, AllocError>
    ensures { IfOk result (λ v. v.items ≡ spec.text_by by) }
{
    let boxed = one(g.alloc, Some(Instr::CallBuiltIn(by)))?;
    join(boxed, &[Instr::CallBuiltIn(BuiltIn::ToString)])
}

/// The code that makes of the value on the stack its text.
pub(crate) fn text_of(g: &Around<'_>, k: Option<Kind>) -> Result<Vec<Instr>, Failure>
    ensures { Gives (λ v. v.items) result (spec.text_of k) }
{
    match k {
        Some(Kind::Unit) => Ok(one(g.alloc, Some(Instr::CallBuiltIn(BuiltIn::ToString)))?),
        Some(Kind::Boolean) => Ok(text_by(g, BuiltIn::BoxBoolean)?),
        Some(Kind::Int) => Ok(text_by(g, BuiltIn::BoxInt)?),
        Some(Kind::Long) => Ok(text_by(g, BuiltIn::BoxLong)?),
        Some(Kind::String) => Ok(one(g.alloc, None)?),
        Some(Kind::Strings) | Some(Kind::This) | None => Err(Failure::Other),
    }
}

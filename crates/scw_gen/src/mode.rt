//! What becomes of the value of a tree, and the instructions for it.

ghost use Rattle.std.specs.Prelude.{◌≡◌, ◌++◌, IfOk};
ghost use Rattle.scw_gen.specs.Mode as spec;

use crate::instr::{BuiltIn, Compared, Instr, plus, room_of};
use crate::kind::{Kind, Word};
use scw_core::Width;
use scw_value::Comparison;
use std::alloc::{AllocError, Global};

/// What becomes of the value of a tree.
#[derive(Clone, Copy, Debug, PartialEq, Eq)]
pub enum Mode {
    /// It stands on the stack.
    Value,
    /// It is dropped, or never made.
    Effect,
    /// Of a `Boolean`: the code goes on so many bytes behind its end where it is this one, and else at its end.
    Test(bool, u16),
    /// It is the method's result.
    Return(Word),
}

/// The code of a choice behind its test.
#[derive(Drop)]
pub(crate) struct Tail {
    /// The value of the test that jumps.
    pub sense: bool,
    /// How far it jumps, from the end of its code.
    pub way: u16,
    pub instrs: Vec<Instr>,
}

/// The mode of the test. Where it would jump to what follows, it has no value.
pub(crate) fn mode_of_test(sense: bool, way: u16) -> Mode
    ensures { result ≡ spec.mode_of_test sense way }
{
    if way == 0 {
        Mode::Effect
    } else {
        Mode::Test(sense, way)
    }
}

/// No instruction, or one.
pub(crate) fn one(alloc: Global, instr: Option<Instr>) -> Result<Vec<Instr>, AllocError>
    ensures { IfOk result (λ v. v.items ≡ spec.one instr) }
{
    let mut instrs = Vec::new(alloc);
    match instr {
        None => {}
        Some(instr) => instrs.push(instr)?,
    }
    Ok(instrs)
}

/// Both, one behind the other.
pub(crate) fn join(first: Vec<Instr>, second: &[Instr]) -> Result<Vec<Instr>, AllocError>
    ensures { IfOk result (λ v. v.items ≡ first.items ++ second.now) }
{
    let mut instrs = first;
    instrs.extend_from_slice(second)?;
    Ok(instrs)
}

/// The comparison that holds where the other doesn't.
pub(crate) fn negated(c: Comparison) -> Comparison
    ensures { result ≡ spec.negated c }
{
    match c {
        Comparison::Equal => Comparison::NotEqual,
        Comparison::NotEqual => Comparison::Equal,
        Comparison::Less => Comparison::GreaterOrEqual,
        Comparison::GreaterOrEqual => Comparison::Less,
        Comparison::Greater => Comparison::LessOrEqual,
        Comparison::LessOrEqual => Comparison::Greater,
    }
}

/// The comparison, or the one that holds where it doesn't.
pub(crate) fn sensed(sense: bool, c: Comparison) -> Comparison
    ensures { result ≡ spec.sensed sense c }
{
    if sense { c } else { negated(c) }
}

/// A jump over so many bytes.
pub(crate) fn jump(far: bool, over: u16) -> Instr
    ensures { result ≡ spec.jump far over }
{
    if far {
        Instr::FarGoto(plus(5, over))
    } else {
        Instr::Goto(plus(3, over))
    }
}

/// A jump back to so many bytes before it.
pub(crate) fn jump_back(far: bool, way: u16) -> Instr
    ensures { result ≡ spec.jump_back far way }
{
    if far {
        Instr::FarBack(way)
    } else {
        Instr::Back(way)
    }
}

/// How many bytes a jump takes.
pub(crate) fn jump_size(far: bool) -> u16
    ensures { result ≡ spec.jump_size far }
{
    if far { 5 } else { 3 }
}

/// A jump over so many bytes where the comparison holds. A far one jumps over a jump where it doesn't.
pub(crate) fn branch(
    alloc: Global,
    far: bool,
    compared: Compared,
    c: Comparison,
    over: u16,
) -> Result<Vec<Instr>, AllocError>
    ensures { IfOk result (λ v. v.items ≡ spec.branch far compared c over) }
{
    let mut instrs = Vec::new(alloc);
    if far {
        instrs.push(Instr::Branch(compared, negated(c), 8))?;
        instrs.push(jump(true, over))?;
    } else {
        instrs.push(Instr::Branch(compared, c, plus(3, over)))?;
    }
    Ok(instrs)
}

fn drop_instr(k: Kind) -> Instr
    ensures { result ≡ spec.drop_instr k }
{
    match k {
        Kind::Long => Instr::PopTwo,
        Kind::Unit | Kind::Boolean | Kind::Int | Kind::String | Kind::Strings | Kind::This =>
            Instr::Pop,
    }
}

/// What stands behind the code that has put a value on the stack.
pub(crate) fn ended(alloc: Global, far: bool, mode: Mode, k: Kind) -> Result<Vec<Instr>, AllocError>
    ensures { IfOk result (λ v. v.items ≡ spec.ended far mode k) }
{
    match mode {
        Mode::Value => one(alloc, None),
        Mode::Effect => one(alloc, Some(drop_instr(k))),
        Mode::Test(sense, way) => {
            branch(
                alloc,
                far,
                Compared::Zero,
                sensed(sense, Comparison::NotEqual),
                way,
            )
        }
        Mode::Return(w) => one(alloc, Some(Instr::Return(w))),
    }
}

/// The code of a value that these instructions put on the stack, where nothing else of them counts.
pub(crate) fn given(
    alloc: Global,
    far: bool,
    mode: Mode,
    k: Kind,
    instrs: Vec<Instr>,
) -> Result<Vec<Instr>, AllocError>
    ensures { IfOk result (λ v. v.items ≡ spec.given far mode k instrs.items) }
{
    match mode {
        Mode::Effect => one(alloc, None),
        Mode::Value | Mode::Test(..) | Mode::Return(_) => {
            let end = ended(alloc, far, mode, k)?;
            join(instrs, &end)
        }
    }
}

/// What stands behind code whose value is `()`, which it has not put on the stack.
pub(crate) fn unit(alloc: Global, far: bool, mode: Mode) -> Result<Vec<Instr>, AllocError>
    ensures { IfOk result (λ v. v.items ≡ spec.unit far mode) }
{
    let value = one(alloc, Some(Instr::CallBuiltIn(BuiltIn::Unit)))?;
    given(alloc, far, mode, Kind::Unit, value)
}

/// Whether both hold or neither.
pub(crate) fn agree(a: bool, b: bool) -> bool
    ensures { result ≡ spec.agree a b }
{
    if a { b } else { !b }
}

/// The code of a Boolean constant.
pub(crate) fn truth(alloc: Global, far: bool, mode: Mode, b: bool) -> Result<Vec<Instr>, AllocError>
    ensures { IfOk result (λ v. v.items ≡ spec.truth far mode b) }
{
    match mode {
        Mode::Test(sense, way) => {
            let jumps = if agree(b, sense) {
                Some(jump(far, way))
            } else {
                None
            };
            one(alloc, jumps)
        }
        Mode::Value | Mode::Effect | Mode::Return(_) => {
            let value = one(alloc, Some(Instr::Number(i32::from(b))))?;
            given(alloc, far, mode, Kind::Boolean, value)
        }
    }
}

/// What a branch compares behind the operands of a comparison.
fn compared_by(width: Width) -> Compared
    ensures { result ≡ spec.compared_by width }
{
    match width {
        Width::Int => Compared::Two,
        Width::Long => Compared::Zero,
    }
}

/// What makes a number of two that a branch compares with 0.
fn difference(width: Width) -> Option<Instr>
    ensures { result ≡ spec.difference width }
{
    match width {
        Width::Int => None,
        Width::Long => Some(Instr::CompareLongs),
    }
}

/// A jump over so many bytes where the comparison of the operands holds.
fn test(
    alloc: Global,
    far: bool,
    width: Width,
    c: Comparison,
    over: u16,
) -> Result<Vec<Instr>, AllocError>
    ensures { IfOk result (λ v. v.items ≡ spec.test far width c over) }
{
    let number = one(alloc, difference(width))?;
    let jumps = branch(alloc, far, compared_by(width), c, over)?;
    join(number, &jumps)
}

/// The Boolean value of a comparison.
fn compared_value(
    alloc: Global,
    far: bool,
    width: Width,
    c: Comparison,
) -> Result<Vec<Instr>, AllocError>
    ensures { IfOk result (λ v. v.items ≡ spec.compared_value far width c) }
{
    let test = test(alloc, far, width, negated(c), plus(1, jump_size(far)))?;
    join(test, &[Instr::Number(1), jump(far, 1), Instr::Number(0)])
}

/// The code of a comparison behind its operands.
pub(crate) fn comparison(
    alloc: Global,
    far: bool,
    mode: Mode,
    width: Width,
    c: Comparison,
) -> Result<Vec<Instr>, AllocError>
    ensures { IfOk result (λ v. v.items ≡ spec.comparison far mode width c) }
{
    match mode {
        Mode::Test(sense, way) => test(alloc, far, width, sensed(sense, c), way),
        Mode::Value | Mode::Effect | Mode::Return(_) => {
            let value = compared_value(alloc, far, width, c)?;
            given(alloc, far, mode, Kind::Boolean, value)
        }
    }
}

/// Two branches: the second is jumped to where the test is false, and the first goes on behind it.
pub(crate) fn both(far: bool, first: Vec<Instr>, second: &[Instr]) -> Result<Tail, AllocError>
    ensures { IfOk result (λ t. spec.tail_of t ≡ spec.both far first.items second.now) }
{
    let way = plus(room_of(&first), jump_size(far));
    let over = join(first, &[jump(far, room_of(second))])?;
    Ok(Tail {
        sense: false,
        way,
        instrs: join(over, second)?,
    })
}

/// Two branches, of which the first doesn't go on.
fn apart(first: Vec<Instr>, second: &[Instr]) -> Result<Tail, AllocError>
    ensures { IfOk result (λ t. spec.tail_of t ≡ spec.apart first.items second.now) }
{
    let way = room_of(&first);
    Ok(Tail {
        sense: false,
        way,
        instrs: join(first, second)?,
    })
}

/// One branch, which is jumped over where the test has the value.
pub(crate) fn alone(sense: bool, instrs: Vec<Instr>) -> Tail
    ensures { spec.tail_of result ≡ spec.alone sense instrs.items }
{
    let way = room_of(&instrs);
    Tail { sense, way, instrs }
}

/// Two branches, of which one may be empty.
fn either(far: bool, first: Vec<Instr>, second: Vec<Instr>) -> Result<Tail, AllocError>
    ensures { IfOk result (λ t. spec.tail_of t ≡ spec.either far first.items second.items) }
{
    if second.is_empty() {
        return Ok(alone(false, first));
    }
    if first.is_empty() {
        return Ok(alone(true, second));
    }
    both(far, first, &second)
}

/// The code of a choice behind its test, which isn't a test itself.
pub(crate) fn branches(
    far: bool,
    mode: Mode,
    first: Vec<Instr>,
    second: Vec<Instr>,
) -> Result<Tail, AllocError>
    ensures { IfOk result (λ t. spec.tail_of t ≡ spec.branches far mode first.items second.items) }
{
    match mode {
        Mode::Value | Mode::Test(..) => both(far, first, &second),
        Mode::Effect => either(far, first, second),
        Mode::Return(_) => apart(first, &second),
    }
}

/// Adds a way to where a test jumps.
fn farther(more: u16, tail: Tail) -> Tail
    ensures { spec.tail_of result ≡ spec.farther more (spec.tail_of tail) }
{
    let Tail { sense, way, instrs } = tail;
    Tail {
        sense,
        way: plus(way, more),
        instrs,
    }
}

/// The code of a choice in a test, of which one branch is a constant and the other is this: where the constant is the value
/// that jumps, the choice jumps as far.
pub(crate) fn decided(sense: bool, way: u16, constant: bool, tail: Tail) -> Tail
    ensures { spec.tail_of result ≡ spec.decided sense way constant (spec.tail_of tail) }
{
    if agree(constant, sense) {
        farther(way, tail)
    } else {
        tail
    }
}

//! The instructions of a method: `code_length` and `code` of JVMS 4.7.3, with the rules of 4.9.1.

ghost use Rattle.std.specs.Prelude.{◌≡◌, ◌≤◌, ◌++◌, ℕ, [], length, IsNone, List, IsTrue, OnOk, IfOk};
ghost use Rattle.std.specs.Option.{option_map};
ghost use Rattle.scw_code.specs.Jump.{starts};
ghost use Rattle.scw_classfile.specs.Codec.{fault_in, parsed};
ghost use Rattle.scw_classfile.specs.Code.{code_array, code_flaw, code_length, code_or_fault, fault_place, index_by, index_in, instr_flaw, operand, operand_flaw, parse_code, read_code, starts_in};
ghost use Rattle.scw_classfile.specs.Gives.{Gives};

use crate::class_rule::ClassRule;
use crate::context::Context;
use crate::fault::{Fault, Flaw, ReadFault};
use crate::flaw::{first_of_two, unless};
use crate::index::{Expected, is_index};
use crate::number::{bytes_at, u4_at};
use scw_code::{
    CodeFault, Decoded, Form, Instr, InstrArgs, Instrs, decode, form_of, starts, write_code,
};
use std::alloc::{AllocError, Global};

/// What the index is asked to name that is the first operand of an opcode of this form (JVMS 6.5).
fn index_in(form: Form) -> Option<Expected>
    ensures { result ≡ index_in form }
{
    match form {
        Form::Bare
        | Form::Byte
        | Form::Short
        | Form::Slot
        | Form::Increment
        | Form::Jump
        | Form::FarJump
        | Form::ElementType
        | Form::TableSwitch
        | Form::LookupSwitch
        | Form::Wide => None,
        Form::Constant | Form::WideConstant => Some(Expected::Constant),
        Form::LongConstant => Some(Expected::LongConstant),
        Form::Field => Some(Expected::Fieldref),
        Form::VirtualCall => Some(Expected::Methodref),
        Form::DirectCall => Some(Expected::DirectMethodref),
        Form::InterfaceCall => Some(Expected::InterfaceMethodref),
        Form::DynamicCall => Some(Expected::InvokeDynamic),
        Form::Class | Form::Dimensions => Some(Expected::Class),
    }
}

fn index_by(form: Option<Form>) -> Option<Expected>
    ensures { result ≡ index_by form }
{
    match form {
        None => None,
        Some(form) => index_in(form),
    }
}

/// The pool index among the operands.
fn operand(args: &InstrArgs) -> u32
    ensures { result ≡ operand args.now }
{
    match args {
        InstrArgs::Plain(numbers) => numbers.first().unsigned_abs(),
        InstrArgs::Table(_) | InstrArgs::Lookup(_) | InstrArgs::Wide { .. } => 0,
    }
}

fn operand_flaw(context: Context<'_>, args: &InstrArgs, expected: Option<Expected>) -> Option<Flaw>
    ensures { result ≡ operand_flaw context.entry.major context.entry.kinds.now args.now expected }
{
    match expected {
        None => None,
        Some(expected) => {
            let index = operand(args) as usize;
            unless(
                is_index(context.major, context.kinds, expected, index),
                ClassRule::Index,
                1,
            )
        }
    }
}

/// The flaw of an instruction: a jump to no opcode, or an index that names nothing that may stand there.
#[tactic(auto, unfolding(crate::specs::Code::instr_flaw))]
fn instr_flaw(context: Context<'_>, starts: &[bool], at: usize, instr: &Instr) -> Option<Flaw>
    ensures { result ≡ instr_flaw context.entry.major context.entry.kinds.now starts.now at instr.now }
{
    first_of_two(
        unless(instr.jumps_well(at, starts), ClassRule::Code, 0),
        operand_flaw(context, &instr.args, index_by(form_of(instr.op))),
    )
}

/// The first fault of instructions, in code that begins where so many bytes are left.
fn instrs_fault(
    context: Context<'_>,
    left: usize,
    marks: &[bool],
    instrs: &[Instr],
) -> Option<Fault>
    requires { length (starts instrs.now) ≤ length marks.now }
    ensures { result ≡ option_map (fault_in left) (code_flaw context.entry.major context.entry.kinds.now marks.now instrs.now) }
{
    let mut at = 0;
    for instr in instrs {
        match instr_flaw(context, marks, at, instr) {
            Some(flaw) => return Some(flaw.in_part(left.saturating_sub(at))),
            None => {}
        }
        at += instr.size(at);
    }
    None
}

fn fault_place(fault: CodeFault) -> u32
    ensures { result ≡ fault_place fault }
{
    match fault {
        CodeFault::BadOpcode { place, .. }
        | CodeFault::BadSwitch { place }
        | CodeFault::Cut { place } => place,
        CodeFault::NoMemory => 0,
    }
}

/// For each byte of the code whether an opcode may be there: behind a fault none is known, and a jump to
/// there isn't judged.
fn starts_in(alloc: Global, size: usize, decoded: &Decoded) -> Result<Vec<bool>, AllocError>
    ensures { IfOk result (λ marks. marks.items ≡ starts_in size decoded.now) }
{
    let mut marks = starts(alloc, decoded.instrs.as_slice())?;
    if decoded.fault.is_some() {
        let unread = vec![in alloc; true; size.saturating_sub(marks.len())]?;
        marks.extend_from_slice(&unread)?;
    }
    Ok(marks)
}

/// The instructions in code that begins where so many bytes are left, and where they begin.
#[tactic(auto, unfolding(crate::specs::Code::parse_code))]
fn parse_code(
    alloc: Global,
    context: Context<'_>,
    left: usize,
    bytes: &[u8],
) -> Result<(Instrs, Vec<bool>), ReadFault>
    ensures read { (rest : List ℕ) → Gives (λ x. (x.0, rest)) result (parsed left rest (parse_code context.entry.major context.entry.kinds.now bytes.now)) }
    ensures starts { IfOk result (λ x. x.1.items ≡ starts x.0) }
{
    let decoded = decode(alloc, bytes)?;
    let marks = starts_in(alloc, bytes.len(), &decoded)?;
    match instrs_fault(context, left, &marks, decoded.instrs.as_slice()) {
        Some(fault) => Err(ReadFault::Broken(fault)),
        None => code_or_fault(left, decoded.instrs, marks, decoded.fault),
    }
}

/// The instructions, unless there is a fault behind them.
fn code_or_fault(
    left: usize,
    instrs: Instrs,
    marks: Vec<bool>,
    fault: Option<CodeFault>,
) -> Result<(Instrs, Vec<bool>), ReadFault>
    requires { IsNone fault → marks.items ≡ starts instrs }
    ensures read { (rest : List ℕ) → Gives (λ x. (x.0, rest)) result (parsed left rest (code_or_fault instrs fault)) }
    ensures starts { IfOk result (λ x. x.1.items ≡ starts x.0) }
{
    match fault {
        None => Ok((instrs, marks)),
        Some(fault) => {
            let flaw = Flaw {
                rule: ClassRule::Code,
                after: fault_place(fault) as usize,
            };
            Err(ReadFault::Broken(flaw.in_part(left)))
        }
    }
}

/// `code_length`, above 0 and below 65536.
fn code_length_at(bytes: &[u8]) -> Result<(u32, &[u8]), ReadFault>
    ensures { Gives (λ x. (x.0, x.1.now)) result (code_length.read bytes.now) }
{
    let (count, rest) = u4_at(bytes)?;
    if 0 < count && count < 65536 {
        Ok((count, rest))
    } else {
        Err(ReadFault::Broken(Fault {
            rule: ClassRule::Code,
            left: bytes.len(),
        }))
    }
}

/// The instructions in the first `count` bytes, where they begin, and the bytes after them.
fn code_of<'b>(
    alloc: Global,
    context: Context<'_>,
    count: usize,
    bytes: &'b [u8],
) -> Result<((Instrs, Vec<bool>), &'b [u8]), ReadFault>
    ensures read { Gives (λ x. (x.0.0, x.1.now)) result (read_code context.entry.major context.entry.kinds.now count bytes.now) }
    ensures starts { IfOk result (λ x. x.0.1.items ≡ starts x.0.0) }
{
    let (front, rest) = bytes_at(count, bytes)?;
    let code = parse_code(alloc, context, bytes.len(), front)?;
    Ok((code, rest))
}

/// `code_length` and `code`: the instructions, and where they begin.
pub fn code_array_at<'b>(
    alloc: Global,
    context: Context<'_>,
    bytes: &'b [u8],
) -> Result<((Instrs, Vec<bool>), &'b [u8]), ReadFault>
    ensures read { Gives (λ x. (x.0.0, x.1.now)) result ((code_array context.entry.major context.entry.kinds.now).read bytes.now) }
    ensures starts { IfOk result (λ x. x.0.1.items ≡ starts x.0.0) }
{
    let (count, rest) = code_length_at(bytes)?;
    code_of(alloc, context, count as usize, rest)
}

/// Writes `code_length` and `code`.
pub fn write_code_array(instrs: &[Instr], out: &mut Vec<u8>) -> Result<(), AllocError>
    requires { IsTrue ((code_array 0 []).counts instrs.now) }
    ensures { OnOk result (out.new.items ≡ out.old.items ++ (code_array 0 []).spell instrs.now) }
{
    let mut code = Vec::new(*out.allocator());
    write_code(instrs, &mut code)?;
    let count = code.len() as u32;
    out.extend_from_slice(&count.to_be_bytes())?;
    out.extend_from_slice(&code)
}

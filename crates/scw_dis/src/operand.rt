//! The operands of instructions: JVMS 6.5.

ghost use Rattle.std.specs.List.{flat_map};
ghost use Rattle.std.specs.Prelude.{◌≡◌, ◌++◌, ◌<◌, ◌^◌, OnOk};
ghost use Rattle.scw_dis.specs.Instruction.{args_text, bounds_text, case_text, index_text, lookup_text, number_text, numbers_text, operand_by, operand_of, operand_text, table_text, target_text, wide_text};

use crate::characters::{write_ascii, write_number, write_signed, write_spaced};
use crate::entry::write_constant;
use crate::mnemonic::write_mnemonic;
use scw_classfile::PoolEntry;
use scw_code::{Form, InstrArgs, LookupSwitch, Numbers, TableSwitch};
use std::alloc::AllocError;

/// What the first operand of an opcode is.
#[derive(Clone, Copy, Debug, PartialEq, Eq)]
pub enum Operand {
    /// A number that is shown as it is.
    Number,
    /// An index of the constant pool.
    Constant,
    /// A distance to an instruction.
    Target,
}

/// What the first operand of an opcode of this form is (JVMS 6.5).
fn operand_of(form: Form) -> Operand
    ensures { result ≡ operand_of form }
{
    match form {
        Form::Bare
        | Form::Byte
        | Form::Short
        | Form::Slot
        | Form::Increment
        | Form::ElementType
        | Form::TableSwitch
        | Form::LookupSwitch
        | Form::Wide => Operand::Number,
        Form::Jump | Form::FarJump => Operand::Target,
        Form::Constant
        | Form::WideConstant
        | Form::LongConstant
        | Form::Field
        | Form::VirtualCall
        | Form::DirectCall
        | Form::InterfaceCall
        | Form::DynamicCall
        | Form::Class
        | Form::Dimensions => Operand::Constant,
    }
}

/// What the first operand of an opcode of this form is, which is a number where there is no such opcode.
pub fn operand_by(form: Option<Form>) -> Operand
    ensures { result ≡ operand_by form }
{
    match form {
        None => Operand::Number,
        Some(form) => operand_of(form),
    }
}

/// Writes a number behind a space.
#[tactic(auto, unfolding(crate::specs::Instruction::number_text))]
fn write_operand(n: i32, out: &mut Vec<char>) -> Result<(), AllocError>
    ensures { OnOk result (out.new.items ≡ out.old.items ++ number_text n) }
{
    write_ascii(b" ", out)?;
    write_signed(i64::from(n), out)
}

/// Writes the place at this distance from the place of the opcode, behind a space. It has a sign where it is before the
/// code.
#[tactic(auto, unfolding(crate::specs::Instruction::number_text, crate::specs::Instruction::target_text))]
fn write_target(at: usize, distance: i32, out: &mut Vec<char>) -> Result<(), AllocError>
    requires { at < 2 ^ 63 }
    ensures { OnOk result (out.new.items ≡ out.old.items ++ target_text at distance) }
{
    let bytes = distance.unsigned_abs() as usize;
    if 0 <= distance {
        write_spaced((at + bytes) as u64, out)
    } else if bytes <= at {
        write_spaced((at - bytes) as u64, out)
    } else {
        write_ascii(b" -", out)?;
        write_number((bytes - at) as u64, out)
    }
}

/// Writes the text of the entry at the index, behind a space.
#[tactic(auto, unfolding(crate::specs::Instruction::index_text))]
fn write_index(pool: &[PoolEntry], n: i32, out: &mut Vec<char>) -> Result<(), AllocError>
    ensures { OnOk result (out.new.items ≡ out.old.items ++ index_text pool.now n) }
{
    write_ascii(b" ", out)?;
    write_constant(pool, n.unsigned_abs() as usize, out)
}

/// Writes the first operand.
fn write_first(
    pool: &[PoolEntry],
    at: usize,
    first: Operand,
    n: i32,
    out: &mut Vec<char>,
) -> Result<(), AllocError>
    requires { at < 2 ^ 63 }
    ensures { OnOk result (out.new.items ≡ out.old.items ++ operand_text pool.now at first n) }
{
    match first {
        Operand::Number => write_operand(n, out),
        Operand::Constant => write_index(pool, n, out),
        Operand::Target => write_target(at, n, out),
    }
}

/// Writes up to three operands, the first of which is of this kind (JVMS 6.5).
fn write_numbers(
    pool: &[PoolEntry],
    at: usize,
    first: Operand,
    numbers: Numbers,
    out: &mut Vec<char>,
) -> Result<(), AllocError>
    requires { at < 2 ^ 63 }
    ensures { OnOk result (out.new.items ≡ out.old.items ++ numbers_text (operand_text pool.now at first) numbers) }
{
    match numbers {
        Numbers::Zero => Ok(()),
        Numbers::One(a) => write_first(pool, at, first, a, out),
        Numbers::Two(a, b) => {
            write_first(pool, at, first, a, out)?;
            write_operand(b, out)
        }
        Numbers::Three(a, b, c) => {
            write_first(pool, at, first, a, out)?;
            write_operand(b, out)?;
            write_operand(c, out)
        }
    }
}

/// Writes the places at these distances.
fn write_targets(at: usize, distances: &[i32], out: &mut Vec<char>) -> Result<(), AllocError>
    requires { at < 2 ^ 63 }
    ensures { OnOk result (out.new.items ≡ out.old.items ++ flat_map (target_text at) distances.now) }
{
    for distance in distances {
        write_target(at, *distance, out)?;
    }
    Ok(())
}

/// Writes the low and the high number of `tableswitch`.
#[tactic(auto, unfolding(crate::specs::Instruction::bounds_text))]
fn write_bounds(low: i32, high: i32, out: &mut Vec<char>) -> Result<(), AllocError>
    ensures { OnOk result (out.new.items ≡ out.old.items ++ bounds_text low high) }
{
    write_operand(low, out)?;
    write_operand(high, out)
}

/// Writes the operands of `tableswitch` (JVMS 6.5).
fn write_table(at: usize, table: &TableSwitch, out: &mut Vec<char>) -> Result<(), AllocError>
    requires { at < 2 ^ 63 }
    ensures { OnOk result (out.new.items ≡ out.old.items ++ table_text at table.now) }
{
    write_target(at, table.default, out)?;
    write_bounds(table.low, table.high, out)?;
    write_targets(at, table.jumps.as_slice(), out)
}

/// Writes a key and its target.
fn write_case(at: usize, pair: (i32, i32), out: &mut Vec<char>) -> Result<(), AllocError>
    requires { at < 2 ^ 63 }
    ensures { OnOk result (out.new.items ≡ out.old.items ++ case_text at pair) }
{
    write_operand(pair.0, out)?;
    write_target(at, pair.1, out)
}

/// Writes keys and their targets.
fn write_cases(at: usize, pairs: &[(i32, i32)], out: &mut Vec<char>) -> Result<(), AllocError>
    requires { at < 2 ^ 63 }
    ensures { OnOk result (out.new.items ≡ out.old.items ++ flat_map (case_text at) pairs.now) }
{
    for pair in pairs {
        write_case(at, *pair, out)?;
    }
    Ok(())
}

/// Writes the operands of `lookupswitch` (JVMS 6.5).
fn write_lookup(at: usize, lookup: &LookupSwitch, out: &mut Vec<char>) -> Result<(), AllocError>
    requires { at < 2 ^ 63 }
    ensures { OnOk result (out.new.items ≡ out.old.items ++ lookup_text at lookup.now) }
{
    write_target(at, lookup.default, out)?;
    write_cases(at, lookup.pairs.as_slice(), out)
}

/// Writes the further opcode behind `wide`, and its operands (JVMS 6.5).
fn write_wide(
    pool: &[PoolEntry],
    at: usize,
    opcode: u8,
    numbers: Numbers,
    out: &mut Vec<char>,
) -> Result<(), AllocError>
    requires { at < 2 ^ 63 }
    ensures { OnOk result (out.new.items ≡ out.old.items ++ wide_text opcode numbers) }
{
    write_ascii(b" ", out)?;
    write_mnemonic(opcode, out)?;
    write_numbers(pool, at, Operand::Number, numbers, out)
}

/// Writes the operands of an opcode at the place, the first of which is of this kind.
pub fn write_args(
    pool: &[PoolEntry],
    at: usize,
    first: Operand,
    args: &InstrArgs,
    out: &mut Vec<char>,
) -> Result<(), AllocError>
    requires { at < 2 ^ 63 }
    ensures { OnOk result (out.new.items ≡ out.old.items ++ args_text pool.now at first args.now) }
{
    match args {
        InstrArgs::Plain(numbers) => write_numbers(pool, at, first, *numbers, out),
        InstrArgs::Table(table) => write_table(at, table.get(), out),
        InstrArgs::Lookup(lookup) => write_lookup(at, lookup.get(), out),
        InstrArgs::Wide { op, args } => write_wide(pool, at, *op, *args, out),
    }
}

//! The lines of instructions: JVMS 6.5.

ghost use Rattle.std.specs.Prelude.{◌≡◌, ◌<◌, ◌^◌, ◌++◌, length, OnOk};
ghost use Rattle.scw_code.specs.Jump.{starts};
ghost use Rattle.scw_dis.specs.Instruction.{instr_line, instr_lines, instr_text};

use crate::characters::{write_ascii, write_number};
use crate::mnemonic::write_mnemonic;
use crate::operand::{operand_by, write_args};
use scw_classfile::PoolEntry;
use scw_code::{Instr, form_of};
use std::alloc::AllocError;

/// Writes the mnemonic and the operands of the instruction at the place.
fn write_instr(
    pool: &[PoolEntry],
    at: usize,
    instr: &Instr,
    out: &mut Vec<char>,
) -> Result<(), AllocError>
    requires { at < 2 ^ 63 }
    ensures { OnOk result (out.new.items ≡ out.old.items ++ instr_text pool.now at instr.now) }
{
    write_mnemonic(instr.op, out)?;
    write_args(pool, at, operand_by(form_of(instr.op)), &instr.args, out)
}

/// Writes the line of the instruction at the place.
#[tactic(auto, unfolding(crate::specs::Instruction::instr_line))]
fn write_instr_line(
    pool: &[PoolEntry],
    at: usize,
    instr: &Instr,
    out: &mut Vec<char>,
) -> Result<(), AllocError>
    requires { at < 2 ^ 63 }
    ensures { OnOk result (out.new.items ≡ out.old.items ++ instr_line pool.now at instr.now) }
{
    write_ascii(b"  ", out)?;
    write_number(at as u64, out)?;
    write_ascii(b": ", out)?;
    write_instr(pool, at, instr, out)?;
    write_ascii(b"\n", out)
}

/// Writes the lines of the instructions of code that takes `size` bytes.
pub fn write_instrs(
    pool: &[PoolEntry],
    size: usize,
    instrs: &[Instr],
    out: &mut Vec<char>,
) -> Result<(), AllocError>
    requires size { size ≡ length (starts instrs.now) }
    requires bound { size < 2 ^ 63 }
    ensures { OnOk result (out.new.items ≡ out.old.items ++ instr_lines pool.now 0 instrs.now) }
{
    let mut at = 0;
    for instr in instrs {
        write_instr_line(pool, at, instr, out)?;
        at += instr.size(at);
    }
    Ok(())
}

//! Bytes from instructions (JVMS 6.5).

ghost use Rattle.std.specs.Prelude.{◌≡◌, ◌++◌, IfOk, IsTrue, OnOk};
ghost use Rattle.scw_code.specs.Code.{code_bytes, code_fits};
ghost use Rattle.scw_code.specs.Instr.{args_of, instr_bytes, instr_fits, wide};
ghost use Rattle.scw_code.specs.Layout.{shape_at};
ghost use Rattle.scw_code.specs.declared.instr.InstrArgs.TheVariants as args;

use crate::instr::{Instr, InstrArgs, Numbers};
use crate::layout::{Shape, shape_at, wide_layout_at};
use crate::switch::{padding, write_lookup, write_padding, write_table};
use scw_text::{Bytes, NoMemory};
use sqlite_items::Items;
use std::alloc::{AllocError, Global};

/// The opcode behind `wide`, and its operands.
fn write_wide(op: u8, numbers: Numbers, out: &mut Vec<u8>) -> Result<(), AllocError>
    requires { IsTrue (wide.fits (op, numbers)) }
    ensures { OnOk result (out.new.items ≡ out.old.items ++ wide.spell (op, numbers)) }
{
    out.push(op)?;
    match wide_layout_at(op) {
        Some(layout) => layout.write(numbers, out),
        None => Ok(()),
    }
}

/// The numbers behind an opcode that has numbers alone.
fn write_plain(op: u8, numbers: Numbers, out: &mut Vec<u8>) -> Result<(), AllocError>
    requires { IsTrue ((args_of 0 op (shape_at op)).fits (args.Plain numbers)) }
    ensures { OnOk result (out.new.items ≡ out.old.items ++ (args_of 0 op (shape_at op)).spell (args.Plain numbers)) }
{
    match shape_at(op) {
        Some(Shape::Plain(layout)) => layout.write(numbers, out),
        Some(Shape::Table) | Some(Shape::Lookup) | Some(Shape::Wide) | None => Ok(()),
    }
}

/// What stands behind the opcode at the place.
fn write_args(at: usize, op: u8, operands: &InstrArgs, out: &mut Vec<u8>) -> Result<(), AllocError>
    requires { IsTrue ((args_of at op (shape_at op)).fits operands.now) }
    ensures { OnOk result (out.new.items ≡ out.old.items ++ (args_of at op (shape_at op)).spell operands.now) }
{
    match operands {
        InstrArgs::Plain(numbers) => write_plain(op, *numbers, out),
        InstrArgs::Table(table) => {
            write_padding(padding(at), out)?;
            write_table(table.get(), out)
        }
        InstrArgs::Lookup(lookup) => {
            write_padding(padding(at), out)?;
            write_lookup(lookup.get(), out)
        }
        InstrArgs::Wide { op, args } => write_wide(*op, *args, out),
    }
}

/// The instruction whose opcode is at the place.
fn write_instr(at: usize, instr: &Instr, out: &mut Vec<u8>) -> Result<(), AllocError>
    requires { IsTrue (instr_fits instr.now) }
    ensures { OnOk result (out.new.items ≡ out.old.items ++ instr_bytes at instr.now) }
{
    out.push(instr.op)?;
    write_args(at, instr.op, &instr.args, out)
}

/// Writes the bytes of the instructions behind what is there, or fails where memory runs out. Places are
/// counted from the first instruction.
pub fn write_code(instrs: &[Instr], out: &mut Vec<u8>) -> Result<(), AllocError>
    requires { IsTrue (code_fits instrs.now) }
    ensures { OnOk result (out.new.items ≡ out.old.items ++ code_bytes instrs.now) }
{
    let start = out.len();
    for instr in instrs {
        write_instr(out.len().saturating_sub(start), instr, out)?;
    }
    Ok(())
}

/// The bytes of the instructions (JVMS 6.5), or `NoMemory` where memory runs out.
pub fn encode_code(alloc: Global, instrs: &[Instr]) -> Result<Bytes, NoMemory>
    requires { IsTrue (code_fits instrs.now) }
    ensures { IfOk result (λ bytes. bytes ≡ code_bytes instrs.now) }
{
    let mut out = Vec::new(alloc);
    write_code(instrs, &mut out)?;
    Ok(Items::from_vec(out))
}

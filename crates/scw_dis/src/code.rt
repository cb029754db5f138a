//! The lines of a method's code: JVMS 4.7.3.

ghost use Rattle.std.specs.List.{flat_map};
ghost use Rattle.std.specs.Prelude.{◌≡◌, ◌++◌, OnOk};
ghost use Rattle.scw_dis.specs.Code.{attribute_code, caught, code_text, handler_line, places_text, sizes_line};
ghost use Rattle.scw_dis.specs.Instruction.{instr_lines};

use crate::attribute::write_attributes;
use crate::characters::{write_ascii, write_spaced};
use crate::entry::write_class_name;
use crate::instruction::write_instrs;
use scw_classfile::{AttrBody, Attribute, Code, Handler, PoolEntry};
use scw_code::{Instr, starts};
use std::alloc::{AllocError, Global};

/// Writes the line of the depth of the stack and the number of local variables.
fn write_sizes(stack: u16, locals: u16, out: &mut Vec<char>) -> Result<(), AllocError>
    ensures { OnOk result (out.new.items ≡ out.old.items ++ sizes_line stack locals) }
{
    write_ascii(b"  stack", out)?;
    write_spaced(u64::from(stack), out)?;
    write_ascii(b" locals", out)?;
    write_spaced(u64::from(locals), out)?;
    write_ascii(b"\n", out)
}

/// Writes the places of a handler, each behind a space.
fn write_places(handler: &Handler, out: &mut Vec<char>) -> Result<(), AllocError>
    ensures { OnOk result (out.new.items ≡ out.old.items ++ places_text handler.now) }
{
    write_spaced(u64::from(handler.from), out)?;
    write_spaced(u64::from(handler.to), out)?;
    write_spaced(u64::from(handler.at), out)
}

/// Writes the class of the exceptions that a handler catches, or `any`.
fn write_caught(pool: &[PoolEntry], class: u16, out: &mut Vec<char>) -> Result<(), AllocError>
    ensures { OnOk result (out.new.items ≡ out.old.items ++ caught pool.now class) }
{
    if class == 0 {
        write_ascii(b"any", out)
    } else {
        write_class_name(pool, class, out)
    }
}

/// Writes the line of a handler.
fn write_handler(
    pool: &[PoolEntry],
    handler: &Handler,
    out: &mut Vec<char>,
) -> Result<(), AllocError>
    ensures { OnOk result (out.new.items ≡ out.old.items ++ handler_line pool.now handler.now) }
{
    write_ascii(b"  catch", out)?;
    write_places(handler, out)?;
    write_ascii(b" ", out)?;
    write_caught(pool, handler.class, out)?;
    write_ascii(b"\n", out)
}

/// Writes the lines of handlers.
fn write_handlers(
    pool: &[PoolEntry],
    handlers: &[Handler],
    out: &mut Vec<char>,
) -> Result<(), AllocError>
    ensures { OnOk result (out.new.items ≡ out.old.items ++ flat_map (handler_line pool.now) handlers.now) }
{
    for handler in handlers {
        write_handler(pool, handler, out)?;
    }
    Ok(())
}

/// Writes the lines of the instructions. A list with a mark for each of their bytes bounds their places.
fn write_instr_lines(
    alloc: Global,
    pool: &[PoolEntry],
    instrs: &[Instr],
    out: &mut Vec<char>,
) -> Result<(), AllocError>
    ensures { OnOk result (out.new.items ≡ out.old.items ++ instr_lines pool.now 0 instrs.now) }
{
    let marks = starts(alloc, instrs)?;
    write_instrs(pool, marks.len(), instrs, out)
}

/// Writes the lines of code.
fn write_code(
    alloc: Global,
    pool: &[PoolEntry],
    code: &Code,
    out: &mut Vec<char>,
) -> Result<(), AllocError>
    ensures { OnOk result (out.new.items ≡ out.old.items ++ code_text pool.now code.now) }
{
    write_sizes(code.stack, code.locals, out)?;
    write_instr_lines(alloc, pool, code.code.as_slice(), out)?;
    write_handlers(pool, code.handlers.as_slice(), out)?;
    write_attributes(pool, b"    ", code.attributes.as_slice(), out)
}

/// Writes the lines of the code, if the attribute is that.
fn write_attribute_code(
    alloc: Global,
    pool: &[PoolEntry],
    attribute: &Attribute,
    out: &mut Vec<char>,
) -> Result<(), AllocError>
    ensures { OnOk result (out.new.items ≡ out.old.items ++ attribute_code pool.now attribute.now) }
{
    match &attribute.body {
        AttrBody::Code(code) => write_code(alloc, pool, code, out),
        AttrBody::Other(_) => Ok(()),
    }
}

/// Writes the lines of the code that is among a method's attributes.
pub fn write_own_code(
    alloc: Global,
    pool: &[PoolEntry],
    attributes: &[Attribute],
    out: &mut Vec<char>,
) -> Result<(), AllocError>
    ensures { OnOk result (out.new.items ≡ out.old.items ++ flat_map (attribute_code pool.now) attributes.now) }
{
    for attribute in attributes {
        write_attribute_code(alloc, pool, attribute, out)?;
    }
    Ok(())
}

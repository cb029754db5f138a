//! The text of a class: JVMS 4.1.

ghost use Rattle.std.specs.List.{flat_map};
ghost use Rattle.std.specs.Prelude.{◌≡◌, ◌++◌, IfOk, OnOk};
ghost use Rattle.scw_dis.specs.Class.{class_line, flags_line, head_text, interface_line, members_text, super_line, text_of, version_line};

use crate::attribute::write_attributes;
use crate::characters::{write_ascii, write_flags, write_number};
use crate::entry::write_class_name;
use crate::member::{write_fields, write_methods};
use scw_classfile::{ClassFile, PoolEntry};
use scw_text::{NoMemory, Text};
use sqlite_items::Items;
use std::alloc::{AllocError, Global};

/// Writes a word, and the name of the class at the index behind it.
fn write_class_line(
    pool: &[PoolEntry],
    word: &[u8],
    n: u16,
    out: &mut Vec<char>,
) -> Result<(), AllocError>
    ensures { OnOk result (out.new.items ≡ out.old.items ++ class_line pool.now word.now n) }
{
    write_ascii(word, out)?;
    write_class_name(pool, n, out)?;
    write_ascii(b"\n", out)
}

/// Writes the line of the version.
fn write_version(major: u16, minor: u16, out: &mut Vec<char>) -> Result<(), AllocError>
    ensures { OnOk result (out.new.items ≡ out.old.items ++ version_line major minor) }
{
    write_ascii(b"version ", out)?;
    write_number(u64::from(major), out)?;
    write_ascii(b".", out)?;
    write_number(u64::from(minor), out)?;
    write_ascii(b"\n", out)
}

/// Writes the line of the class's flags.
fn write_flags_line(flags: u16, out: &mut Vec<char>) -> Result<(), AllocError>
    ensures { OnOk result (out.new.items ≡ out.old.items ++ flags_line flags) }
{
    write_ascii(b"flags ", out)?;
    write_flags(flags, out)?;
    write_ascii(b"\n", out)
}

/// Writes the line of the superclass, if there is one.
fn write_super(pool: &[PoolEntry], n: u16, out: &mut Vec<char>) -> Result<(), AllocError>
    ensures { OnOk result (out.new.items ≡ out.old.items ++ super_line pool.now n) }
{
    if n == 0 {
        Ok(())
    } else {
        write_class_line(pool, b"super ", n, out)
    }
}

/// Writes the lines of the class's own name, version, flags and superclass.
fn write_head(class: &ClassFile, out: &mut Vec<char>) -> Result<(), AllocError>
    ensures { OnOk result (out.new.items ≡ out.old.items ++ head_text class.now) }
{
    let pool = class.pool.as_slice();
    write_class_line(pool, b"class ", class.this, out)?;
    write_version(class.major, class.minor, out)?;
    write_flags_line(class.flags.0, out)?;
    write_super(pool, class.parent, out)
}

/// Writes the line of an interface.
#[tactic(auto, unfolding(crate::specs::Class::interface_line))]
fn write_interface(pool: &[PoolEntry], n: u16, out: &mut Vec<char>) -> Result<(), AllocError>
    ensures { OnOk result (out.new.items ≡ out.old.items ++ interface_line pool.now n) }
{
    write_class_line(pool, b"implements ", n, out)
}

/// Writes the lines of interfaces.
fn write_interfaces(
    pool: &[PoolEntry],
    interfaces: &[u16],
    out: &mut Vec<char>,
) -> Result<(), AllocError>
    ensures { OnOk result (out.new.items ≡ out.old.items ++ flat_map (interface_line pool.now) interfaces.now) }
{
    for interface in interfaces {
        write_interface(pool, *interface, out)?;
    }
    Ok(())
}

/// Writes the lines of the fields and of the methods.
fn write_members(alloc: Global, class: &ClassFile, out: &mut Vec<char>) -> Result<(), AllocError>
    ensures { OnOk result (out.new.items ≡ out.old.items ++ members_text class.now) }
{
    let pool = class.pool.as_slice();
    write_fields(pool, class.fields.as_slice(), out)?;
    write_methods(alloc, pool, class.methods.as_slice(), out)
}

/// The text of the class: its own lines, and those of its fields, its methods and their code.
///
/// # Errors
///
/// `NoMemory` where memory runs out.
#[tactic(auto, unfolding(crate::specs::Class::text_of))]
pub fn dis(alloc: Global, class: &ClassFile) -> Result<Text, NoMemory>
    ensures { IfOk result (λ text. text ≡ text_of class.now) }
{
    let mut out = Vec::new(alloc);
    let pool = class.pool.as_slice();
    write_head(class, &mut out)?;
    write_interfaces(pool, class.interfaces.as_slice(), &mut out)?;
    write_attributes(pool, b"  ", class.attributes.as_slice(), &mut out)?;
    write_members(alloc, class, &mut out)?;
    Ok(Items::from_vec(out))
}

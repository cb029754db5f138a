//! The lines of fields and methods: JVMS 4.5 and 4.6.

ghost use Rattle.std.specs.List.{flat_map};
ghost use Rattle.std.specs.Prelude.{◌≡◌, ◌++◌, OnOk};
ghost use Rattle.scw_dis.specs.Class.{field_text, member_line, method_text};

use crate::attribute::write_attributes;
use crate::characters::{write_ascii, write_flags};
use crate::code::write_own_code;
use crate::entry::write_pair;
use scw_classfile::{MemberInfo, PoolEntry};
use std::alloc::{AllocError, Global};

/// Writes a word, and a member's flags, name and descriptor behind it.
#[tactic(auto, unfolding(crate::specs::Class::member_line))]
fn write_member_line(
    pool: &[PoolEntry],
    kind: &[u8],
    member: &MemberInfo,
    out: &mut Vec<char>,
) -> Result<(), AllocError>
    ensures { OnOk result (out.new.items ≡ out.old.items ++ member_line pool.now kind.now member.now) }
{
    write_ascii(kind, out)?;
    write_flags(member.flags.0, out)?;
    write_ascii(b" ", out)?;
    write_pair(pool, (member.name, member.descriptor), out)?;
    write_ascii(b"\n", out)
}

/// Writes the lines of a field (JVMS 4.5).
#[tactic(auto, unfolding(crate::specs::Class::field_text))]
fn write_field(
    pool: &[PoolEntry],
    field: &MemberInfo,
    out: &mut Vec<char>,
) -> Result<(), AllocError>
    ensures { OnOk result (out.new.items ≡ out.old.items ++ field_text pool.now field.now) }
{
    write_member_line(pool, b"field ", field, out)?;
    write_attributes(pool, b"  ", field.attributes.as_slice(), out)
}

/// Writes the lines of fields.
pub fn write_fields(
    pool: &[PoolEntry],
    fields: &[MemberInfo],
    out: &mut Vec<char>,
) -> Result<(), AllocError>
    ensures { OnOk result (out.new.items ≡ out.old.items ++ flat_map (field_text pool.now) fields.now) }
{
    for field in fields {
        write_field(pool, field, out)?;
    }
    Ok(())
}

/// Writes the lines of a method, its code before its other attributes (JVMS 4.6).
#[tactic(auto, unfolding(crate::specs::Class::method_text))]
fn write_method(
    alloc: Global,
    pool: &[PoolEntry],
    method: &MemberInfo,
    out: &mut Vec<char>,
) -> Result<(), AllocError>
    ensures { OnOk result (out.new.items ≡ out.old.items ++ method_text pool.now method.now) }
{
    write_member_line(pool, b"method ", method, out)?;
    write_own_code(alloc, pool, method.attributes.as_slice(), out)?;
    write_attributes(pool, b"  ", method.attributes.as_slice(), out)
}

/// Writes the lines of methods.
pub fn write_methods(
    alloc: Global,
    pool: &[PoolEntry],
    methods: &[MemberInfo],
    out: &mut Vec<char>,
) -> Result<(), AllocError>
    ensures { OnOk result (out.new.items ≡ out.old.items ++ flat_map (method_text pool.now) methods.now) }
{
    for method in methods {
        write_method(alloc, pool, method, out)?;
    }
    Ok(())
}

//! The lines of attributes other than `Code`: JVMS 4.7.

ghost use Rattle.std.specs.Prelude.{◌≡◌, ◌++◌, OnOk};
ghost use Rattle.scw_dis.specs.Code.{attribute_line, attribute_lines};

use crate::characters::{write_ascii, write_spaced};
use crate::entry::write_text;
use scw_classfile::{AttrBody, Attribute, PoolEntry};
use std::alloc::AllocError;

/// Writes the line of an attribute behind a margin, and nothing of a `Code`.
fn write_attribute(
    pool: &[PoolEntry],
    margin: &[u8],
    attribute: &Attribute,
    out: &mut Vec<char>,
) -> Result<(), AllocError>
    ensures { OnOk result (out.new.items ≡ out.old.items ++ attribute_line pool.now margin.now attribute.now) }
{
    match &attribute.body {
        AttrBody::Code(_) => Ok(()),
        AttrBody::Other(bytes) => {
            write_ascii(margin, out)?;
            write_ascii(b"attribute ", out)?;
            write_text(pool, attribute.name, out)?;
            write_spaced(bytes.len() as u64, out)?;
            write_ascii(b"\n", out)
        }
    }
}

/// Writes the lines of attributes behind a margin.
pub fn write_attributes(
    pool: &[PoolEntry],
    margin: &[u8],
    attributes: &[Attribute],
    out: &mut Vec<char>,
) -> Result<(), AllocError>
    ensures { OnOk result (out.new.items ≡ out.old.items ++ attribute_lines pool.now margin.now attributes.now) }
{
    for attribute in attributes {
        write_attribute(pool, margin, attribute, out)?;
    }
    Ok(())
}

//! Values that stand in a class file, and lists of them.

ghost use Rattle.std.specs.List.{flat_map, list_all};
ghost use Rattle.std.specs.Prelude.{◌≡◌, ◌++◌, ℕ, [], List, Bool, IsTrue, OnOk};
ghost use Rattle.scw_classfile.specs.Codec.{Codec, counted, read_all, with_front};
ghost use Rattle.scw_classfile.specs.Gives.{Gives};
ghost use Rattle.scw_classfile.specs.declared.pool_entry.EntryKind.{EntryKind};

use crate::context::Context;
use crate::fault::ReadFault;
use crate::number::u2_at;
use sqlite_items::Items;
use std::alloc::{AllocError, Global};

/// The place of most values.
pub struct Plain;

/// A place in the list of methods.
pub struct Own;

/// A value that stands in a class file, at places of the kind `M`.
pub trait Field<M>: Sized + Drop {
    ghost codec: { ℕ → List EntryKind → List Bool → Codec Self };

    /// The value that the bytes begin with, and the bytes after it.
    fn read<'b>(
        alloc: Global,
        context: Context<'_>,
        bytes: &'b [u8],
    ) -> Result<(Self, &'b [u8]), ReadFault>
        ensures { Gives (λ x. (x.0, x.1.now)) result ((codec context.entry.major context.entry.kinds.now context.entry.starts.now).read bytes.now) };

    /// Writes the bytes of the value.
    fn write(&self, out: &mut Vec<u8>) -> Result<(), AllocError>
        requires { IsTrue ((codec 0 [] []).counts self.now) }
        ensures { OnOk result (out.new.items ≡ out.old.items ++ (codec 0 [] []).spell self.now) };
}

/// So many values, one after another.
pub fn read_times<'b, M, T: Field<M>>(
    alloc: Global,
    context: Context<'_>,
    count: u16,
    bytes: &'b [u8],
) -> Result<(Items<T>, &'b [u8]), ReadFault>
    ensures { Gives (λ x. (x.0, x.1.now)) result (read_all (T.codec context.entry.major context.entry.kinds.now context.entry.starts.now).read count bytes.now) }
{
    let mut items = Items::new(alloc);
    let mut rest = bytes;
    for _ in 0..count {
        let (item, after) = T::read(alloc, context, rest)?;
        items.push(item)?;
        rest = after;
    }
    Ok((items, rest))
}

/// A count of two bytes, and that many values.
pub fn read_counted<'b, M, T: Field<M>>(
    alloc: Global,
    context: Context<'_>,
    bytes: &'b [u8],
) -> Result<(Items<T>, &'b [u8]), ReadFault>
    ensures { Gives (λ x. (x.0, x.1.now)) result ((counted (T.codec context.entry.major context.entry.kinds.now context.entry.starts.now)).read bytes.now) }
{
    let (count, rest) = u2_at(bytes)?;
    read_times::<M, T>(alloc, context, count, rest)
}

/// The values, one after another.
pub fn write_each<M, T: Field<M>>(items: &[T], out: &mut Vec<u8>) -> Result<(), AllocError>
    requires { IsTrue (list_all (T.codec 0 [] []).counts items.now) }
    ensures { OnOk result (out.new.items ≡ out.old.items ++ flat_map (T.codec 0 [] []).spell items.now) }
{
    for item in items {
        item.write(out)?;
    }
    Ok(())
}

/// The count in two bytes, and the values.
pub fn write_counted<M, T: Field<M>>(items: &[T], out: &mut Vec<u8>) -> Result<(), AllocError>
    requires { IsTrue ((counted (T.codec 0 [] [])).counts items.now) }
    ensures { OnOk result (out.new.items ≡ out.old.items ++ (counted (T.codec 0 [] [])).spell items.now) }
{
    let count = items.len() as u16;
    out.extend_from_slice(&count.to_be_bytes())?;
    write_each::<M, T>(items, out)
}

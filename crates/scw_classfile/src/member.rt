//! Fields and methods: JVMS 4.5 and 4.6.

ghost use Rattle.std.specs.Prelude.{◌≡◌, ◌++◌, [], OnOk};
ghost use Rattle.scw_classfile.specs.Format.{descriptor, field, flags, method};
ghost use Rattle.scw_classfile.specs.Gives.{Gives};
ghost use Rattle.scw_classfile.specs.Kinds.{test_of};

use crate::access_flags::AccessFlags;
use crate::attribute::{index_at, own_list_at, write_own_list};
use crate::class_file::{Attribute, MemberInfo};
use crate::context::Context;
use crate::fault::{ReadFault, judged};
use crate::field::{Field, Own, Plain, read_counted, write_counted};
use crate::index::{Expected, TextTest, text_flaw};
use crate::number::{u2_at, write_two};
use std::alloc::{AllocError, Global};

pub fn flags_at(bytes: &[u8]) -> Result<(AccessFlags, &[u8]), ReadFault>
    ensures { Gives (λ x. (x.0, x.1.now)) result (flags.read bytes.now) }
{
    let (bits, rest) = u2_at(bytes)?;
    Ok((AccessFlags(bits), rest))
}

/// The index of a descriptor that passes the test.
fn descriptor_at<'b>(
    context: Context<'_>,
    test: TextTest,
    bytes: &'b [u8],
) -> Result<(u16, &'b [u8]), ReadFault>
    ensures { Gives (λ x. (x.0, x.1.now)) result ((descriptor context.entry.major context.entry.kinds.now (test_of test)).read bytes.now) }
{
    let (n, rest) = u2_at(bytes)?;
    let flaw = text_flaw(context.major, context.kinds, test, n, 0);
    judged(n, rest, bytes.len(), flaw)
}

/// A field (JVMS 4.5).
impl Field<Plain> for MemberInfo {
    ghost codec = { λ major kinds _. field major kinds };

    fn read<'b>(
        alloc: Global,
        context: Context<'_>,
        bytes: &'b [u8],
    ) -> Result<(MemberInfo, &'b [u8]), ReadFault> {
        let (flags, rest) = flags_at(bytes)?;
        let (name, rest) = index_at(context, Expected::Text, rest)?;
        let (descriptor, rest) = descriptor_at(context, TextTest::Field, rest)?;
        let (attributes, rest) = read_counted::<Plain, Attribute>(alloc, context, rest)?;
        let member = MemberInfo {
            flags,
            name,
            descriptor,
            attributes,
        };
        Ok((member, rest))
    }

    fn write(&self, out: &mut Vec<u8>) -> Result<(), AllocError> {
        write_two(self.flags.0, self.name, out)?;
        out.extend_from_slice(&self.descriptor.to_be_bytes())?;
        write_counted::<Plain, Attribute>(self.attributes.as_slice(), out)
    }
}

/// A method (JVMS 4.6).
impl Field<Own> for MemberInfo {
    ghost codec = { λ major kinds _. method major kinds };

    fn read<'b>(
        alloc: Global,
        context: Context<'_>,
        bytes: &'b [u8],
    ) -> Result<(MemberInfo, &'b [u8]), ReadFault> {
        let (flags, rest) = flags_at(bytes)?;
        let (name, rest) = index_at(context, Expected::Text, rest)?;
        let (descriptor, rest) = descriptor_at(context, TextTest::Method, rest)?;
        let (attributes, rest) = own_list_at(alloc, context, rest)?;
        let member = MemberInfo {
            flags,
            name,
            descriptor,
            attributes,
        };
        Ok((member, rest))
    }

    fn write(&self, out: &mut Vec<u8>) -> Result<(), AllocError> {
        write_two(self.flags.0, self.name, out)?;
        out.extend_from_slice(&self.descriptor.to_be_bytes())?;
        write_own_list(self.attributes.as_slice(), out)
    }
}

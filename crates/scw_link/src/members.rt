//! Methods and fields by class, name and descriptor (JVMS 5.4.3.2, 5.4.3.3 and 6.5).

ghost use Rattle.std.specs.Prelude.{◌≡◌, ◌+◌, ◌-◌, IfOk, is_some, sum_by, count_by, length, take, ◌<◌, slice_get, map, true, false};
ghost use Rattle.std.specs.Option.{option_copied, option_map};
ghost use Rattle.scw_link.specs.Members as m;
ghost use Rattle.scw_link.specs.Classes.{first_file, is_static, is_instance, fields_of};
ghost use Rattle.scw_link.specs.Names.{and_then};

use crate::built_in_method::{agree, built_in_method};
use crate::classes::{FIRST_FILE, fields_of, file_of, instance_fields, is_static, static_fields};
use crate::names::{is_text, utf8_at};
use crate::number::{narrow, sum};
use scw_classfile::{AttrBody, Attribute, ClassFile, Code, MemberInfo, PoolEntry};
use scw_frame::{MethodNumber, Target};
use scw_text::NoMemory;

fn is_member(pool: &[PoolEntry], name: &[u16], descriptor: &[u16], member: &MemberInfo) -> bool
    ensures { result ≡ m.is_member pool.now name.now descriptor.now member.now }
{
    is_text(utf8_at(pool, member.name), name)
        && is_text(utf8_at(pool, member.descriptor), descriptor)
}

/// The place of the first field or method of a name and a descriptor, static or not as wanted.
pub fn member_place(
    wants_static: bool,
    pool: &[PoolEntry],
    name: &[u16],
    descriptor: &[u16],
    members: &[MemberInfo],
) -> Option<usize>
    ensures { result ≡ m.member_place wants_static pool.now name.now descriptor.now members.now }
{
    members.iter().position(|member| {
        agree(wants_static, is_static(member)) && is_member(pool, name, descriptor, member)
    })
}

fn first_code(attributes: &[Attribute]) -> Option<&Code>
    ensures { option_copied result ≡ m.first_code attributes.now }
{
    for attribute in attributes {
        if let AttrBody::Code(code) = &attribute.body {
            return Some(code);
        }
    }
    None
}

/// The code of a method, if it has one.
pub fn code_of(method: &MemberInfo) -> Option<&Code>
    ensures { option_copied result ≡ m.code_of method.now }
{
    first_code(method.attributes.as_slice())
}

/// The number of the first method of the file with a number.
pub fn first_number(files: &[ClassFile], k: usize) -> Result<usize, NoMemory>
    ensures { IfOk result (λ n. n ≡ m.first_number files.now k) }
{
    let mut number = 0;
    for file in &files[..k.min(files.len())] {
        number = sum(number, file.methods.len())?;
    }
    sum(number, 1)
}

fn has_code(file: &ClassFile, method: usize) -> bool
    ensures { result ≡ is_some (and_then (slice_get file.now.methods method) m.code_of) }
{
    match file.methods.get(method) {
        Some(method) => code_of(method).is_some(),
        None => false,
    }
}

fn method_target(
    files: &[ClassFile],
    k: usize,
    file: &ClassFile,
    method: usize,
) -> Result<Option<Target>, NoMemory>
    ensures { IfOk result (λ t. t ≡ m.method_target files.now k file.now method) }
{
    if has_code(file, method) {
        let number = sum(first_number(files, k)?, method)?;
        Ok(Some(Target::Code(MethodNumber(narrow(number)?))))
    } else {
        Ok(None)
    }
}

fn declared(
    files: &[ClassFile],
    wants_static: bool,
    name: &[u16],
    descriptor: &[u16],
    class: usize,
) -> Result<Option<Option<Target>>, NoMemory>
    ensures { IfOk result (λ t. t ≡ m.declared files.now wants_static name.now descriptor.now class) }
{
    match file_of(files, class) {
        None => match built_in_method(wants_static, name, descriptor, class) {
            Some(method) => Ok(Some(Some(Target::BuiltIn(method)))),
            None => Ok(None),
        },
        Some(file) => {
            let pool = file.pool.as_slice();
            match member_place(
                wants_static,
                pool,
                name,
                descriptor,
                file.methods.as_slice(),
            ) {
                Some(place) => Ok(Some(method_target(
                    files,
                    class.saturating_sub(FIRST_FILE),
                    file,
                    place,
                )?)),
                None => Ok(None),
            }
        }
    }
}

/// What a call runs on the first class of a line that declares the method.
pub fn target_in(
    files: &[ClassFile],
    wants_static: bool,
    name: &[u16],
    descriptor: &[u16],
    line: &[usize],
) -> Result<Option<Target>, NoMemory>
    ensures { IfOk result (λ t. t ≡ m.target_in files.now wants_static name.now descriptor.now line.now) }
{
    for class in line {
        if let Some(target) = declared(files, wants_static, name, descriptor, *class)? {
            return Ok(target);
        }
    }
    Ok(None)
}

/// The number of the first static field of the file with a number.
pub fn first_static(files: &[ClassFile], k: usize) -> Result<usize, NoMemory>
    ensures { IfOk result (λ n. n ≡ m.first_static files.now k) }
{
    let mut number = 0;
    for file in &files[..k.min(files.len())] {
        number = sum(number, static_fields(file.fields.as_slice()))?;
    }
    Ok(number)
}

fn static_at(
    files: &[ClassFile],
    k: usize,
    file: &ClassFile,
    place: usize,
) -> Result<usize, NoMemory>
    ensures { IfOk result (λ n. n ≡ m.static_at files.now k file.now place) }
{
    let fields = file.fields.as_slice();
    let before = &fields[..place.min(fields.len())];
    sum(first_static(files, k)?, static_fields(before))
}

fn static_of(
    files: &[ClassFile],
    name: &[u16],
    descriptor: &[u16],
    class: usize,
) -> Result<Option<usize>, NoMemory>
    ensures { IfOk result (λ n. n ≡ m.static_of files.now name.now descriptor.now class) }
{
    let Some(file) = file_of(files, class) else {
        return Ok(None);
    };
    match member_place(
        true,
        file.pool.as_slice(),
        name,
        descriptor,
        file.fields.as_slice(),
    ) {
        Some(place) => Ok(Some(static_at(files, class.saturating_sub(FIRST_FILE), file, place)?)),
        None => Ok(None),
    }
}

/// The static field that the first class of a line declares.
pub fn static_in(
    files: &[ClassFile],
    name: &[u16],
    descriptor: &[u16],
    line: &[usize],
) -> Result<Option<usize>, NoMemory>
    ensures { IfOk result (λ n. n ≡ m.static_in files.now name.now descriptor.now line.now) }
{
    for class in line {
        if let Some(number) = static_of(files, name, descriptor, *class)? {
            return Ok(Some(number));
        }
    }
    Ok(None)
}

/// A field of instances: the class that declares it, and its place in an instance.
#[derive(Clone, Copy)]
pub struct Place {
    pub class: usize,
    pub field: usize,
}

fn place_at(
    files: &[ClassFile],
    above: &[usize],
    class: usize,
    file: &ClassFile,
    place: usize,
) -> Result<Place, NoMemory>
    ensures { IfOk result (λ x. x ≡ m.place_at files.now above.now class file.now place) }
{
    let fields = file.fields.as_slice();
    let before = &fields[..place.min(fields.len())];
    let field = sum(fields_of(files, above)?, instance_fields(before))?;
    Ok(Place { class, field })
}

fn place_of(
    files: &[ClassFile],
    name: &[u16],
    descriptor: &[u16],
    class: usize,
    above: &[usize],
) -> Result<Option<Place>, NoMemory>
    ensures { IfOk result (λ x. x ≡ m.place_of files.now name.now descriptor.now class above.now) }
{
    let Some(file) = file_of(files, class) else {
        return Ok(None);
    };
    match member_place(
        false,
        file.pool.as_slice(),
        name,
        descriptor,
        file.fields.as_slice(),
    ) {
        Some(place) => Ok(Some(place_at(files, above, class, file, place)?)),
        None => Ok(None),
    }
}

/// The field of instances that the first class of a line declares.
pub fn place_in(
    files: &[ClassFile],
    name: &[u16],
    descriptor: &[u16],
    line: &[usize],
) -> Result<Option<Place>, NoMemory>
    ensures { IfOk result (λ x. x ≡ m.place_in files.now name.now descriptor.now line.now) }
{
    let mut rest = line;
    while let [class, above @ ..] = rest {
        if let Some(place) = place_of(files, name, descriptor, *class, above)? {
            return Ok(Some(place));
        }
        rest = above;
    }
    Ok(None)
}

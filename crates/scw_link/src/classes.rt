//! Classes by number, their superclasses and their fields (JVMS 5.3, 5.4.3.2 and 5.4.3.3).

ghost use Rattle.std.specs.Prelude.{◌≡◌, IfOk, position, count_by};
ghost use Rattle.std.specs.Option.{option_copied};
ghost use Rattle.scw_link.specs.Classes as c;

use crate::built_in_class::{CLASSES, built_in_fields, built_in_number};
use crate::names::{class_name_at, is_text};
use crate::number::sum;
use bitflags::Flags;
use scw_classfile::{AccessFlags, ClassFile, MemberInfo};
use scw_text::NoMemory;
use sqlite_items::Items;
use std::alloc::Global;

/// How many classes are the machine's own.
pub const FIRST_FILE: usize = 24;

fn is_class(name: &[u16], class: &ClassFile) -> bool
    ensures { result ≡ c.is_class name.now class.now }
{
    is_text(
        class_name_at(class.pool.as_slice(), usize::from(class.this)),
        name,
    )
}

fn file_number(files: &[ClassFile], name: &[u16]) -> Option<usize>
    ensures { result ≡ position (c.is_class name.now) files.now }
{
    files.iter().position(|class| is_class(name, class))
}

/// The number of the first class of a name.
pub fn class_number(files: &[ClassFile], name: &[u16]) -> Result<Option<usize>, NoMemory>
    ensures { IfOk result (λ n. n ≡ c.class_number files.now name.now) }
{
    match built_in_number(name) {
        Some(number) => Ok(Some(number)),
        None => match file_number(files, name) {
            Some(number) => Ok(Some(sum(FIRST_FILE, number)?)),
            None => Ok(None),
        },
    }
}

/// The number of the class that an index of a file names.
pub fn named_class(files: &[ClassFile], file: &ClassFile, n: u16) -> Result<Option<usize>, NoMemory>
    ensures { IfOk result (λ k. k ≡ c.named_class files.now file.now n) }
{
    match class_name_at(file.pool.as_slice(), usize::from(n)) {
        Some(name) => class_number(files, name.as_slice()),
        None => Ok(None),
    }
}

/// The direct superclass of each class.
#[tactic(auto, unfolding(crate::specs::Classes::parents))]
pub fn parents(alloc: Global, files: &[ClassFile]) -> Result<Items<Option<usize>>, NoMemory>
    ensures { IfOk result (λ v. v ≡ c.parents files.now) }
{
    let mut parents = Items::new(alloc);
    for class in &CLASSES {
        parents.push(class.parent)?;
    }
    for file in files {
        parents.push(named_class(files, file, file.parent)?)?;
    }
    Ok(parents)
}

/// The file of a class that isn't the machine's own.
pub fn file_of(files: &[ClassFile], class: usize) -> Option<&ClassFile>
    ensures { option_copied result ≡ c.file_of files.now class }
{
    if class < FIRST_FILE {
        None
    } else {
        files.get(class - FIRST_FILE)
    }
}

/// Whether a field or a method is static.
#[tactic(auto, unfolding(crate::specs::Classes::is_static))]
pub fn is_static(member: &MemberInfo) -> bool
    ensures { result ≡ c.is_static member.now }
{
    member.flags.contains(AccessFlags::STATIC)
}

fn parent_of(parents: &[Option<usize>], class: usize) -> Option<usize>
    ensures { result ≡ c.parent_of parents.now class }
{
    *parents.get(class)?
}

/// The class and its superclasses, from the lowest to the highest.
pub fn superclasses(
    alloc: Global,
    parents: &[Option<usize>],
    class: usize,
) -> Result<Items<usize>, NoMemory>
    ensures { IfOk result (λ v. v ≡ c.superclasses parents.now class) }
{
    let mut line = Items::new(alloc);
    let mut next = class;
    for _ in 0..parents.len() {
        line.push(next)?;
        match parent_of(parents, next) {
            Some(parent) => next = parent,
            None => return Ok(line),
        }
    }
    Ok(line)
}

/// How many of the fields are static.
pub fn static_fields(fields: &[MemberInfo]) -> usize
    ensures { result ≡ count_by c.is_static fields.now }
{
    let mut count = 0;
    for field in fields {
        if is_static(field) {
            count += 1;
        }
    }
    count
}

/// How many of the fields are in instances.
pub fn instance_fields(fields: &[MemberInfo]) -> usize
    ensures { result ≡ count_by c.is_instance fields.now }
{
    let mut count = 0;
    for field in fields {
        if !is_static(field) {
            count += 1;
        }
    }
    count
}

fn own_fields(files: &[ClassFile], class: usize) -> usize
    ensures { result ≡ c.own_fields files.now class }
{
    match file_of(files, class) {
        Some(file) => instance_fields(file.fields.as_slice()),
        None => built_in_fields(class),
    }
}

/// How many fields an instance of the classes of a line has.
pub fn fields_of(files: &[ClassFile], line: &[usize]) -> Result<usize, NoMemory>
    ensures { IfOk result (λ n. n ≡ c.fields_of files.now line.now) }
{
    let mut fields = 0;
    for class in line {
        fields = sum(fields, own_fields(files, *class))?;
    }
    Ok(fields)
}

//! Loading: class files are read and linked, and all memory of the run is reserved (JVMS 5.2).

ghost use Rattle.std.specs.Prelude.{◌≡◌, ◌≤◌, ◌<◌, ◌^◌, ◌++◌, IfErr, IfOk, OnOk, length, map, true};
ghost use Rattle.scw_classfile.specs.ReadClass.{ClassBytes, read_class};
ghost use Rattle.scw_machine.specs.Load as spec;
ghost use Rattle.scw_machine.specs.declared.loading.LoadFault.TheVariants as load_fault;

use crate::machine::Machine;
use crate::output::Output;
use scw_classfile::{ClassFault, ClassFile, ClassRefusal, FileOut, Files, read_class};
use scw_frame::{Frames, MethodNumber, Program, Value, ValueKind};
use scw_heap::Heap;
use scw_link::{has_main, link};
use scw_step::State;
use scw_text::{NoMemory, Text, Units};
use sqlite_items::Items;
use std::alloc::{AllocError, Global};

/// How many bytes may wait before they are put.
const MOST_WAITING: usize = 65_536;

/// Why files aren't loaded.
#[derive(Clone, Copy, Debug)]
pub enum LoadFault {
    /// The file with the number isn't a class file.
    Bad { file: u32, refusal: ClassRefusal },
    /// No file is the class of the main object.
    NoMain,
    /// Memory ran out.
    NoMemory,
}

impl From<AllocError> for LoadFault {
    ghost from_gives = { λ _ e. e ≡ load_fault.NoMemory };

    fn from(_: AllocError) -> LoadFault {
        LoadFault::NoMemory
    }
}

impl From<NoMemory> for LoadFault {
    ghost from_gives = { λ _ e. e ≡ load_fault.NoMemory };

    fn from(_: NoMemory) -> LoadFault {
        LoadFault::NoMemory
    }
}

/// The class of a file.
fn class_of(alloc: Global, file: &FileOut, number: u32) -> Result<ClassFile, LoadFault>
    ensures ok { IfOk result (λ c. ClassBytes c file.now.bytes) }
    ensures err { IfErr result (λ e. spec.IsFaultOf e number file.now) }
{
    match read_class(alloc, file.bytes.as_slice()) {
        Ok(class) => Ok(class),
        Err(ClassFault::Bad(refusal)) => Err(LoadFault::Bad {
            file: number,
            refusal,
        }),
        Err(ClassFault::NoMemory) => Err(LoadFault::NoMemory),
    }
}

/// The classes of the files.
fn classes_of(alloc: Global, files: &[FileOut]) -> Result<Items<ClassFile>, LoadFault>
    requires { length files.now < 2 ^ 32 }
    ensures ok { IfOk result (λ cs. spec.AreFilesOf cs files.now) }
    ensures err { IfErr result (λ e. spec.IsReadFault e files.now) }
{
    let mut classes = Items::new(alloc);
    for i in 0..files.len() {
        let class = class_of(alloc, &files[i], i as u32)?;
        classes.push(class)?;
    }
    Ok(classes)
}

/// The code units of a text.
fn units_of(alloc: Global, text: &[char]) -> Result<Units, AllocError>
    ensures { IfOk result (λ units. units ≡ spec.units_of text.now) }
{
    let mut units = Items::new(alloc);
    for c in text {
        let code = u32::from(*c);
        if code < 0x1_0000 {
            units.push(code as u16)?;
        } else {
            let rest = code - 0x1_0000;
            units.push((0xd800 + rest / 0x400) as u16)?;
            units.push((0xdc00 + rest % 0x400) as u16)?;
        }
    }
    Ok(units)
}

/// The zero of a static field.
fn zero_of(kind: ValueKind) -> Value
    ensures { result ≡ spec.zero_of kind }
{
    match kind {
        ValueKind::Int => Value::Int(0),
        ValueKind::Long => Value::Long(0),
        ValueKind::Reference => Value::Reference(0),
    }
}

fn zeros_of(alloc: Global, kinds: &[ValueKind]) -> Result<Items<Value>, AllocError>
    ensures { IfOk result (λ values. values ≡ map spec.zero_of kinds.now) }
{
    let mut values = Items::new(alloc);
    for kind in kinds {
        values.push(zero_of(*kind))?;
    }
    Ok(values)
}

/// The machine of a program, before its first row.
fn start(
    alloc: Global,
    program: Program,
    heap: u32,
    frames: u32,
    words: u32,
) -> Result<Machine, NoMemory>
    requires frames { 1 ≤ frames }
    requires words { 4 ≤ words }
    ensures { IfOk result (λ m. m ≡ spec.first program heap frames words) }
{
    let statics = zeros_of(alloc, program.statics.as_slice())?;
    let state = State {
        frames: Frames::new(alloc, MethodNumber(0), 2, 1, frames, words)?,
        heap: Heap::new(alloc, heap)?,
        statics,
        unit: 0,
    };
    let output = Output::new(alloc, MOST_WAITING)?;
    Ok(Machine::start(program, state, output))
}

/// The machine of class files that runs the object of the name, in a heap of so many units, with so many frames and words
/// of frames. Only this call takes memory: it reserves all that a run needs.
///
/// # Errors
///
/// `Bad` with the first file that isn't a class file, and the rule that it breaks; `NoMain` where no file is the class of
/// the object with its accessor, or that class and its superclasses have no instance method `main` with code; `NoMemory`
/// where memory runs out.
pub fn load(
    alloc: Global,
    files: &Files,
    main: &Text,
    heap: u32,
    frames: u32,
    words: u32,
) -> Result<Machine, LoadFault>
    requires files { length files.now < 2 ^ 32 }
    requires frames { 1 ≤ frames }
    requires words { 4 ≤ words }
    ensures ok { IfOk result (λ m. spec.IsLoaded m files.now main.now heap frames words) }
    ensures err { IfErr result (λ e. spec.Refuses e files.now main.now) }
{
    let classes = classes_of(alloc, files.as_slice())?;
    let name = units_of(alloc, main.as_slice())?;
    if !has_main(alloc, classes.as_slice(), &name)? {
        return Err(LoadFault::NoMain);
    }
    let program = link(alloc, classes.as_slice(), &name)?;
    let machine = start(alloc, program, heap, frames, words)?;
    Ok(machine)
}

//! From a core program to a machine that runs it.

ghost use Rattle.std.specs.Prelude.{◌≡◌, ◌≤◌, ◌∷◌, List, [], IfOk, IfErr};
ghost use Rattle.scw_classfile.specs.Format.{class};
ghost use Rattle.scw_classfile.specs.ReadClass.{IsWritable};
ghost use Rattle.scw_core.specs.ProgramOf.{program_of, table_of};
ghost use Rattle.scw_run.specs.Load.{IsMachineOf, Refuses, files_of, first_name};

use scw_back::class_file;
use scw_classfile::{ClassFile, FileOut, Files, bytes_tell_the_class, write_class};
use scw_core::{CoreClass, Program};
use scw_gen::{GenFault, Large};
use scw_machine::{LoadFault, Machine, load};
use scw_text::{NoMemory, Text};
use sqlite_items::Items;
use std::alloc::{AllocError, Global};

/// Why a program has no machine.
#[derive(Debug, Drop)]
pub enum RunFault {
    /// A part of its class doesn't fit a class file (JVMS 4.11).
    TooLarge(Large),
    /// The program is of a form that has no code yet.
    NotBuilt,
    /// No object of this name has a method `main`.
    NoMain,
    /// Memory ran out.
    NoMemory,
}

/// A program that was compiled and loaded.
#[derive(Drop)]
pub struct Loaded {
    /// Its one class file, under the binary name of the class.
    pub files: Files,
    /// The machine that runs the file.
    pub machine: Machine,
}

/// The binary name of the first class.
fn first_name(alloc: Global, classes: &[CoreClass]) -> Result<Text, AllocError>
    ensures { IfOk result (λ name. name ≡ first_name classes.now) }
{
    match classes {
        [] => Ok(Items::new(alloc)),
        [class, ..] => Items::from_slice(alloc, class.binary_name.as_slice()),
    }
}

/// The one file of a program's class.
fn written(alloc: Global, program: &Program, file: &ClassFile) -> Result<Files, NoMemory>
    requires { IsWritable file.now }
    ensures { IfOk result (λ files. files ≡ files_of (program_of program.now) file.now) }
{
    let bytes = write_class(alloc, file)?;
    let name = first_name(alloc, program.table.classes.as_slice())?;
    let mut files = Items::new(alloc);
    files.push(FileOut { name, bytes })?;
    Ok(files)
}

/// The class file of a program, and the machine that runs it, before its first row, from the object of the name. The file's
/// bytes are read back. The heap has so many units of 16 bytes; so many frames may be open at once, with so many words
/// together.
///
/// # Errors
///
/// `TooLarge` where a part of the class doesn't fit a class file, `NotBuilt` where the program is of a form that has no
/// code yet, `NoMain` where no object of the name has a `main`, and `NoMemory` where memory runs out.
#[tactic(auto, using(crate::proofs::LoadLemmas::loaded, crate::proofs::LoadLemmas::without_main, crate::proofs::LoadLemmas::not_bad))]
pub fn load_program(
    alloc: Global,
    program: &Program,
    main: &Text,
    heap: u32,
    frames: u32,
    words: u32,
) -> Result<Loaded, RunFault>
    requires frames { 1 ≤ frames }
    requires words { 4 ≤ words }
    ensures ok { IfOk result (λ l. IsMachineOf (program_of program.now) main.now heap frames words l) }
    ensures err { IfErr result (λ f. Refuses f (program_of program.now) main.now) }
{
    bytes_tell_the_class();
    let file = match class_file(alloc, program) {
        Ok(file) => file,
        Err(GenFault::TooLarge(large)) => return Err(RunFault::TooLarge(large)),
        Err(GenFault::NotBuilt) => return Err(RunFault::NotBuilt),
        Err(GenFault::NoMemory) => return Err(RunFault::NoMemory),
    };
    let files = match written(alloc, program, &file) {
        Ok(files) => files,
        Err(NoMemory) => return Err(RunFault::NoMemory),
    };
    match load(alloc, &files, main, heap, frames, words) {
        Ok(machine) => Ok(Loaded { files, machine }),
        Err(LoadFault::NoMain) => Err(RunFault::NoMain),
        Err(LoadFault::NoMemory) => Err(RunFault::NoMemory),
        Err(LoadFault::Bad { .. }) => unreachable!(),
    }
}

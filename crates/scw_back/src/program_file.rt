//! The class file of a program.

ghost use Rattle.std.specs.Prelude.{IfOk};
ghost use Rattle.scw_classfile.specs.ReadClass.{IsWritable};
ghost use Rattle.scw_core.specs.ProgramOf.{program_of};
ghost use Rattle.scw_gen.specs.Generate.{Answers};
ghost use Rattle.scw_back.specs.Back.{file_of_program};
ghost use Rattle.scw_back.specs.Same.{DoesTheSame};

use crate::begin::can_begin;
use scw_classfile::ClassFile;
use scw_core::Program;
use scw_gen::{GenFault, generate};
use std::alloc::Global;

/// The class file of a program of one class. It can be written, and the machine that runs it does what the program does:
/// what comes out of `main`, in which order, and how the run ends (SLS 6, JVMS 2).
///
/// # Errors
///
/// `TooLarge` where a part of the class doesn't fit a class file, `NotBuilt` where the program, its class or a tree of it
/// is of a form that has no code yet, and `NoMemory` where memory runs out.
#[tactic(auto, using(crate::proofs::Contract::does_the_same), unfolding(crate::specs::Back::file_of_program))]
pub fn class_file(alloc: Global, program: &Program) -> Result<ClassFile, GenFault>
    ensures answer { Answers result (file_of_program (program_of program.now)) }
    ensures writable { IfOk result (λ file. IsWritable file) }
    ensures same { IfOk result (λ file. DoesTheSame (program_of program.now) file) }
{
    match program.table.classes.as_slice() {
        [class] => if can_begin(program, class) {
            generate(alloc, program, class)
        } else {
            Err(GenFault::NotBuilt)
        },
        _ => Err(GenFault::NotBuilt),
    }
}

//! What the generator owes the programs of the small language: a class file for each, or the reason that it is too large for
//! one. The function does nothing: its contract is the law.
#![tactic(auto)]

ghost use Rattle.std.specs.Prelude.{◌≡◌, ℕ, List, Option, Some, Result};
ghost use Rattle.scw_classfile.specs.declared.class_file.ClassFile.{ClassFile};
ghost use Rattle.scw_core.specs.Program.{Program};
ghost use Rattle.scw_gen.specs.declared.fault.Large.{Large};
ghost use Rattle.scw_small.specs.Says.{SaysProgram};
ghost use Rattle.scw_back.specs.Back.{file_of_program};

/// Each program of the small language has a class file, or is too large for one: none is of a form that has no code.
pub fn sources_are_built()
    ensures { (bytes : List ℕ) (p : Program) → SaysProgram bytes p → (r : Result ClassFile Large) × (file_of_program p ≡ Some r) }
{}

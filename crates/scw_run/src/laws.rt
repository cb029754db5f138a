//! What a run of the machine says of the program. The function does nothing: its contract is the law.

ghost use Rattle.std.specs.Prelude.{◌≡◌, ℕ, List, Option};
ghost use Rattle.scw_text.specs.declared.number.SymId.{SymId};
ghost use Rattle.scw_classfile.specs.declared.class_file.ClassFile.{ClassFile};
ghost use Rattle.scw_core.specs.Entry.{IsEntry, main_of};
ghost use Rattle.scw_core.specs.Program as core;
ghost use Rattle.scw_machine.specs.declared.end.End.{End};
ghost use Rattle.scw_machine.specs.Load.{first};
ghost use Rattle.scw_machine.specs.Run.{Running};
ghost use Rattle.scw_machine.specs.Unlimited.{RanUnlimited};
ghost use Rattle.scw_back.specs.Same.{DoesTheSame, machine_of};
ghost use Rattle.scw_run.specs.Shows.{Shows};

/// What an answer of the machine, whose file does what the program does, says of the program's run from the object: what
/// was put, and how it ended; within limits on heap, frames and rows, how far it came.
pub fn runs_do_the_same()
    ensures { (p : core.Program) (c : ClassFile) (o : SymId) → DoesTheSame p c → IsEntry p.table (main_of o) → (heap frames words steps : ℕ) (end : End) (new : Running) (before now : Option (List ℕ)) (room : Option ℕ) → RanUnlimited end steps (first (machine_of p c o) heap frames words) new before now room → Shows p o (machine_of p c o) steps end new before now }
{}

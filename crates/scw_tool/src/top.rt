//! The top call.

ghost use Rattle.std.specs.Prelude.{◌≡◌, ◌≢◌, ◌↔◌, ◌⊎◌, List, ℕ, [], Option, IsNone, map, Some, None, IfOk, IfSome, OnErr, IsTrue, true, false};
ghost use Rattle.std.specs.Option.{option_map};
ghost use Rattle.std.specs.String.{string_bytes};
ghost use Rattle.scw_outside.specs.Causes.{Rose};
ghost use Rattle.scw_outside.specs.Content.{HasName};
ghost use Rattle.scw_classfile.specs.declared.class_file.ClassFile.{ClassFile};
ghost use Rattle.scw_core.specs.Seen as seen;
ghost use Rattle.scw_core.specs.Types.{Name};
ghost use Rattle.scw_tool.specs.Edge.{edge_of};
ghost use Rattle.scw_tool.specs.Executed.{CutOff, Executed, Finished, IsReady, Stopped};
ghost use Rattle.scw_tool.specs.Job.{Comes, has_run, is_judged, is_status_in};
ghost use Rattle.scw_tool.specs.JobView.{seen_job};
ghost use Rattle.scw_tool.specs.Show.{IsReadyClass, JudgedClass, Shown, ShownInPart, is_judged_class};
ghost use Rattle.scw_tool.specs.Source.{IsTooLarge, Judged};
ghost use Rattle.scw_tool.specs.Status.{IsStatus, SaysLine};
ghost use Rattle.scw_tool.specs.Words.{job_file, job_name, job_of, IsMode};
ghost use Rattle.scw_tool.specs.declared.answer.Excess.{Excess};
ghost use Rattle.scw_tool.specs.declared.limit.TheConstants.{MOST_ROWS};
ghost use Rattle.scw_tool.specs.declared.words.Mode.{Mode};
ghost use Rattle.scw_tool.specs.declared.words.Mode.TheVariants.{Run, Dis};

use crate::answer::{Answer, Outcome};
use crate::error_line::report;
use crate::limit::MOST_SOURCE_READ;
use crate::running::run_program;
use crate::show::show_file;
use crate::words::{Job, Mode, file_of, job_of, name_of};
use scw_built::sources_are_built;
use scw_outside::{Sink, Store, StoreFault};
use scw_small::read_program;
use scw_text::NoMemory;
use std::alloc::Global;

// Reads the file, and runs it where it is a source.
fn run_file<S: Store, O: Sink>(
    alloc: Global,
    file: &str,
    store: &mut S,
    out: &mut O,
) -> Result<Answer, NoMemory>
    ensures comes { (words : List (List ℕ)) → IsMode words Run → job_file words ≡ Some file.now →
        IfOk result (λ a. Comes (edge_of words S.told S.is_calm S.fault_count store.old
        store.new O.room O.fault_count O.taken out.old out.new) a) }
    ensures kept { OnErr result (O.taken out.new ≡ O.taken out.old) }
    ensures store { S.told store.new ≡ S.told store.old }
{
    let name = name_of(alloc, file)?;
    let source = match store.read(alloc, &name, MOST_SOURCE_READ) {
        Ok(source) => source,
        Err(StoreFault::Failed) => return Ok(Answer::ReadFault),
        Err(StoreFault::NoMemory) => return Err(NoMemory),
    };
    match read_program(alloc, source.as_slice())? {
        Some(program) => {
            sources_are_built();
            run_program(alloc, &program, out)
        }
        None => Ok(Answer::NotBuilt),
    }
}

// Does a job.
fn do_job<S: Store, O: Sink>(
    alloc: Global,
    job: Job<'_>,
    store: &mut S,
    out: &mut O,
) -> Result<Answer, NoMemory>
    ensures comes { (words : List (List ℕ)) → job_of words ≡ Some (seen_job job.entry) →
        IfOk result (λ a. Comes (edge_of words S.told S.is_calm S.fault_count store.old
        store.new O.room O.fault_count O.taken out.old out.new) a) }
    ensures kept { OnErr result (O.taken out.new ≡ O.taken out.old) }
    ensures store { S.told store.new ≡ S.told store.old }
{
    match job.mode {
        Mode::Run => run_file(alloc, job.file, store, out),
        Mode::Dis => show_file(alloc, job.file, store, out),
    }
}

// Does the job, where the words are one.
fn answer_to<S: Store, O: Sink>(
    alloc: Global,
    job: Option<Job<'_>>,
    store: &mut S,
    out: &mut O,
) -> Answer
    ensures comes { (words : List (List ℕ)) → option_map seen_job job.entry ≡ job_of words →
        Comes (edge_of words S.told S.is_calm S.fault_count store.old store.new O.room
        O.fault_count O.taken out.old out.new) result }
    ensures store { S.told store.new ≡ S.told store.old }
{
    match job {
        Some(job) => match do_job(alloc, job, store, out) {
            Ok(answer) => answer,
            Err(NoMemory) => Answer::NoMemory,
        },
        None => Answer::Words,
    }
}

/// Does the job of the words. `run FILE` compiles the source in the file, reads the class file back, runs it and puts what it
/// says to `out`. `dis FILE` puts the text of the class file. A status other than 0 puts one line to `err`.
pub fn scw_main<S: Store, O: Sink, E: Sink>(
    alloc: Global,
    words: &Vec<String>,
    store: &mut S,
    out: &mut O,
    err: &mut E,
) -> Outcome
    // The headline: where a class file was run, it was made from the one program that the source
    // says, reads back, and does what the program does; the machine ran it, put its output, or with
    // status 4 a part of it, and did `steps` rows; its answer is the status, and says how the
    // program's own run goes.
    ensures headline { IsMode (map string_bytes words.now.items) Run → IsTrue (has_run result.status) →
        Executed (map string_bytes words.now.items) (S.told store.old) result.status
        result.files result.steps (O.taken out.old) (O.taken out.new) (O.room out.old) }
    // Status 0 of `run`: the source's `main` ends, and all that it puts was put.
    ensures finished { IsMode (map string_bytes words.now.items) Run → result.status ≡ 0 →
        Finished (map string_bytes words.now.items) (S.told store.old) seen.normal
        (O.taken out.old) (O.taken out.new) }
    // Where `dis` ends with status 0, the file is one class, and no other, and its text was put.
    ensures shown { IsMode (map string_bytes words.now.items) Dis → result.status ≡ 0 →
        Shown (map string_bytes words.now.items) (S.told store.old) (O.taken out.old)
        (O.taken out.new) }
    // Status 2: the words are no job.
    ensures words { (result.status ≡ 2) ↔ IsNone (job_name (map string_bytes words.now.items)) }
    // Status 3: the store failed in this call.
    ensures read { result.status ≡ 3 → Rose (S.fault_count store.old) (S.fault_count store.new) }
    // It doesn't come where the store is calm and has the file.
    ensures has { IsTrue (S.is_calm store.old) →
        IfSome (job_name (map string_bytes words.now.items))
        (λ name. HasName (S.told store.old) name → result.status ≢ 3) }
    // Status 4: `out` failed in this call.
    ensures write { result.status ≡ 4 → Rose (O.fault_count out.old) (O.fault_count out.new) }
    // With status 4 it had taken a part of what the source's `main` puts, or of the class's text.
    ensures cut { IsMode (map string_bytes words.now.items) Run → result.status ≡ 4 →
        CutOff (map string_bytes words.now.items) (S.told store.old) (O.taken out.old)
        (O.taken out.new) }
    ensures cut_text { IsMode (map string_bytes words.now.items) Dis → result.status ≡ 4 →
        ShownInPart (map string_bytes words.now.items) (S.told store.old) (O.taken out.old)
        (O.taken out.new) }
    // Status 6: the class of the source doesn't fit a class file.
    ensures large { IsMode (map string_bytes words.now.items) Run → result.status ≡ 6 →
        (x : Excess) × IsTooLarge (map string_bytes words.now.items) (S.told store.old) x }
    // Status 7: the source's `main` ends with an exception, and all that it puts was put.
    ensures thrown { IsMode (map string_bytes words.now.items) Run → result.status ≡ 7 →
        (class : Name) × (message : Option (List ℕ)) × Finished
        (map string_bytes words.now.items) (S.told store.old) (seen.thrown class message)
        (O.taken out.old) (O.taken out.new) }
    // Status 8: all the rows were done, and what was put is a front of what the source's `main`
    // puts.
    ensures spent { IsMode (map string_bytes words.now.items) Run → result.status ≡ 8 →
        (result.steps ≡ MOST_ROWS) × Stopped (map string_bytes words.now.items)
        (S.told store.old) result.steps (O.taken out.old) (O.taken out.new) }
    // Status 9 and 10: the heap or the frames didn't suffice for the next row; the same of what was
    // put.
    ensures heap { IsMode (map string_bytes words.now.items) Run → result.status ≡ 9 →
        Stopped (map string_bytes words.now.items) (S.told store.old) result.steps
        (O.taken out.old) (O.taken out.new) }
    ensures frames { IsMode (map string_bytes words.now.items) Run → result.status ≡ 10 →
        Stopped (map string_bytes words.now.items) (S.told store.old) result.steps
        (O.taken out.old) (O.taken out.new) }
    // Where a class file was read and judged, status 11 says exactly that it is none, or too long.
    ensures bad_class { IsMode (map string_bytes words.now.items) Dis → IsTrue (is_judged_class result.status) →
        JudgedClass (map string_bytes words.now.items) (S.told store.old) result.status }
    // Where a source was read and judged, status 14 says exactly that it is none.
    ensures not_built { IsMode (map string_bytes words.now.items) Run → IsTrue (is_judged result.status) →
        Judged (map string_bytes words.now.items) (S.told store.old) result.status }
    // There are files and steps where a class file was run alone, and no refusal yet.
    ensures files { has_run result.status ≡ false → result.files ≡ [] }
    ensures steps { has_run result.status ≡ false → result.steps ≡ 0 }
    ensures nothing_run { IsMode (map string_bytes words.now.items) Dis → (result.files ≡ []) × (result.steps ≡ 0) }
    ensures refusal { result.refusal ≡ None }
    // The status is one of those that have a name. No clause but `said` speaks of `err`, so its
    // failure changes nothing else.
    ensures known { IsStatus result.status }
    // A job ends with a status of its mode: none of `run` is a bad class, and none of `dis` is too
    // large, not built, or of a run.
    ensures statuses { (m : Mode) → IsMode (map string_bytes words.now.items) m →
        IsTrue (is_status_in m result.status) }
    // The line of the answer, where `err` doesn't fail.
    ensures said { (Rose (E.fault_count err.old) (E.fault_count err.new) → ⊥) →
        SaysLine (edge_of (map string_bytes words.now.items) S.told S.is_calm S.fault_count
        store.old store.new O.room O.fault_count O.taken out.old out.new) result.status
        result.files result.steps (E.taken err.old) (E.taken err.new) }
    // The store's files are as before, and so is `out` where nothing was run or shown.
    ensures store { S.told store.new ≡ S.told store.old }
    ensures out { has_run result.status ≡ false → O.taken out.new ≡ O.taken out.old }
    // A source whose run ends within the limits is run to its end, and a class file is shown,
    // unless memory runs out: where the store has the file, and is calm or doesn't fail in this
    // call, and `out` has room, or doesn't fail in this call.
    ensures complete { IsReady (edge_of (map string_bytes words.now.items) S.told S.is_calm S.fault_count
        store.old store.new O.room O.fault_count O.taken out.old out.new) →
        (result.status ≡ 0) ⊎ (result.status ≡ 7) ⊎ (result.status ≡ 12) }
    ensures complete_text { (c : ClassFile) →
        IsReadyClass (edge_of (map string_bytes words.now.items) S.told S.is_calm S.fault_count
        store.old store.new O.room O.fault_count O.taken out.old out.new) c →
        (result.status ≡ 0) ⊎ (result.status ≡ 12) }
{
    let job = job_of(words.as_slice());
    let answer = answer_to(alloc, job, store, out);
    let _ = report(err, file_of(job), &answer);
    answer.into_outcome(alloc)
}

//! The text of a class file.

ghost use Rattle.std.specs.Prelude.{◌≡◌, List, ℕ, Some, IfOk, OnErr, encode_utf8_all};
ghost use Rattle.scw_tool.specs.Edge.{edge_of};
ghost use Rattle.scw_tool.specs.Job.{Comes, WentShown};
ghost use Rattle.scw_tool.specs.Words.{job_file, IsMode};
ghost use Rattle.scw_tool.specs.declared.words.Mode.TheVariants.{Dis};

use crate::answer::Answer;
use crate::limit::{MOST_CLASS_BYTES, MOST_CLASS_READ};
use crate::words::{name_of, utf8_of};
use scw_classfile::{ClassFault, ClassFile, ClassRefusal, ClassRule, read_class};
use scw_dis::dis;
use scw_outside::{Sink, SinkFailed, Store, StoreFault, put_all};
use scw_text::NoMemory;
use std::alloc::Global;

/// Puts the text of the class.
fn show_class<O: Sink>(alloc: Global, class: &ClassFile, out: &mut O) -> Result<Answer, NoMemory>
    ensures went { IfOk result (λ a. WentShown class.now (O.room out.old) (O.fault_count out.old)
        (O.fault_count out.new) (O.taken out.old) (O.taken out.new) a) }
    ensures kept { OnErr result (O.taken out.new ≡ O.taken out.old) }
{
    let text = dis(alloc, class)?;
    let bytes = utf8_of(alloc, text.as_slice())?;
    match put_all(out, bytes.as_bytes()) {
        Ok(()) => Ok(Answer::Shown),
        Err(SinkFailed) => Ok(Answer::ShowFault),
    }
}

/// Reads the file, and puts its text where it is a class file.
pub(crate) fn show_file<S: Store, O: Sink>(
    alloc: Global,
    file: &str,
    store: &mut S,
    out: &mut O,
) -> Result<Answer, NoMemory>
    ensures comes { (words : List (List ℕ)) → IsMode words Dis → job_file words ≡ Some file.now →
        IfOk result (λ a. Comes (edge_of words S.told S.is_calm S.fault_count store.old
        store.new O.room O.fault_count O.taken out.old out.new) a) }
    ensures kept { OnErr result (O.taken out.new ≡ O.taken out.old) }
    ensures store { S.told store.new ≡ S.told store.old }
{
    let name = name_of(alloc, file)?;
    let bytes = match store.read(alloc, &name, MOST_CLASS_READ) {
        Ok(bytes) => bytes,
        Err(StoreFault::Failed) => return Ok(Answer::ReadFault),
        Err(StoreFault::NoMemory) => return Err(NoMemory),
    };
    if bytes.len() > MOST_CLASS_BYTES as usize {
        return Ok(Answer::BadClass(ClassRefusal {
            rule: ClassRule::TooLong.number(),
            place: MOST_CLASS_BYTES,
        }));
    }
    match read_class(alloc, bytes.as_slice()) {
        Ok(class) => show_class(alloc, &class, out),
        Err(ClassFault::Bad(refusal)) => Ok(Answer::BadClass(refusal)),
        Err(ClassFault::NoMemory) => Err(NoMemory),
    }
}

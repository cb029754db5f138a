//! The program: the words of its call, the present folder, and the standard output and error.
#![tactic(auto)]

use scw_outside::{DirStore, StdSink};
use scw_tool::{Answer, report, scw_main};
use sqlite_items::Items;
use std::alloc::AllocError;
use std::env;
use std::io::ErrorKind;
use std::process::ExitCode;

/// The words after the program's name, or none where the call doesn't tell them.
fn words_of(rt: &HostRuntime) -> Result<Vec<String>, AllocError> {
    let mut words = Vec::new(rt.alloc());
    let all = match env::args(rt) {
        Ok(all) => all,
        Err(error) if error.kind() == ErrorKind::OutOfMemory => return Err(AllocError),
        Err(_) => return Ok(words),
    };
    for word in all.skip(1) {
        words.push(word)?;
    }
    Ok(words)
}

fn main(rt: HostRuntime) -> ExitCode {
    let alloc = rt.alloc();
    let mut err = StdSink::new(rt.stderr());
    let Ok(words) = words_of(&rt) else {
        // The status stays where the line isn't taken.
        let _ = report(&mut err, None, &Answer::NoMemory);
        return ExitCode::from(Answer::NoMemory.number());
    };
    let mut store = DirStore::new(&rt, Items::new(alloc));
    let mut out = StdSink::new(rt.stdout());
    let outcome = scw_main(alloc, &words, &mut store, &mut out, &mut err);
    ExitCode::from(outcome.status)
}

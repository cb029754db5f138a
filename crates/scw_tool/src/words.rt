//! The words of a call.

ghost use Rattle.std.specs.Prelude.{◌≡◌, map, IfOk, encode_utf8_all};
ghost use Rattle.std.specs.Option.{option_map};
ghost use Rattle.std.specs.Str.{chars};
ghost use Rattle.std.specs.String.{string_bytes};
ghost use Rattle.scw_tool.specs.JobView.{seen_job};
ghost use Rattle.scw_tool.specs.Words.{job_of, mode_named};

use scw_text::{NoMemory, Text};
use sqlite_items::Items;
use std::alloc::{AllocError, Global};

/// What is done with a file.
#[derive(Clone, Copy, Debug, PartialEq, Eq)]
pub enum Mode {
    /// The source is compiled and run.
    Run,
    /// The class file is shown as text.
    Dis,
}

/// A mode and a file.
#[derive(Clone, Copy)]
pub struct Job<'w> {
    pub mode: Mode,
    /// The name of the file.
    pub file: &'w str,
}

fn mode_named(word: &[u8]) -> Option<Mode>
    ensures { result ≡ mode_named word.now }
{
    if word == b"run".as_slice() {
        Some(Mode::Run)
    } else if word == b"dis".as_slice() {
        Some(Mode::Dis)
    } else {
        None
    }
}

/// The job of the words `MODE FILE`, where they are one.
pub fn job_of(words: &[String]) -> Option<Job<'_>>
    ensures { option_map seen_job result ≡ job_of (map string_bytes words.now) }
{
    match words {
        [word, file] => {
            let mode = mode_named(word.as_bytes())?;
            if file.is_empty() {
                return None;
            }
            Some(Job {
                mode,
                file: file.as_str(),
            })
        }
        _ => None,
    }
}

/// The file of a job.
pub fn file_of(job: Option<Job<'_>>) -> Option<&str>
    ensures { option_map (λ s. s.now) result ≡ option_map (λ j. j.1) (option_map seen_job job.entry) }
{
    match job {
        Some(job) => Some(job.file),
        None => None,
    }
}

/// The characters of a name.
pub fn name_of(alloc: Global, file: &str) -> Result<Text, NoMemory>
    ensures { IfOk result (λ name. name ≡ chars file.now) }
{
    Ok(Items::from_vec(file.chars().collect(alloc)?))
}

/// The bytes of a text.
pub fn utf8_of(alloc: Global, text: &[char]) -> Result<String, AllocError>
    ensures { IfOk result (λ s. string_bytes s ≡ encode_utf8_all text.now) }
{
    text.iter().copied().collect(alloc)
}

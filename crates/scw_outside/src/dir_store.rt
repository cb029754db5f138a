//! A store on a folder. What it holds isn't told.

ghost use Rattle.std.specs.Prelude.{None, false, IfOk, length, ◌≤◌};

use crate::store::{Store, StoreFault};
use scw_text::{Bytes, Text};
use sqlite_items::Items;
use std::alloc::{AllocError, Global};
use std::fs;
use std::io::Read;
use std::path::{Path, PathBuf};
use std::rt::Files;

/// The most bytes that one call reads.
const PIECE: usize = 4096;

/// A store on a folder, which tells nothing.
#[derive(Drop)]
pub struct DirStore<'r, R> {
    rt: &'r R,
    root: Text,
    faults: u64,
}

impl<'r, R: Files + AllocGlobal> DirStore<'r, R> {
    /// The store on the folder `root`. A name's file is at `root` joined with the name, as by
    /// `Path::join`: an absolute name stands for itself, and with an empty root so does each name.
    pub fn new(rt: &'r R, root: Text) -> DirStore<'r, R> {
        DirStore {
            rt,
            root,
            faults: 0,
        }
    }

    fn load(&self, alloc: Global, name: &Text, limit: u32) -> Result<Bytes, StoreFault> {
        let path = path_of(alloc, &self.root, name)?;
        match fs::open(self.rt, path.as_path()) {
            Ok(mut file) => front(alloc, &mut file, limit),
            Err(_) => Err(StoreFault::Failed),
        }
    }

    fn save(&self, alloc: Global, name: &Text, bytes: &Bytes) -> Result<(), StoreFault> {
        let path = path_of(alloc, &self.root, name)?;
        if let Some(folder) = path.parent() {
            fs::create_dir_all(self.rt, folder).map_err(|_| StoreFault::Failed)?;
        }
        fs::write(self.rt, path.as_path(), bytes.as_slice()).map_err(|_| StoreFault::Failed)
    }

    ghost use Rattle.scw_outside.specs.Causes.{HasCause};
    ghost use Rattle.scw_outside.specs.declared.store.StoreFault.TheVariants.{Failed};

    /// Counts the fault, if the call failed.
    fn count<T>(&mut self, answer: &Result<T, StoreFault>)
        ensures { HasCause self.old.faults self.new.faults answer.now Failed }
    {
        match answer {
            Err(StoreFault::Failed) => self.faults = self.faults.saturating_add(1),
            Ok(_) | Err(StoreFault::NoMemory) => {}
        }
    }
}

/// The path of a name's file.
fn path_of(alloc: Global, root: &Text, name: &Text) -> Result<PathBuf, AllocError> {
    let root = string_of(alloc, root)?;
    let name = string_of(alloc, name)?;
    Path::new(root.as_str()).join(alloc, name.as_str())
}

fn string_of(alloc: Global, text: &Text) -> Result<String, AllocError> {
    let mut string = String::new(alloc);
    for c in text.as_slice() {
        string.push(*c)?;
    }
    Ok(string)
}

/// The first `limit` bytes of a file, or all. `Failed` where a read is an `Err`.
fn front<F: Read>(alloc: Global, file: &mut F, limit: u32) -> Result<Bytes, StoreFault>
    ensures { IfOk result (λ bytes. length bytes ≤ limit) }
{
    let limit = limit as usize;
    let mut bytes = Vec::new(alloc);
    let mut piece = [0u8; PIECE];
    // Each read but the last gives at least one byte.
    for _ in 0..limit {
        let wanted = (limit - bytes.len()).min(PIECE);
        if wanted == 0 {
            break;
        }
        match file.read(&mut piece[..wanted]) {
            Ok(0) => break,
            Ok(count) => bytes.extend_from_slice(&piece[..count])?,
            Err(_) => return Err(StoreFault::Failed),
        }
    }
    Ok(Items::from_vec(bytes))
}

impl<'r, R: Files + AllocGlobal> Store for DirStore<'r, R> {
    ghost told = { λ _. None };

    ghost is_calm = { λ _. false };

    ghost fault_count = { λ s. s.faults };

    fn read(&mut self, alloc: Global, name: &Text, limit: u32) -> Result<Bytes, StoreFault> {
        let bytes = self.load(alloc, name, limit);
        self.count(&bytes);
        bytes
    }

    fn write(&mut self, alloc: Global, name: &Text, bytes: &Bytes) -> Result<(), StoreFault> {
        let done = self.save(alloc, name, bytes);
        self.count(&done);
        done
    }

    fn faults(&self) -> u64 {
        self.faults
    }
}

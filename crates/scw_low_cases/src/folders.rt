//! A store of real files.

use crate::script::with_store;
use scw_outside::DirStore;
use scw_rows::{Stop, Subject, text_of};
use std::alloc::Global;

/// A folder, and a script on a store whose root it is.
#[derive(Drop)]
pub struct FolderScripts<'r> {
    rt: &'r HostRuntime,
}

impl<'r> FolderScripts<'r> {
    pub fn new(rt: &'r HostRuntime) -> FolderScripts<'r> {
        FolderScripts { rt }
    }
}

impl Subject for FolderScripts<'_> {
    fn answer(&mut self, alloc: Global, cells: &[String]) -> Result<String, Stop> {
        let [folder, script] = cells else {
            return Ok(String::new(alloc));
        };
        let mut store = DirStore::new(self.rt, text_of(alloc, folder.as_str())?);
        with_store(alloc, &mut store, script.as_str())
    }
}

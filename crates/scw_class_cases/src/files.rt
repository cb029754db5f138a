//! Class files, put together from the parts in `files.cases`.

use scw_outside::Store;
use scw_rows::{Row, Stop, bytes_of, read_table};
use std::alloc::{AllocError, Global};

/// The parts of all files: the name of a file and the meaning of the part, and its bytes.
pub fn parts_of<D: Store>(alloc: Global, store: &mut D) -> Result<Vec<Row>, Stop> {
    read_table(alloc, "files", store)
}

/// The bytes of the file, which are none where no part is of it.
pub fn file_of(alloc: Global, parts: &[Row], name: &str) -> Result<Vec<u8>, AllocError> {
    let mut bytes = Vec::new(alloc);
    for part in parts {
        if part.tried.first().is_some_and(|file| file.as_str() == name) {
            bytes.extend_from_slice(&bytes_of(alloc, part.wanted.as_str())?)?;
        }
    }
    Ok(bytes)
}

/// Puts the new bytes at the place, and those behind the end as more bytes.
fn put_bytes(bytes: &mut Vec<u8>, at: usize, new: &[u8]) -> Result<(), AllocError> {
    let mut place = at;
    for byte in new {
        match bytes.get_mut(place) {
            Some(old) => *old = *byte,
            None => bytes.push(*byte)?,
        }
        place = place.saturating_add(1);
    }
    Ok(())
}

/// Changes the bytes as it is written: `PLACE BYTES, PLACE BYTES`.
pub fn change(alloc: Global, bytes: &mut Vec<u8>, changes: &str) -> Result<(), AllocError> {
    for change in changes.split(", ") {
        if let Some((place, new)) = change.split_once(' ') {
            let at = place.parse::<usize>().unwrap_or(usize::MAX);
            put_bytes(bytes, at, &bytes_of(alloc, new)?)?;
        }
    }
    Ok(())
}

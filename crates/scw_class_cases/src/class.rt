//! Class files as they are read and written again.

use scw_classfile::{ClassFault, ClassFile, read_class, write_class};
use scw_rows::Stop;
use std::alloc::{AllocError, Global};

/// The class that the bytes are, or the rule that they break and its place.
pub fn class_of(alloc: Global, bytes: &[u8]) -> Result<Result<ClassFile, String>, Stop> {
    match read_class(alloc, bytes) {
        Ok(class) => Ok(Ok(class)),
        Err(ClassFault::Bad(bad)) => {
            Ok(Err(format!(in alloc; "rule {} at {}", bad.rule, bad.place)?))
        }
        Err(ClassFault::NoMemory) => Err(Stop::NoMemory),
    }
}

/// The rule that the bytes break and its place, or that they are a class.
pub fn refusal(alloc: Global, bytes: &[u8]) -> Result<String, Stop> {
    match class_of(alloc, bytes)? {
        Ok(_) => Ok(format!(in alloc; "a class")?),
        Err(refusal) => Ok(refusal),
    }
}

/// Whether each front of the bytes is cut at its end; else what comes of the first that isn't.
pub fn fronts(alloc: Global, bytes: &[u8]) -> Result<String, Stop> {
    for size in 0..bytes.len() {
        let came = refusal(alloc, &bytes[..size])?;
        let wanted = format!(in alloc; "rule 1 at {size}")?;
        if came.as_str() != wanted.as_str() {
            return Ok(format!(in alloc; "the front of {size} bytes: {came}")?);
        }
    }
    Ok(format!(in alloc; "each of {} fronts: rule 1 at its end", bytes.len())?)
}

/// The version of the class that the bytes are, and whether it is written as the same bytes.
pub fn again(alloc: Global, bytes: &[u8]) -> Result<String, Stop> {
    let Ok(class) = read_class(alloc, bytes) else {
        return Ok(format!(in alloc; "no class")?);
    };
    let Ok(written) = write_class(alloc, &class) else {
        return Err(Stop::NoMemory);
    };
    let says = if written.as_slice() == bytes {
        "the same bytes"
    } else {
        "other bytes"
    };
    Ok(format!(in alloc; "version {}, {says}", class.major)?)
}

/// The indices of the class, and how many parts of each kind it has.
fn counts_of(alloc: Global, class: &ClassFile) -> Result<String, AllocError> {
    format!(in alloc;
        "entries {}, this {}, super {}, interfaces {}, fields {}, methods {}",
        class.pool.len(),
        class.this,
        class.parent,
        class.interfaces.len(),
        class.fields.len(),
        class.methods.len()
    )
}

/// The entry at the index, or the counts where it is no number.
pub fn entry(alloc: Global, bytes: &[u8], index: &str) -> Result<String, Stop> {
    let class = match class_of(alloc, bytes)? {
        Ok(class) => class,
        Err(refusal) => return Ok(refusal),
    };
    let Ok(number) = index.parse::<usize>() else {
        return Ok(counts_of(alloc, &class)?);
    };
    match class.pool.get(number.saturating_sub(1)) {
        Some(entry) => Ok(format!(in alloc; "{entry:?}")?),
        None => Ok(format!(in alloc; "no entry")?),
    }
}

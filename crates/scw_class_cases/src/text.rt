//! Lines of the texts of class files.

use crate::class::class_of;
use scw_classfile::ClassFile;
use scw_dis::dis;
use scw_rows::Stop;
use std::alloc::{AllocError, Global};

/// The line of the text with the number, from 1, in quotation marks; or `(end)` behind the last.
fn numbered(alloc: Global, text: &str, number: usize) -> Result<String, AllocError> {
    let mut lines = text.split('\n').skip(number.saturating_sub(1));
    match (lines.next(), lines.next()) {
        (Some(line), Some(_)) => format!(in alloc; "\"{line}\""),
        (Some(""), None) => format!(in alloc; "(end)"),
        (Some(line), None) => format!(in alloc; "\"{line}\" without an end"),
        (None, _) => format!(in alloc; "(past the end)"),
    }
}

/// The line of the class's text with the number.
pub fn line_of(alloc: Global, class: &ClassFile, number: &str) -> Result<String, Stop> {
    let Ok(text) = dis(alloc, class) else {
        return Err(Stop::NoMemory);
    };
    let text: String = text.as_slice().iter().copied().collect(alloc)?;
    let number = number.parse::<usize>().unwrap_or(0);
    Ok(numbered(alloc, text.as_str(), number)?)
}

/// The line of the text of the class that the bytes are.
pub fn line(alloc: Global, bytes: &[u8], number: &str) -> Result<String, Stop> {
    match class_of(alloc, bytes)? {
        Ok(class) => line_of(alloc, &class, number),
        Err(refusal) => Ok(refusal),
    }
}

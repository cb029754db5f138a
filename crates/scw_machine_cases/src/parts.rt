//! The words of code and the class files, which other tables name.

use scw_outside::Store;
use scw_rows::{Row, Stop, bytes_of, read_table};
use std::alloc::{AllocError, Global};

/// The words of code with their bytes, and class files by their names, all in hexadecimal.
#[derive(Drop)]
pub struct Parts {
    words: Vec<Row>,
    classes: Vec<Row>,
}

/// The parts that the tables `words` and `classes` have.
pub fn parts_of<D: Store>(alloc: Global, store: &mut D) -> Result<Parts, Stop> {
    Ok(Parts {
        words: read_table(alloc, "words", store)?,
        classes: read_table(alloc, "classes", store)?,
    })
}

/// What stands beside the name, or nothing.
fn found<'r>(rows: &'r [Row], name: &str) -> &'r str {
    for row in rows {
        if row.name.as_str() == name {
            return row.wanted.as_str();
        }
    }
    ""
}

/// The bytes of the code: a word is a number, or stands for the byte beside it in the table of words.
pub fn code_of(alloc: Global, parts: &Parts, words: &str) -> Result<Vec<u8>, AllocError> {
    let mut code = Vec::new(alloc);
    for word in words.split_whitespace() {
        match word.parse::<u8>() {
            Ok(byte) => code.push(byte)?,
            Err(_) => {
                for byte in bytes_of(alloc, found(&parts.words, word))? {
                    code.push(byte)?;
                }
            }
        }
    }
    Ok(code)
}

/// The byte of a word, or 0 where it is none.
pub fn byte_of(alloc: Global, parts: &Parts, word: &str) -> Result<u8, AllocError> {
    Ok(code_of(alloc, parts, word)?.first().copied().unwrap_or(0))
}

/// The bytes of a class file, or none.
pub fn class_of(alloc: Global, parts: &Parts, name: &str) -> Result<Vec<u8>, AllocError> {
    bytes_of(alloc, found(&parts.classes, name))
}

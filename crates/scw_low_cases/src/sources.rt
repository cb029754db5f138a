//! Sources, and the lines and columns of their places.

use scw_rows::{Stop, Subject, bytes_of};
use scw_text::{Source, TextFault};
use sqlite_items::Items;
use std::alloc::{AllocError, Global};

/// The source with the number 7 and the name `a`.
fn source_of(alloc: Global, bytes: &[u8]) -> Result<Result<Source, TextFault>, AllocError> {
    let name = Items::from_slice(alloc, &['a'])?;
    Ok(Source::new(7, name, Items::from_slice(alloc, bytes)?))
}

/// What a source tells of itself.
fn told(alloc: Global, source: &Source) -> Result<String, AllocError> {
    let mut name = String::new(alloc);
    for c in source.name() {
        name.push(*c)?;
    }
    let bytes = source.bytes().len();
    format!(in alloc; "source {} {name} of {bytes} bytes", source.file())
}

/// Bytes that are a source or none.
#[derive(Drop)]
pub struct Sources;

impl Subject for Sources {
    fn answer(&mut self, alloc: Global, cells: &[String]) -> Result<String, Stop> {
        let [bytes] = cells else {
            return Ok(String::new(alloc));
        };
        match source_of(alloc, &bytes_of(alloc, bytes.as_str())?)? {
            Ok(source) => Ok(told(alloc, &source)?),
            Err(TextFault::BadUtf8 { place }) => Ok(format!(in alloc; "no UTF-8 at {place}")?),
            Err(TextFault::TooLong { len }) => Ok(format!(in alloc; "too long: {len}")?),
        }
    }
}

/// The line and the column of a place in a text.
#[derive(Drop)]
pub struct Places;

impl Subject for Places {
    fn answer(&mut self, alloc: Global, cells: &[String]) -> Result<String, Stop> {
        let [text, at] = cells else {
            return Ok(String::new(alloc));
        };
        let at = at.as_str().parse::<u32>().unwrap_or(u32::MAX);
        match source_of(alloc, text.as_bytes())? {
            Ok(source) if at as usize <= source.bytes().len() => {
                let place = source.place(at);
                Ok(format!(in alloc; "{}:{}", place.line, place.column)?)
            }
            Ok(_) | Err(_) => Ok(format!(in alloc; "no place")?),
        }
    }
}

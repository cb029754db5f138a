//! Texts of UTF-16 units: their modified UTF-8 (JVMS 4.4.7), and the UTF-8 that is put of them.

use scw_rows::{Stop, Subject, bytes_of};
use scw_text::{ModifiedFault, from_modified, to_modified};
use scw_value::encode;
use std::alloc::{AllocError, Global};
use std::fmt::Write;

/// The units that hexadecimal numbers with spaces between them name.
fn units_of(alloc: Global, cell: &str) -> Result<Vec<u16>, AllocError> {
    let mut units = Vec::new(alloc);
    for number in cell.split_whitespace() {
        units.push(u16::from_str_radix(number, 16).unwrap_or(0))?;
    }
    Ok(units)
}

/// The bytes, each with two hexadecimal digits, with a space between two.
fn hexadecimal(alloc: Global, bytes: &[u8]) -> Result<String, AllocError> {
    let mut text = String::new(alloc);
    for (i, byte) in bytes.iter().enumerate() {
        if i > 0 {
            text.push(' ')?;
        }
        write!(text, "{byte:02x}")?;
    }
    Ok(text)
}

/// Units written to modified UTF-8, and read again.
#[derive(Drop)]
pub struct Modified;

impl Subject for Modified {
    fn answer(&mut self, alloc: Global, cells: &[String]) -> Result<String, Stop> {
        let [units] = cells else {
            return Ok(String::new(alloc));
        };
        let units = units_of(alloc, units.as_str())?;
        let bytes = to_modified(alloc, &units)?;
        match from_modified(alloc, bytes.as_slice()) {
            Ok(again) if again.as_slice() == units.as_slice() => {
                Ok(hexadecimal(alloc, bytes.as_slice())?)
            }
            Ok(_) | Err(_) => Ok(format!(in alloc; "read as other units")?),
        }
    }
}

/// Bytes that are no modified UTF-8.
#[derive(Drop)]
pub struct Unread;

impl Subject for Unread {
    fn answer(&mut self, alloc: Global, cells: &[String]) -> Result<String, Stop> {
        let [bytes] = cells else {
            return Ok(String::new(alloc));
        };
        match from_modified(alloc, &bytes_of(alloc, bytes.as_str())?) {
            Ok(_) => Ok(format!(in alloc; "read")?),
            Err(ModifiedFault::Bad { place }) => Ok(format!(in alloc; "bad at {place}")?),
            Err(ModifiedFault::NoMemory) => Err(Stop::NoMemory),
        }
    }
}

/// Units put as UTF-8, a character at a time.
#[derive(Drop)]
pub struct Put;

impl Subject for Put {
    fn answer(&mut self, alloc: Global, cells: &[String]) -> Result<String, Stop> {
        let [units] = cells else {
            return Ok(String::new(alloc));
        };
        let units = units_of(alloc, units.as_str())?;
        let mut bytes = Vec::new(alloc);
        let mut skipped = 0;
        for (i, unit) in units.iter().enumerate() {
            if i >= skipped {
                let character = encode(*unit, units.get(i.saturating_add(1)).copied());
                bytes.extend_from_slice(&character.bytes[..character.length])?;
                skipped = i.saturating_add(character.units);
            }
        }
        Ok(hexadecimal(alloc, &bytes)?)
    }
}

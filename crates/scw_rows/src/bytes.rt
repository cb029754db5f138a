//! Bytes as hexadecimal digits, and names of files.

use scw_text::Text;
use sqlite_items::Items;
use std::alloc::{AllocError, Global};

/// The bytes that pairs of hexadecimal digits name, with white space between two bytes or not. Where a pair is none, and
/// behind the last whole one, nothing is read.
pub fn bytes_of(alloc: Global, digits: &str) -> Result<Vec<u8>, AllocError> {
    let mut bytes = Vec::new(alloc);
    let mut high: Option<u32> = None;
    for c in digits.chars() {
        match (high, c.to_digit(16)) {
            (Some(h), Some(low)) => {
                bytes.push((h.min(15) * 16 + low.min(15)) as u8)?;
                high = None;
            }
            (None, digit) => high = digit,
            (Some(_), None) => {}
        }
    }
    Ok(bytes)
}

/// The characters of a text.
pub fn text_of(alloc: Global, text: &str) -> Result<Text, AllocError> {
    Ok(Items::from_vec(text.chars().collect(alloc)?))
}

//! The text that a cell stands for.

use std::alloc::{AllocError, Global};

/// The character with the number that the hexadecimal digits name, or `?` where there is none.
fn character(digits: &str) -> char {
    match u32::from_str_radix(digits, 16) {
        Ok(number) => char::from_u32(number).unwrap_or('?'),
        Err(_) => '?',
    }
}

/// Puts what a sign stands for: `TEXT×COUNT` for a text so many times, and else a number in hexadecimal for a character.
fn put_sign(text: &mut String, sign: &str) -> Result<(), AllocError> {
    let Some((part, count)) = sign.split_once('×') else {
        return text.push(character(sign));
    };
    for _ in 0..count.parse::<u32>().unwrap_or(0) {
        text.push_str(part)?;
    }
    Ok(())
}

/// The cell with its signs put right: `⏎` is a line feed, `⟨1f600⟩` the character with that number, and `⟨ab×3⟩` is `ababab`.
pub(crate) fn text_of_cell(alloc: Global, cell: &str) -> Result<String, AllocError> {
    let mut text = String::new(alloc);
    let mut open: Option<String> = None;
    for c in cell.trim().chars() {
        match (open.take(), c) {
            (Some(sign), '⟩') => put_sign(&mut text, sign.as_str())?,
            (Some(mut sign), '⏎') => {
                sign.push('\n')?;
                open = Some(sign);
            }
            (Some(mut sign), c) => {
                sign.push(c)?;
                open = Some(sign);
            }
            (None, '⟨') => open = Some(String::new(alloc)),
            (None, '⏎') => text.push('\n')?,
            (None, c) => text.push(c)?,
        }
    }
    Ok(text)
}

//! Code that is `main` of the class `Main$`, and what is printed behind it.

use crate::parts::{Parts, byte_of, class_of, code_of};
use crate::running::{Limits, Ran, run};
use scw_machine::End;
use scw_rows::{Stop, Subject};
use std::alloc::{AllocError, Global};

/// Code, what is printed of the stack behind it, and the class of the exceptions that are caught in it.
#[derive(Drop)]
pub struct Codes<'p> {
    pub parts: &'p Parts,
}

/// The code that prints what is on top of the stack.
fn printing_of(shown: &str) -> &'static str {
    match shown {
        "int" => "invokestatic 0 BOX_INT invokevirtual 0 TO_STRING invokestatic 0 PRINT",
        "long" => "invokestatic 0 BOX_LONG invokevirtual 0 TO_STRING invokestatic 0 PRINT",
        "object" => "invokevirtual 0 TO_STRING invokestatic 0 PRINT",
        "message" => "invokevirtual 0 GET_MESSAGE invokestatic 0 PRINT",
        _ => "invokestatic 0 PRINT",
    }
}

/// Puts a number of two bytes.
fn put_two(number: usize, out: &mut Vec<u8>) -> Result<(), AllocError> {
    out.push((number / 256 % 256) as u8)?;
    out.push((number % 256) as u8)?;
    Ok(())
}

/// The attribute `Code` behind its name and length (JVMS 4.7.3): a stack of 12 words, 300 local variables, the code, and a
/// handler for the first so many bytes, which begins behind them, if there is a class for it.
fn put_body(
    code: &[u8],
    guarded: usize,
    caught: Option<u8>,
    out: &mut Vec<u8>,
) -> Result<(), AllocError> {
    put_two(12, out)?;
    put_two(300, out)?;
    put_two(0, out)?;
    put_two(code.len(), out)?;
    out.extend_from_slice(code)?;
    put_two(caught.iter().len(), out)?;
    if let Some(class) = caught {
        for number in [0, guarded, guarded, usize::from(class)] {
            put_two(number, out)?;
        }
    }
    put_two(0, out)
}

/// The class `Main$` with this code in `main`, of which the first so many bytes are guarded.
fn class_with(
    alloc: Global,
    parts: &Parts,
    code: &[u8],
    guarded: usize,
    caught: Option<u8>,
) -> Result<Vec<u8>, AllocError> {
    let mut body = Vec::new(alloc);
    put_body(code, guarded, caught, &mut body)?;
    let mut class = class_of(alloc, parts, "front")?;
    put_two(0, &mut class)?;
    put_two(body.len(), &mut class)?;
    class.extend_from_slice(&body)?;
    put_two(0, &mut class)?;
    Ok(class)
}

/// The class `Main$` with the words as its code, and `return` behind them.
pub fn class_of_words(alloc: Global, parts: &Parts, words: &str) -> Result<Vec<u8>, AllocError> {
    let mut code = code_of(alloc, parts, words)?;
    code.push(byte_of(alloc, parts, "return")?)?;
    class_with(alloc, parts, &code, 0, None)
}

/// The class `Main$` of a row.
fn class_of_cells(
    alloc: Global,
    parts: &Parts,
    words: &str,
    shown: &str,
    caught: &str,
) -> Result<Vec<u8>, AllocError> {
    let mut code = code_of(alloc, parts, words)?;
    let guarded = code.len();
    for shown in shown.split_whitespace() {
        code.extend_from_slice(&code_of(alloc, parts, printing_of(shown))?)?;
    }
    code.push(byte_of(alloc, parts, "return")?)?;
    let caught = match caught {
        "none" => None,
        "any" => Some(0),
        class => Some(byte_of(alloc, parts, class)?),
    };
    class_with(alloc, parts, &code, guarded, caught)
}

/// What was put, or how the run ended otherwise.
fn text_of_run(alloc: Global, ran: &Ran) -> Result<String, AllocError> {
    let taken = str::from_utf8(&ran.taken).unwrap_or("no UTF-8");
    let told = str::from_utf8(&ran.told).unwrap_or("no UTF-8");
    match ran.end {
        End::Ended => format!(in alloc; "{taken}"),
        End::Thrown(_) => format!(in alloc; "{taken}Thrown, {told}"),
        End::Stuck(place) => {
            format!(in alloc;
                "{taken}Stuck at class {}, method {}, byte {}",
                place.class, place.method, place.at
            )
        }
        end => format!(in alloc; "{taken}{end:?}"),
    }
}

impl Subject for Codes<'_> {
    fn answer(&mut self, alloc: Global, cells: &[String]) -> Result<String, Stop> {
        let [words, shown, caught] = cells else {
            return Ok(format!(in alloc; "a row has four cells")?);
        };
        let class = class_of_cells(
            alloc,
            self.parts,
            words.as_str(),
            shown.as_str(),
            caught.as_str(),
        )?;
        let shape = class_of(alloc, self.parts, "shape")?;
        match run(alloc, &[&class, &shape], "Main", &Limits::USUAL)? {
            Ok(ran) => Ok(text_of_run(alloc, &ran)?),
            Err(fault) => Ok(fault.text(alloc)?),
        }
    }
}

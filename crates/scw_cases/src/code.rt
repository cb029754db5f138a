//! The code of sources of the small language.

use scw_back::class_file;
use scw_classfile::ClassFile;
use scw_core::Program;
use scw_dis::dis;
use scw_gen::GenFault;
use scw_rows::{Stop, Subject};
use scw_small::read_program;
use std::alloc::{AllocError, Global};

/// Sources, and parts of what they become.
#[derive(Drop)]
pub struct Codes;

/// How many classes, bodies and texts the program has.
fn sizes_of(alloc: Global, program: &Program) -> Result<String, AllocError> {
    format!(in alloc;
        "{} classes, {} bodies, {} texts",
        program.classes().len(),
        program.bodies.len(),
        program.table.texts.len()
    )
}

/// The text of the class.
fn text_of(alloc: Global, class: &ClassFile) -> Result<String, GenFault> {
    match dis(alloc, class) {
        Ok(text) => Ok(text.as_slice().iter().copied().collect(alloc)?),
        Err(_) => Err(GenFault::NoMemory),
    }
}

/// Of the text of a class the part that shows the method of this name, from its name on.
fn method_in(alloc: Global, text: &str, name: &str) -> Result<String, AllocError> {
    let start = format!(in alloc; "0001 {name} ")?;
    for part in text.split("method ") {
        if let Some(shown) = part.strip_prefix(start.as_str()) {
            return format!(in alloc; "{shown}");
        }
    }
    format!(in alloc; "no method")
}

/// The part of a program and of its class file.
fn part_of(alloc: Global, program: &Program, part: &str) -> Result<String, GenFault> {
    if part == "sizes" {
        return Ok(sizes_of(alloc, program)?);
    }
    let class = class_file(alloc, program)?;
    if part == "pool" {
        return Ok(format!(in alloc; "{} entries", class.pool.len())?);
    }
    let text = text_of(alloc, &class)?;
    if part == "class" {
        return Ok(text);
    }
    Ok(method_in(alloc, text.as_str(), part)?)
}

/// The part of a source, or why there is none.
fn answered(alloc: Global, source: &str, part: &str) -> Result<String, GenFault> {
    match read_program(alloc, source.as_bytes()) {
        Ok(Some(program)) => part_of(alloc, &program, part),
        Ok(None) => Ok(format!(in alloc; "no source")?),
        Err(_) => Err(GenFault::NoMemory),
    }
}

impl Subject for Codes {
    fn answer(&mut self, alloc: Global, cells: &[String]) -> Result<String, Stop> {
        let [_, source, part] = cells else {
            return Ok(format!(in alloc; "a row has four cells")?);
        };
        match answered(alloc, source.as_str(), part.as_str()) {
            Ok(answer) => Ok(answer),
            Err(GenFault::NoMemory) => Err(Stop::NoMemory),
            Err(GenFault::NotBuilt) => Ok(format!(in alloc; "not built")?),
            Err(GenFault::TooLarge(large)) => Ok(format!(in alloc; "too large: {}", large.number)?),
        }
    }
}

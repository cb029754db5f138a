//! What the program of three class files is.

use crate::parts::{Parts, class_of};
use scw_classfile::{ClassFile, read_class};
use scw_frame::{Operation, Program, Target, ValueKind};
use scw_link::{has_main, link};
use scw_rows::{Stop, Subject};
use scw_text::{NoMemory, Units};
use sqlite_items::Items;
use std::alloc::{AllocError, Global};

/// Questions of the program of `Linked$`, `Base` and `Named`.
#[derive(Drop)]
pub struct Linked<'p> {
    pub parts: &'p Parts,
}

fn units_of(alloc: Global, name: &str) -> Result<Units, AllocError> {
    let mut units = Items::new(alloc);
    for byte in name.as_bytes() {
        units.push(u16::from(*byte))?;
    }
    Ok(units)
}

/// The class files, or none where one of them isn't read.
fn files_of(alloc: Global, parts: &Parts) -> Result<Vec<ClassFile>, AllocError> {
    let mut files = Vec::new(alloc);
    for name in ["Linked$", "Base", "Named"] {
        if let Ok(file) = read_class(alloc, &class_of(alloc, parts, name)?) {
            files.push(file)?;
        }
    }
    Ok(files)
}

fn text_of_target(alloc: Global, target: Option<Target>) -> Result<String, AllocError> {
    match target {
        Some(Target::Code(method)) => format!(in alloc; "method {}", method.0),
        Some(Target::BuiltIn(_)) => format!(in alloc; "a method of the machine"),
        None => format!(in alloc; "none"),
    }
}

fn text_of_operation(alloc: Global, operation: Operation) -> Result<String, AllocError> {
    match operation {
        Operation::CallStatic(target) => {
            let method = text_of_target(alloc, Some(target))?;
            format!(in alloc; "static call of {method}")
        }
        Operation::CallVirtual(selector) => {
            format!(in alloc; "virtual call by selector {}", selector.0)
        }
        Operation::JumpIfZero(comparison, target) => {
            format!(in alloc; "jump to {target} if {comparison:?}")
        }
        Operation::GetField { class, field, kind } => {
            let kind = if matches!(kind, ValueKind::Long) {
                "a Long"
            } else {
                "no Long"
            };
            format!(in alloc; "field {field} of class {}, {kind}", class.0)
        }
        Operation::Switch(switch) => format!(in alloc; "switch {}", switch.0),
        Operation::Undefined => format!(in alloc; "undefined"),
        _ => format!(in alloc; "another operation"),
    }
}

/// The answer to a question with two numbers.
fn answer_of(
    alloc: Global,
    program: &Program,
    question: &str,
    first: usize,
    second: usize,
) -> Result<Option<String>, AllocError> {
    Ok(match question {
        "counts" => Some(format!(in alloc;
            "{} classes, {} methods, {} switches, {} statics",
            program.classes.len(),
            program.methods.len(),
            program.switches.len(),
            program.statics.len()
        )?),
        "fields" => match program.classes.get(first) {
            Some(class) => Some(format!(in alloc; "{}", class.fields)?),
            None => None,
        },
        "target" => match program.classes.get(first) {
            Some(class) => Some(text_of_target(
                alloc,
                class.targets.get(second).copied().flatten(),
            )?),
            None => None,
        },
        _ => None,
    })
}

/// The answer to a question about a method.
fn answer_of_method(
    alloc: Global,
    program: &Program,
    question: &str,
    method: usize,
    place: usize,
) -> Result<Option<String>, AllocError> {
    let Some(method) = program.methods.get(method) else {
        return Ok(None);
    };
    let origin = method.origin;
    match (question, method.code.get(place)) {
        ("operation", Some(instruction)) => {
            Ok(Some(text_of_operation(alloc, instruction.operation)?))
        }
        ("origin", _) => Ok(Some(format!(in alloc;
            "file {}, method {}, byte {}",
            origin.file, origin.method, origin.start
        )?)),
        _ => Ok(None),
    }
}

/// The answer to a question.
fn answer(alloc: Global, files: &[ClassFile], question: &str) -> Result<Option<String>, NoMemory> {
    let mut words = question.split_whitespace();
    let question = words.next().unwrap_or("");
    let first = words.next().unwrap_or("");
    let second = words.next().unwrap_or("").parse::<usize>().unwrap_or(0);
    if question == "main" {
        let is_main = has_main(alloc, files, &units_of(alloc, first)?)?;
        return Ok(Some(format!(in alloc; "{is_main}")?));
    }
    let first = first.parse::<usize>().unwrap_or(0);
    let program = link(alloc, files, &units_of(alloc, "Main")?)?;
    if let Some(answer) = answer_of_method(alloc, &program, question, first, second)? {
        return Ok(Some(answer));
    }
    Ok(answer_of(alloc, &program, question, first, second)?)
}

impl Subject for Linked<'_> {
    fn answer(&mut self, alloc: Global, cells: &[String]) -> Result<String, Stop> {
        let [question] = cells else {
            return Ok(format!(in alloc; "a row has two cells")?);
        };
        let files = files_of(alloc, self.parts)?;
        match answer(alloc, files.as_slice(), question.as_str())? {
            Some(answer) => Ok(answer),
            None => Ok(format!(in alloc; "no answer")?),
        }
    }
}

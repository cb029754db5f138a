//! Code: its instructions, and its bytes again.

use scw_code::{CodeFault, Instr, InstrArgs, MNEMONICS, Numbers, decode, decode_code, encode_code};
use scw_rows::Stop;
use std::alloc::{AllocError, Global};
use std::fmt::Write;

fn put_mnemonic(out: &mut String, opcode: u8) -> Result<(), AllocError> {
    let words = str::from_utf8(MNEMONICS).unwrap_or("");
    out.push_str(words.split(' ').nth(usize::from(opcode)).unwrap_or("?"))
}

fn put_numbers(out: &mut String, numbers: Numbers) -> Result<(), AllocError> {
    match numbers {
        Numbers::Zero => Ok(()),
        Numbers::One(a) => write!(out, " {a}"),
        Numbers::Two(a, b) => write!(out, " {a} {b}"),
        Numbers::Three(a, b, c) => write!(out, " {a} {b} {c}"),
    }
}

fn put_distances(out: &mut String, distances: &[i32]) -> Result<(), AllocError> {
    for distance in distances {
        write!(out, " {distance}")?;
    }
    Ok(())
}

fn put_pairs(out: &mut String, pairs: &[(i32, i32)]) -> Result<(), AllocError> {
    for (key, distance) in pairs {
        write!(out, " {key} {distance}")?;
    }
    Ok(())
}

/// Puts the operands, each behind a space, and behind `wide` the opcode before them.
fn put_args(out: &mut String, args: &InstrArgs) -> Result<(), AllocError> {
    match args {
        InstrArgs::Plain(numbers) => put_numbers(out, *numbers),
        InstrArgs::Wide { op, args } => {
            out.push(' ')?;
            put_mnemonic(out, *op)?;
            put_numbers(out, *args)
        }
        InstrArgs::Table(table) => {
            let table = table.get();
            write!(out, " {} {} {}", table.default, table.low, table.high)?;
            put_distances(out, table.jumps.as_slice())
        }
        InstrArgs::Lookup(lookup) => {
            let lookup = lookup.get();
            write!(out, " {}", lookup.default)?;
            put_pairs(out, lookup.pairs.as_slice())
        }
    }
}

/// The instructions with their sizes, or `(none)`.
fn shown(alloc: Global, instrs: &[Instr]) -> Result<String, AllocError> {
    let mut out = String::new(alloc);
    let mut at = 0usize;
    for instr in instrs {
        if !out.is_empty() {
            out.push_str(", ")?;
        }
        put_mnemonic(&mut out, instr.op)?;
        put_args(&mut out, &instr.args)?;
        let size = instr.size(at);
        write!(out, " ({size})")?;
        at = at.saturating_add(size);
    }
    if out.is_empty() {
        out.push_str("(none)")?;
    }
    Ok(out)
}

fn fault_text(alloc: Global, fault: CodeFault) -> Result<String, Stop> {
    match fault {
        CodeFault::BadOpcode { place, byte } => {
            Ok(format!(in alloc; "BadOpcode {byte} at {place}")?)
        }
        CodeFault::BadSwitch { place } => Ok(format!(in alloc; "BadSwitch at {place}")?),
        CodeFault::Cut { place } => Ok(format!(in alloc; "Cut at {place}")?),
        CodeFault::NoMemory => Err(Stop::NoMemory),
    }
}

/// What comes of the bytes as code: whether they are the same when they are written again, or their fault.
fn end_text(alloc: Global, bytes: &[u8]) -> Result<String, Stop> {
    let instrs = match decode_code(alloc, bytes) {
        Ok(instrs) => instrs,
        Err(fault) => return fault_text(alloc, fault),
    };
    match encode_code(alloc, instrs.as_slice()) {
        Ok(again) if again.as_slice() == bytes => Ok(format!(in alloc; "again the same bytes")?),
        Ok(_) => Ok(format!(in alloc; "again other bytes")?),
        Err(_) => Err(Stop::NoMemory),
    }
}

/// The instructions of the bytes, and what comes behind them.
pub fn code(alloc: Global, bytes: &[u8]) -> Result<String, Stop> {
    let Ok(decoded) = decode(alloc, bytes) else {
        return Err(Stop::NoMemory);
    };
    let end = end_text(alloc, bytes)?;
    let shown = shown(alloc, decoded.instrs.as_slice())?;
    match decoded.fault {
        Some(fault) if fault_text(alloc, fault)?.as_str() != end.as_str() => {
            Ok(format!(in alloc; "{shown}; another fault than {end}")?)
        }
        Some(_) | None => Ok(format!(in alloc; "{shown}; {end}")?),
    }
}

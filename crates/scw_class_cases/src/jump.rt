//! Where opcodes stand in code, and whether its jumps lead to them.

use scw_code::{Instr, decode_code, starts};
use scw_rows::Stop;
use std::alloc::{AllocError, Global};
use std::fmt::Write;

/// The places of the opcodes.
fn places(alloc: Global, starts: &[bool]) -> Result<String, AllocError> {
    let mut out = format!(in alloc; "{} places, opcodes at", starts.len())?;
    for (at, is_start) in starts.iter().enumerate() {
        if *is_start {
            write!(out, " {at}")?;
        }
    }
    Ok(out)
}

/// The place of the first jump that leads to no opcode.
fn lost_jump(instrs: &[Instr], starts: &[bool]) -> Option<usize> {
    let mut at = 0usize;
    for instr in instrs {
        if !instr.jumps_well(at, starts) {
            return Some(at);
        }
        at = at.saturating_add(instr.size(at));
    }
    None
}

/// The places of the opcodes in the code, and whether each jump leads to one.
pub fn jumps(alloc: Global, bytes: &[u8]) -> Result<String, Stop> {
    let Ok(instrs) = decode_code(alloc, bytes) else {
        return Ok(format!(in alloc; "no code")?);
    };
    let starts = starts(alloc, instrs.as_slice())?;
    let places = places(alloc, &starts)?;
    match lost_jump(instrs.as_slice(), &starts) {
        None => Ok(format!(in alloc; "{places}; each jump leads to one")?),
        Some(at) => Ok(format!(in alloc; "{places}; the jump at {at} leads to none")?),
    }
}

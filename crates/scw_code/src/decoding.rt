//! Instructions from bytes (JVMS 6.5).

ghost use Rattle.std.specs.Prelude.{◌≡◌, ◌++◌, ◌∷◌, [], IfOk, List, OnOk};
ghost use Rattle.scw_code.specs.Code.{decoded, IsCode, IsOkOrNoMemory, Says};
ghost use Rattle.scw_code.specs.declared.instr.Instr.{Instr};

use crate::fault::{CodeFault, ReadFault};
use crate::instr::{Instr, Instrs};
use crate::read::instr_at;
use scw_text::NoMemory;
use sqlite_items::Items;
use std::alloc::{AllocError, Global};

/// The instructions that can be read from the front of the bytes.
#[derive(Debug, Drop)]
pub struct Decoded {
    pub instrs: Instrs,
    /// The fault at which the reading stops, or none at the end of the bytes.
    pub fault: Option<CodeFault>,
}

fn push(instrs: &mut Vec<Instr>, instr: Instr) -> Result<(), AllocError>
    ensures { OnOk result (instrs.new.items ≡ instrs.old.items ++ instr ∷ []) }
{
    instrs.push(instr)?;
    Ok(())
}

/// The instructions and the fault, without spare memory.
fn finish(mut instrs: Vec<Instr>, fault: Option<CodeFault>) -> Decoded
    ensures { result ≡ record { instrs = instrs.items; fault = fault } }
{
    instrs.shrink_to_fit();
    Decoded {
        instrs: Items::from_vec(instrs),
        fault,
    }
}

/// The instructions that can be read from the front of the bytes, and the fault at which the reading stops,
/// or `NoMemory` where memory runs out.
pub fn decode(alloc: Global, bytes: &[u8]) -> Result<Decoded, NoMemory>
    ensures { IfOk result (λ d. d ≡ decoded bytes.now) }
{
    let mut instrs = Vec::new(alloc);
    let mut rest = bytes;
    for _ in 0..bytes.len() {
        if rest.is_empty() {
            return Ok(finish(instrs, None));
        }
        match instr_at(alloc, bytes.len(), rest) {
            Ok((instr, more)) => {
                push(&mut instrs, instr)?;
                rest = more;
            }
            Err(ReadFault::Broken(fault)) => return Ok(finish(instrs, Some(fault))),
            Err(ReadFault::NoMemory) => return Err(NoMemory),
        }
    }
    Ok(finish(instrs, None))
}

/// The instructions that the bytes are (JVMS 6.5), or `BadOpcode`, `BadSwitch` or `Cut` at the first place
/// where they are none, or `NoMemory` where memory runs out.
pub fn decode_code(alloc: Global, bytes: &[u8]) -> Result<Instrs, CodeFault>
    ensures decoded { Says result (decoded bytes.now) }
    ensures ok { IfOk result (λ is. IsCode is bytes.now) }

    // What `encode_code` gave is decoded again.
    ensures whole { (is : List Instr) → IsCode is bytes.now → IsOkOrNoMemory result is }
{
    let decoded = match decode(alloc, bytes) {
        Ok(decoded) => decoded,
        Err(NoMemory) => return Err(CodeFault::NoMemory),
    };
    match decoded.fault {
        None => Ok(decoded.instrs),
        Some(fault) => Err(fault),
    }
}

//! The code of methods: instructions from bytes and back, by the table of opcodes of JVMS 6.
//!
//! It knows no constant pool and no meaning: an index is a number, and a jump is a distance.
#![tactic(auto)]

mod decoding;
mod encoding;
mod fault;
mod form;
mod instr;
mod jump;
mod layout;
mod number;
mod opcode;
mod read;
mod site;
mod switch;

pub use decoding::{Decoded, decode, decode_code};
pub use encoding::{encode_code, write_code};
pub use fault::CodeFault;
pub use form::Form;
pub use instr::{Instr, InstrArgs, Instrs, LookupSwitch, Numbers, TableSwitch};
pub use jump::starts;
pub use layout::{Layout, Shape};
pub use opcode::{FORMS, MNEMONICS, form_of};

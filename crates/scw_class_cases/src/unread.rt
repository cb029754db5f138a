//! A class that breaks rules, so that no bytes give it.

use scw_classfile::{AccessFlags, AttrBody, Attribute, ClassFile, Code, MemberInfo};
use scw_code::{Instr, InstrArgs, Instrs, Numbers};
use sqlite_items::Items;
use std::alloc::{AllocError, Global};

/// The instruction `OPCODE`, or `OPCODE OPERAND`.
fn instr_of(words: &str) -> Instr {
    let (op, numbers) = match words.split_once(' ') {
        Some((op, operand)) => (op, Numbers::One(operand.parse::<i32>().unwrap_or(0))),
        None => (words, Numbers::Zero),
    };
    Instr {
        op: op.parse::<u8>().unwrap_or(u8::MAX),
        args: InstrArgs::Plain(numbers),
    }
}

/// The instructions, with a comma and a space between two.
fn instrs_of(alloc: Global, words: &str) -> Result<Instrs, AllocError> {
    let mut instrs = Items::new(alloc);
    for instr in words.split(", ") {
        instrs.push(instr_of(instr))?;
    }
    Ok(instrs)
}

/// The attribute `Code` of the instructions.
fn code_of(alloc: Global, code: Instrs) -> Attribute {
    Attribute {
        name: 1,
        body: AttrBody::Code(Code {
            stack: 0,
            locals: 0,
            code,
            handlers: Items::new(alloc),
            attributes: Items::new(alloc),
        }),
    }
}

/// A method with this one attribute.
fn method_of(alloc: Global, code: Attribute) -> Result<MemberInfo, AllocError> {
    let mut attributes = Items::new(alloc);
    attributes.push(code)?;
    Ok(MemberInfo {
        flags: AccessFlags(0xffff),
        name: 2,
        descriptor: 3,
        attributes,
    })
}

/// The class without a pool, whose one method has the instructions.
pub fn unread_class(alloc: Global, words: &str) -> Result<ClassFile, AllocError> {
    let code = code_of(alloc, instrs_of(alloc, words)?);
    let mut methods = Items::new(alloc);
    methods.push(method_of(alloc, code)?)?;
    Ok(ClassFile {
        minor: 65535,
        major: 0,
        pool: Items::new(alloc),
        flags: AccessFlags(0x89ab),
        this: 1,
        parent: 2,
        interfaces: Items::new(alloc),
        fields: Items::new(alloc),
        methods,
        attributes: Items::new(alloc),
    })
}

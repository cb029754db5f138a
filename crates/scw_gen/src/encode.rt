//! Instructions with their opcodes and operands (JVMS 6.5).

ghost use Rattle.std.specs.Prelude.{◌≡◌, ◌≤◌};
ghost use Rattle.scw_gen.specs.Encode as spec;

use crate::instr::{BuiltIn, Compared, Instr};
use crate::kind::Word;
use crate::opcode::{
    ALOAD, ALOAD_0, ARETURN, ASTORE, ASTORE_0, BIPUSH, DUP, GOTO, GOTO_W, IADD, IAND, ICONST_0,
    IDIV, IF_ICMPEQ, IFEQ, ILOAD, ILOAD_0, IMUL, INVOKESPECIAL, INVOKESTATIC, INVOKEVIRTUAL, IOR,
    IREM, IRETURN, ISTORE, ISTORE_0, ISUB, IXOR, LCMP, LCONST_0, LDC, LDC_W, LDC2_W, LLOAD,
    LLOAD_0, LRETURN, LSTORE, LSTORE_0, NEW, POP, POP2, RETURN, SIPUSH, WIDE,
};
use scw_code::{InstrArgs, Numbers};
use scw_core::Width;
use scw_value::{Arithmetic, Comparison, Division};

fn plain(op: u8, numbers: Numbers) -> scw_code::Instr
    ensures { result ≡ spec.plain op numbers }
{
    scw_code::Instr {
        op,
        args: InstrArgs::Plain(numbers),
    }
}

fn bare(op: u8) -> scw_code::Instr
    ensures { result ≡ spec.bare op }
{
    plain(op, Numbers::Zero)
}

fn with_index(op: u8, index: u16) -> scw_code::Instr
    ensures { result ≡ spec.with_index op index }
{
    plain(op, Numbers::One(i32::from(index)))
}

/// The number in the shortest form.
fn number(n: i32) -> scw_code::Instr
    ensures { result ≡ spec.number n }
{
    if n == -1 {
        return bare(ICONST_0 - 1);
    }
    if 0 <= n && n <= 5 {
        return bare(ICONST_0 + n as u8);
    }
    pushed(n)
}

fn pushed(n: i32) -> scw_code::Instr
    ensures { result ≡ spec.pushed n }
{
    let op = if -128 <= n && n <= 127 {
        BIPUSH
    } else {
        SIPUSH
    };
    plain(op, Numbers::One(n))
}

/// A load or a store in the shortest form, by its opcode and that of local variable 0.
fn slot(op: u8, first: u8, n: u16) -> scw_code::Instr
    requires { first ≤ 200 }
    ensures { result ≡ spec.slot op first n }
{
    if n <= 3 {
        return bare(first + n as u8);
    }
    if n <= 255 {
        return with_index(op, n);
    }
    scw_code::Instr {
        op: WIDE,
        args: InstrArgs::Wide {
            op,
            args: Numbers::One(i32::from(n)),
        },
    }
}

fn load(w: Word, n: u16) -> scw_code::Instr
    ensures { result ≡ spec.load w n }
{
    match w {
        Word::Int => slot(ILOAD, ILOAD_0, n),
        Word::Long => slot(LLOAD, LLOAD_0, n),
        Word::Reference => slot(ALOAD, ALOAD_0, n),
    }
}

fn store(w: Word, n: u16) -> scw_code::Instr
    ensures { result ≡ spec.store w n }
{
    match w {
        Word::Int => slot(ISTORE, ISTORE_0, n),
        Word::Long => slot(LSTORE, LSTORE_0, n),
        Word::Reference => slot(ASTORE, ASTORE_0, n),
    }
}

/// The opcode for numbers of the width, by that for `Int`s.
fn of_width(w: Width, op: u8) -> u8
    requires { op ≤ 200 }
    ensures { result ≡ spec.of_width w op }
{
    match w {
        Width::Int => op,
        Width::Long => op + 1,
    }
}

fn arithmetic(w: Width, o: Arithmetic) -> u8
    ensures { result ≡ spec.arithmetic w o }
{
    match o {
        Arithmetic::Add => of_width(w, IADD),
        Arithmetic::Subtract => of_width(w, ISUB),
        Arithmetic::Multiply => of_width(w, IMUL),
        Arithmetic::And => of_width(w, IAND),
        Arithmetic::Or => of_width(w, IOR),
        Arithmetic::Xor => of_width(w, IXOR),
    }
}

fn division(w: Width, o: Division) -> u8
    ensures { result ≡ spec.division w o }
{
    match o {
        Division::Divide => of_width(w, IDIV),
        Division::Remainder => of_width(w, IREM),
    }
}

/// The opcode of a branch where the comparison holds, by that where two numbers are equal.
fn comparing(equal: u8, c: Comparison) -> u8
    requires { equal ≤ 200 }
    ensures { result ≡ spec.comparing equal c }
{
    match c {
        Comparison::Equal => equal,
        Comparison::NotEqual => equal + 1,
        Comparison::Less => equal + 2,
        Comparison::GreaterOrEqual => equal + 3,
        Comparison::Greater => equal + 4,
        Comparison::LessOrEqual => equal + 5,
    }
}

fn branching(compared: Compared, c: Comparison) -> u8
    ensures { result ≡ spec.branching compared c }
{
    match compared {
        Compared::Zero => comparing(IFEQ, c),
        Compared::Two => comparing(IF_ICMPEQ, c),
    }
}

fn returning(w: Word) -> u8
    ensures { result ≡ spec.returning w }
{
    match w {
        Word::Int => IRETURN,
        Word::Long => LRETURN,
        Word::Reference => ARETURN,
    }
}

fn calling(m: BuiltIn) -> u8
    ensures { result ≡ spec.calling m }
{
    match m {
        BuiltIn::Print
        | BuiltIn::Concat
        | BuiltIn::Unit
        | BuiltIn::BoxBoolean
        | BuiltIn::BoxInt
        | BuiltIn::BoxLong => INVOKESTATIC,
        BuiltIn::ToString => INVOKEVIRTUAL,
    }
}

fn jump(op: u8, way: i32) -> scw_code::Instr
    ensures { result ≡ spec.jump op way }
{
    plain(op, Numbers::One(way))
}

/// The instruction with its opcode and operands, by the index of what it names in the pool.
pub(crate) fn encoded(instr: Instr, index: u16) -> scw_code::Instr
    ensures { result ≡ spec.encoded instr index }
{
    match instr {
        Instr::Number(n) => number(n),
        Instr::Constant(_) => with_index(LDC, index),
        Instr::WideConstant(_) => with_index(LDC_W, index),
        Instr::LongBit(b) => bare(if b { LCONST_0 + 1 } else { LCONST_0 }),
        Instr::LongConstant(_) => with_index(LDC2_W, index),
        Instr::Load(w, n) => load(w, n),
        Instr::Store(w, n) => store(w, n),
        Instr::Arithmetic(w, o) => bare(arithmetic(w, o)),
        Instr::Division(w, o) => bare(division(w, o)),
        Instr::CompareLongs => bare(LCMP),
        Instr::Pop => bare(POP),
        Instr::PopTwo => bare(POP2),
        Instr::Dup => bare(DUP),
        Instr::Branch(compared, c, way) => jump(branching(compared, c), i32::from(way)),
        Instr::Goto(way) => jump(GOTO, i32::from(way)),
        Instr::FarGoto(way) => jump(GOTO_W, i32::from(way)),
        Instr::Back(way) => jump(GOTO, -i32::from(way)),
        Instr::FarBack(way) => jump(GOTO_W, -i32::from(way)),
        Instr::Return(w) => bare(returning(w)),
        Instr::ReturnNothing => bare(RETURN),
        Instr::Call(_) => with_index(INVOKEVIRTUAL, index),
        Instr::CallBuiltIn(m) => with_index(calling(m), index),
        Instr::InitObject | Instr::InitThis => with_index(INVOKESPECIAL, index),
        Instr::New => with_index(NEW, index),
    }
}

//! What each opcode means (JVMS 6.5 and 7).

ghost use Rattle.std.specs.Prelude.{◌≡◌};
ghost use Rattle.scw_link.specs.Meaning.{meaning_of};

use scw_frame::{Elements, Operation, Primitive, StackOperation, Value, ValueKind};
use scw_value::{Arithmetic, Comparison, Conversion, Division, Shift};
use sqlite_items::at;

/// An instruction with one or two numbers that aren't indices or distances.
#[derive(Clone, Copy)]
pub enum ByNumber {
    /// A number: `bipush` and `sipush`.
    Push,
    /// A local variable.
    Load(ValueKind),
    Store(ValueKind),
    /// A local variable and a constant: `iinc`.
    Increment,
    /// The type of the elements: `newarray`.
    NewNumbers,
}

/// An instruction with a distance.
#[derive(Clone, Copy)]
pub enum ByJump {
    Always,
    IfZero(Comparison),
    IfInts(Comparison),
    IfSame(bool),
    IfNull(bool),
}

/// An instruction with the index of a constant.
#[derive(Clone, Copy)]
pub enum ByConstant {
    /// `ldc` and `ldc_w`
    One,
    /// `ldc2_w`
    Long,
}

/// An instruction with the index of a field.
#[derive(Clone, Copy)]
pub enum ByField {
    GetStatic,
    PutStatic,
    Get,
    Put,
}

/// An instruction with the index of a method.
#[derive(Clone, Copy)]
pub enum ByCall {
    /// `invokevirtual` and `invokeinterface`
    Virtual,
    Special,
    Static,
}

/// An instruction with the index of a class.
#[derive(Clone, Copy)]
pub enum ByClass {
    New,
    NewReferences,
    CheckCast,
    InstanceOf,
}

/// What an opcode means, as far as its operands allow.
#[derive(Clone, Copy)]
pub enum Meaning {
    /// The operation, whatever stands behind the opcode. A switch is told by its operands, and `wide` by the
    /// opcode behind it: both have no operation of their own here.
    Alone(Operation),
    Number(ByNumber),
    Jump(ByJump),
    Constant(ByConstant),
    Field(ByField),
    Call(ByCall),
    Class(ByClass),
}

/// The meaning of each opcode; the opcode is the row's place, from 0 (JVMS 7).
#[rattlefmt::skip]
pub const MEANINGS: [Meaning; 202] = [
    Meaning::Alone(Operation::Nothing), // 0 nop
    Meaning::Alone(Operation::Push(Value::Reference(0))), // 1 aconst_null
    Meaning::Alone(Operation::Push(Value::Int(0xffff_ffff))), // 2 iconst_m1
    Meaning::Alone(Operation::Push(Value::Int(0))), // 3 iconst_0
    Meaning::Alone(Operation::Push(Value::Int(1))), // 4 iconst_1
    Meaning::Alone(Operation::Push(Value::Int(2))), // 5 iconst_2
    Meaning::Alone(Operation::Push(Value::Int(3))), // 6 iconst_3
    Meaning::Alone(Operation::Push(Value::Int(4))), // 7 iconst_4
    Meaning::Alone(Operation::Push(Value::Int(5))), // 8 iconst_5
    Meaning::Alone(Operation::Push(Value::Long(0))), // 9 lconst_0
    Meaning::Alone(Operation::Push(Value::Long(1))), // 10 lconst_1
    Meaning::Alone(Operation::Undefined), // 11 fconst_0
    Meaning::Alone(Operation::Undefined), // 12 fconst_1
    Meaning::Alone(Operation::Undefined), // 13 fconst_2
    Meaning::Alone(Operation::Undefined), // 14 dconst_0
    Meaning::Alone(Operation::Undefined), // 15 dconst_1
    Meaning::Number(ByNumber::Push), // 16 bipush
    Meaning::Number(ByNumber::Push), // 17 sipush
    Meaning::Constant(ByConstant::One), // 18 ldc
    Meaning::Constant(ByConstant::One), // 19 ldc_w
    Meaning::Constant(ByConstant::Long), // 20 ldc2_w
    Meaning::Number(ByNumber::Load(ValueKind::Int)), // 21 iload
    Meaning::Number(ByNumber::Load(ValueKind::Long)), // 22 lload
    Meaning::Alone(Operation::Undefined), // 23 fload
    Meaning::Alone(Operation::Undefined), // 24 dload
    Meaning::Number(ByNumber::Load(ValueKind::Reference)), // 25 aload
    Meaning::Alone(Operation::Load(ValueKind::Int, 0)), // 26 iload_0
    Meaning::Alone(Operation::Load(ValueKind::Int, 1)), // 27 iload_1
    Meaning::Alone(Operation::Load(ValueKind::Int, 2)), // 28 iload_2
    Meaning::Alone(Operation::Load(ValueKind::Int, 3)), // 29 iload_3
    Meaning::Alone(Operation::Load(ValueKind::Long, 0)), // 30 lload_0
    Meaning::Alone(Operation::Load(ValueKind::Long, 1)), // 31 lload_1
    Meaning::Alone(Operation::Load(ValueKind::Long, 2)), // 32 lload_2
    Meaning::Alone(Operation::Load(ValueKind::Long, 3)), // 33 lload_3
    Meaning::Alone(Operation::Undefined), // 34 fload_0
    Meaning::Alone(Operation::Undefined), // 35 fload_1
    Meaning::Alone(Operation::Undefined), // 36 fload_2
    Meaning::Alone(Operation::Undefined), // 37 fload_3
    Meaning::Alone(Operation::Undefined), // 38 dload_0
    Meaning::Alone(Operation::Undefined), // 39 dload_1
    Meaning::Alone(Operation::Undefined), // 40 dload_2
    Meaning::Alone(Operation::Undefined), // 41 dload_3
    Meaning::Alone(Operation::Load(ValueKind::Reference, 0)), // 42 aload_0
    Meaning::Alone(Operation::Load(ValueKind::Reference, 1)), // 43 aload_1
    Meaning::Alone(Operation::Load(ValueKind::Reference, 2)), // 44 aload_2
    Meaning::Alone(Operation::Load(ValueKind::Reference, 3)), // 45 aload_3
    Meaning::Alone(Operation::LoadElement(Elements::Primitive(Primitive::Int))), // 46 iaload
    Meaning::Alone(Operation::LoadElement(Elements::Primitive(Primitive::Long))), // 47 laload
    Meaning::Alone(Operation::Undefined), // 48 faload
    Meaning::Alone(Operation::Undefined), // 49 daload
    Meaning::Alone(Operation::LoadElement(Elements::References)), // 50 aaload
    Meaning::Alone(Operation::LoadElement(Elements::Primitive(Primitive::Boolean))), // 51 baload
    Meaning::Alone(Operation::LoadElement(Elements::Primitive(Primitive::Char))), // 52 caload
    Meaning::Alone(Operation::Undefined), // 53 saload
    Meaning::Number(ByNumber::Store(ValueKind::Int)), // 54 istore
    Meaning::Number(ByNumber::Store(ValueKind::Long)), // 55 lstore
    Meaning::Alone(Operation::Undefined), // 56 fstore
    Meaning::Alone(Operation::Undefined), // 57 dstore
    Meaning::Number(ByNumber::Store(ValueKind::Reference)), // 58 astore
    Meaning::Alone(Operation::Store(ValueKind::Int, 0)), // 59 istore_0
    Meaning::Alone(Operation::Store(ValueKind::Int, 1)), // 60 istore_1
    Meaning::Alone(Operation::Store(ValueKind::Int, 2)), // 61 istore_2
    Meaning::Alone(Operation::Store(ValueKind::Int, 3)), // 62 istore_3
    Meaning::Alone(Operation::Store(ValueKind::Long, 0)), // 63 lstore_0
    Meaning::Alone(Operation::Store(ValueKind::Long, 1)), // 64 lstore_1
    Meaning::Alone(Operation::Store(ValueKind::Long, 2)), // 65 lstore_2
    Meaning::Alone(Operation::Store(ValueKind::Long, 3)), // 66 lstore_3
    Meaning::Alone(Operation::Undefined), // 67 fstore_0
    Meaning::Alone(Operation::Undefined), // 68 fstore_1
    Meaning::Alone(Operation::Undefined), // 69 fstore_2
    Meaning::Alone(Operation::Undefined), // 70 fstore_3
    Meaning::Alone(Operation::Undefined), // 71 dstore_0
    Meaning::Alone(Operation::Undefined), // 72 dstore_1
    Meaning::Alone(Operation::Undefined), // 73 dstore_2
    Meaning::Alone(Operation::Undefined), // 74 dstore_3
    Meaning::Alone(Operation::Store(ValueKind::Reference, 0)), // 75 astore_0
    Meaning::Alone(Operation::Store(ValueKind::Reference, 1)), // 76 astore_1
    Meaning::Alone(Operation::Store(ValueKind::Reference, 2)), // 77 astore_2
    Meaning::Alone(Operation::Store(ValueKind::Reference, 3)), // 78 astore_3
    Meaning::Alone(Operation::StoreElement(Elements::Primitive(Primitive::Int))), // 79 iastore
    Meaning::Alone(Operation::StoreElement(Elements::Primitive(Primitive::Long))), // 80 lastore
    Meaning::Alone(Operation::Undefined), // 81 fastore
    Meaning::Alone(Operation::Undefined), // 82 dastore
    Meaning::Alone(Operation::StoreElement(Elements::References)), // 83 aastore
    Meaning::Alone(Operation::StoreElement(Elements::Primitive(Primitive::Boolean))), // 84 bastore
    Meaning::Alone(Operation::StoreElement(Elements::Primitive(Primitive::Char))), // 85 castore
    Meaning::Alone(Operation::Undefined), // 86 sastore
    Meaning::Alone(Operation::Stack(StackOperation::Pop)), // 87 pop
    Meaning::Alone(Operation::Stack(StackOperation::PopTwo)), // 88 pop2
    Meaning::Alone(Operation::Stack(StackOperation::Duplicate)), // 89 dup
    Meaning::Alone(Operation::Stack(StackOperation::DuplicateBelowOne)), // 90 dup_x1
    Meaning::Alone(Operation::Stack(StackOperation::DuplicateBelowTwo)), // 91 dup_x2
    Meaning::Alone(Operation::Stack(StackOperation::DuplicateTwo)), // 92 dup2
    Meaning::Alone(Operation::Stack(StackOperation::DuplicateTwoBelowOne)), // 93 dup2_x1
    Meaning::Alone(Operation::Stack(StackOperation::DuplicateTwoBelowTwo)), // 94 dup2_x2
    Meaning::Alone(Operation::Stack(StackOperation::Swap)), // 95 swap
    Meaning::Alone(Operation::IntArithmetic(Arithmetic::Add)), // 96 iadd
    Meaning::Alone(Operation::LongArithmetic(Arithmetic::Add)), // 97 ladd
    Meaning::Alone(Operation::Undefined), // 98 fadd
    Meaning::Alone(Operation::Undefined), // 99 dadd
    Meaning::Alone(Operation::IntArithmetic(Arithmetic::Subtract)), // 100 isub
    Meaning::Alone(Operation::LongArithmetic(Arithmetic::Subtract)), // 101 lsub
    Meaning::Alone(Operation::Undefined), // 102 fsub
    Meaning::Alone(Operation::Undefined), // 103 dsub
    Meaning::Alone(Operation::IntArithmetic(Arithmetic::Multiply)), // 104 imul
    Meaning::Alone(Operation::LongArithmetic(Arithmetic::Multiply)), // 105 lmul
    Meaning::Alone(Operation::Undefined), // 106 fmul
    Meaning::Alone(Operation::Undefined), // 107 dmul
    Meaning::Alone(Operation::IntDivision(Division::Divide)), // 108 idiv
    Meaning::Alone(Operation::LongDivision(Division::Divide)), // 109 ldiv
    Meaning::Alone(Operation::Undefined), // 110 fdiv
    Meaning::Alone(Operation::Undefined), // 111 ddiv
    Meaning::Alone(Operation::IntDivision(Division::Remainder)), // 112 irem
    Meaning::Alone(Operation::LongDivision(Division::Remainder)), // 113 lrem
    Meaning::Alone(Operation::Undefined), // 114 frem
    Meaning::Alone(Operation::Undefined), // 115 drem
    Meaning::Alone(Operation::IntNegate), // 116 ineg
    Meaning::Alone(Operation::LongNegate), // 117 lneg
    Meaning::Alone(Operation::Undefined), // 118 fneg
    Meaning::Alone(Operation::Undefined), // 119 dneg
    Meaning::Alone(Operation::IntShift(Shift::Left)), // 120 ishl
    Meaning::Alone(Operation::LongShift(Shift::Left)), // 121 lshl
    Meaning::Alone(Operation::IntShift(Shift::Right)), // 122 ishr
    Meaning::Alone(Operation::LongShift(Shift::Right)), // 123 lshr
    Meaning::Alone(Operation::IntShift(Shift::UnsignedRight)), // 124 iushr
    Meaning::Alone(Operation::LongShift(Shift::UnsignedRight)), // 125 lushr
    Meaning::Alone(Operation::IntArithmetic(Arithmetic::And)), // 126 iand
    Meaning::Alone(Operation::LongArithmetic(Arithmetic::And)), // 127 land
    Meaning::Alone(Operation::IntArithmetic(Arithmetic::Or)), // 128 ior
    Meaning::Alone(Operation::LongArithmetic(Arithmetic::Or)), // 129 lor
    Meaning::Alone(Operation::IntArithmetic(Arithmetic::Xor)), // 130 ixor
    Meaning::Alone(Operation::LongArithmetic(Arithmetic::Xor)), // 131 lxor
    Meaning::Number(ByNumber::Increment), // 132 iinc
    Meaning::Alone(Operation::Widen), // 133 i2l
    Meaning::Alone(Operation::Undefined), // 134 i2f
    Meaning::Alone(Operation::Undefined), // 135 i2d
    Meaning::Alone(Operation::Narrow), // 136 l2i
    Meaning::Alone(Operation::Undefined), // 137 l2f
    Meaning::Alone(Operation::Undefined), // 138 l2d
    Meaning::Alone(Operation::Undefined), // 139 f2i
    Meaning::Alone(Operation::Undefined), // 140 f2l
    Meaning::Alone(Operation::Undefined), // 141 f2d
    Meaning::Alone(Operation::Undefined), // 142 d2i
    Meaning::Alone(Operation::Undefined), // 143 d2l
    Meaning::Alone(Operation::Undefined), // 144 d2f
    Meaning::Alone(Operation::Convert(Conversion::IntToByte)), // 145 i2b
    Meaning::Alone(Operation::Convert(Conversion::IntToChar)), // 146 i2c
    Meaning::Alone(Operation::Convert(Conversion::IntToShort)), // 147 i2s
    Meaning::Alone(Operation::CompareLongs), // 148 lcmp
    Meaning::Alone(Operation::Undefined), // 149 fcmpl
    Meaning::Alone(Operation::Undefined), // 150 fcmpg
    Meaning::Alone(Operation::Undefined), // 151 dcmpl
    Meaning::Alone(Operation::Undefined), // 152 dcmpg
    Meaning::Jump(ByJump::IfZero(Comparison::Equal)), // 153 ifeq
    Meaning::Jump(ByJump::IfZero(Comparison::NotEqual)), // 154 ifne
    Meaning::Jump(ByJump::IfZero(Comparison::Less)), // 155 iflt
    Meaning::Jump(ByJump::IfZero(Comparison::GreaterOrEqual)), // 156 ifge
    Meaning::Jump(ByJump::IfZero(Comparison::Greater)), // 157 ifgt
    Meaning::Jump(ByJump::IfZero(Comparison::LessOrEqual)), // 158 ifle
    Meaning::Jump(ByJump::IfInts(Comparison::Equal)), // 159 if_icmpeq
    Meaning::Jump(ByJump::IfInts(Comparison::NotEqual)), // 160 if_icmpne
    Meaning::Jump(ByJump::IfInts(Comparison::Less)), // 161 if_icmplt
    Meaning::Jump(ByJump::IfInts(Comparison::GreaterOrEqual)), // 162 if_icmpge
    Meaning::Jump(ByJump::IfInts(Comparison::Greater)), // 163 if_icmpgt
    Meaning::Jump(ByJump::IfInts(Comparison::LessOrEqual)), // 164 if_icmple
    Meaning::Jump(ByJump::IfSame(true)), // 165 if_acmpeq
    Meaning::Jump(ByJump::IfSame(false)), // 166 if_acmpne
    Meaning::Jump(ByJump::Always), // 167 goto
    Meaning::Alone(Operation::Undefined), // 168 jsr
    Meaning::Alone(Operation::Undefined), // 169 ret
    Meaning::Alone(Operation::Undefined), // 170 tableswitch
    Meaning::Alone(Operation::Undefined), // 171 lookupswitch
    Meaning::Alone(Operation::ReturnValue(ValueKind::Int)), // 172 ireturn
    Meaning::Alone(Operation::ReturnValue(ValueKind::Long)), // 173 lreturn
    Meaning::Alone(Operation::Undefined), // 174 freturn
    Meaning::Alone(Operation::Undefined), // 175 dreturn
    Meaning::Alone(Operation::ReturnValue(ValueKind::Reference)), // 176 areturn
    Meaning::Alone(Operation::Return), // 177 return
    Meaning::Field(ByField::GetStatic), // 178 getstatic
    Meaning::Field(ByField::PutStatic), // 179 putstatic
    Meaning::Field(ByField::Get), // 180 getfield
    Meaning::Field(ByField::Put), // 181 putfield
    Meaning::Call(ByCall::Virtual), // 182 invokevirtual
    Meaning::Call(ByCall::Special), // 183 invokespecial
    Meaning::Call(ByCall::Static), // 184 invokestatic
    Meaning::Call(ByCall::Virtual), // 185 invokeinterface
    Meaning::Alone(Operation::Undefined), // 186 invokedynamic
    Meaning::Class(ByClass::New), // 187 new
    Meaning::Number(ByNumber::NewNumbers), // 188 newarray
    Meaning::Class(ByClass::NewReferences), // 189 anewarray
    Meaning::Alone(Operation::ArrayLength), // 190 arraylength
    Meaning::Alone(Operation::Throw), // 191 athrow
    Meaning::Class(ByClass::CheckCast), // 192 checkcast
    Meaning::Class(ByClass::InstanceOf), // 193 instanceof
    Meaning::Alone(Operation::Undefined), // 194 monitorenter
    Meaning::Alone(Operation::Undefined), // 195 monitorexit
    Meaning::Alone(Operation::Undefined), // 196 wide
    Meaning::Alone(Operation::Undefined), // 197 multianewarray
    Meaning::Jump(ByJump::IfNull(true)), // 198 ifnull
    Meaning::Jump(ByJump::IfNull(false)), // 199 ifnonnull
    Meaning::Jump(ByJump::Always), // 200 goto_w
    Meaning::Alone(Operation::Undefined), // 201 jsr_w
];

/// The meaning of an opcode.
#[tactic(auto, unfolding(crate::specs::Meaning::meaning_of))]
pub fn meaning_of(opcode: u8) -> Meaning
    ensures { result ≡ meaning_of opcode }
{
    at(&MEANINGS, usize::from(opcode))
        .copied()
        .unwrap_or(Meaning::Alone(Operation::Undefined))
}

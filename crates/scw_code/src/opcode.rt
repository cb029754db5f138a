//! The table of opcodes: JVMS 6.5 and 7.

ghost use Rattle.std.specs.Prelude.{◌≡◌};
ghost use Rattle.scw_code.specs.Opcode.{form_of};

use crate::form::Form;
use sqlite_items::at;

/// The form of each opcode's operands; the opcode is the row's place, from 0 (JVMS 7).
#[rattlefmt::skip]
pub const FORMS: [Form; 202] = [
    Form::Bare, // 0 nop
    Form::Bare, // 1 aconst_null
    Form::Bare, // 2 iconst_m1
    Form::Bare, // 3 iconst_0
    Form::Bare, // 4 iconst_1
    Form::Bare, // 5 iconst_2
    Form::Bare, // 6 iconst_3
    Form::Bare, // 7 iconst_4
    Form::Bare, // 8 iconst_5
    Form::Bare, // 9 lconst_0
    Form::Bare, // 10 lconst_1
    Form::Bare, // 11 fconst_0
    Form::Bare, // 12 fconst_1
    Form::Bare, // 13 fconst_2
    Form::Bare, // 14 dconst_0
    Form::Bare, // 15 dconst_1
    Form::Byte, // 16 bipush
    Form::Short, // 17 sipush
    Form::Constant, // 18 ldc
    Form::WideConstant, // 19 ldc_w
    Form::LongConstant, // 20 ldc2_w
    Form::Slot, // 21 iload
    Form::Slot, // 22 lload
    Form::Slot, // 23 fload
    Form::Slot, // 24 dload
    Form::Slot, // 25 aload
    Form::Bare, // 26 iload_0
    Form::Bare, // 27 iload_1
    Form::Bare, // 28 iload_2
    Form::Bare, // 29 iload_3
    Form::Bare, // 30 lload_0
    Form::Bare, // 31 lload_1
    Form::Bare, // 32 lload_2
    Form::Bare, // 33 lload_3
    Form::Bare, // 34 fload_0
    Form::Bare, // 35 fload_1
    Form::Bare, // 36 fload_2
    Form::Bare, // 37 fload_3
    Form::Bare, // 38 dload_0
    Form::Bare, // 39 dload_1
    Form::Bare, // 40 dload_2
    Form::Bare, // 41 dload_3
    Form::Bare, // 42 aload_0
    Form::Bare, // 43 aload_1
    Form::Bare, // 44 aload_2
    Form::Bare, // 45 aload_3
    Form::Bare, // 46 iaload
    Form::Bare, // 47 laload
    Form::Bare, // 48 faload
    Form::Bare, // 49 daload
    Form::Bare, // 50 aaload
    Form::Bare, // 51 baload
    Form::Bare, // 52 caload
    Form::Bare, // 53 saload
    Form::Slot, // 54 istore
    Form::Slot, // 55 lstore
    Form::Slot, // 56 fstore
    Form::Slot, // 57 dstore
    Form::Slot, // 58 astore
    Form::Bare, // 59 istore_0
    Form::Bare, // 60 istore_1
    Form::Bare, // 61 istore_2
    Form::Bare, // 62 istore_3
    Form::Bare, // 63 lstore_0
    Form::Bare, // 64 lstore_1
    Form::Bare, // 65 lstore_2
    Form::Bare, // 66 lstore_3
    Form::Bare, // 67 fstore_0
    Form::Bare, // 68 fstore_1
    Form::Bare, // 69 fstore_2
    Form::Bare, // 70 fstore_3
    Form::Bare, // 71 dstore_0
    Form::Bare, // 72 dstore_1
    Form::Bare, // 73 dstore_2
    Form::Bare, // 74 dstore_3
    Form::Bare, // 75 astore_0
    Form::Bare, // 76 astore_1
    Form::Bare, // 77 astore_2
    Form::Bare, // 78 astore_3
    Form::Bare, // 79 iastore
    Form::Bare, // 80 lastore
    Form::Bare, // 81 fastore
    Form::Bare, // 82 dastore
    Form::Bare, // 83 aastore
    Form::Bare, // 84 bastore
    Form::Bare, // 85 castore
    Form::Bare, // 86 sastore
    Form::Bare, // 87 pop
    Form::Bare, // 88 pop2
    Form::Bare, // 89 dup
    Form::Bare, // 90 dup_x1
    Form::Bare, // 91 dup_x2
    Form::Bare, // 92 dup2
    Form::Bare, // 93 dup2_x1
    Form::Bare, // 94 dup2_x2
    Form::Bare, // 95 swap
    Form::Bare, // 96 iadd
    Form::Bare, // 97 ladd
    Form::Bare, // 98 fadd
    Form::Bare, // 99 dadd
    Form::Bare, // 100 isub
    Form::Bare, // 101 lsub
    Form::Bare, // 102 fsub
    Form::Bare, // 103 dsub
    Form::Bare, // 104 imul
    Form::Bare, // 105 lmul
    Form::Bare, // 106 fmul
    Form::Bare, // 107 dmul
    Form::Bare, // 108 idiv
    Form::Bare, // 109 ldiv
    Form::Bare, // 110 fdiv
    Form::Bare, // 111 ddiv
    Form::Bare, // 112 irem
    Form::Bare, // 113 lrem
    Form::Bare, // 114 frem
    Form::Bare, // 115 drem
    Form::Bare, // 116 ineg
    Form::Bare, // 117 lneg
    Form::Bare, // 118 fneg
    Form::Bare, // 119 dneg
    Form::Bare, // 120 ishl
    Form::Bare, // 121 lshl
    Form::Bare, // 122 ishr
    Form::Bare, // 123 lshr
    Form::Bare, // 124 iushr
    Form::Bare, // 125 lushr
    Form::Bare, // 126 iand
    Form::Bare, // 127 land
    Form::Bare, // 128 ior
    Form::Bare, // 129 lor
    Form::Bare, // 130 ixor
    Form::Bare, // 131 lxor
    Form::Increment, // 132 iinc
    Form::Bare, // 133 i2l
    Form::Bare, // 134 i2f
    Form::Bare, // 135 i2d
    Form::Bare, // 136 l2i
    Form::Bare, // 137 l2f
    Form::Bare, // 138 l2d
    Form::Bare, // 139 f2i
    Form::Bare, // 140 f2l
    Form::Bare, // 141 f2d
    Form::Bare, // 142 d2i
    Form::Bare, // 143 d2l
    Form::Bare, // 144 d2f
    Form::Bare, // 145 i2b
    Form::Bare, // 146 i2c
    Form::Bare, // 147 i2s
    Form::Bare, // 148 lcmp
    Form::Bare, // 149 fcmpl
    Form::Bare, // 150 fcmpg
    Form::Bare, // 151 dcmpl
    Form::Bare, // 152 dcmpg
    Form::Jump, // 153 ifeq
    Form::Jump, // 154 ifne
    Form::Jump, // 155 iflt
    Form::Jump, // 156 ifge
    Form::Jump, // 157 ifgt
    Form::Jump, // 158 ifle
    Form::Jump, // 159 if_icmpeq
    Form::Jump, // 160 if_icmpne
    Form::Jump, // 161 if_icmplt
    Form::Jump, // 162 if_icmpge
    Form::Jump, // 163 if_icmpgt
    Form::Jump, // 164 if_icmple
    Form::Jump, // 165 if_acmpeq
    Form::Jump, // 166 if_acmpne
    Form::Jump, // 167 goto
    Form::Jump, // 168 jsr
    Form::Slot, // 169 ret
    Form::TableSwitch, // 170 tableswitch
    Form::LookupSwitch, // 171 lookupswitch
    Form::Bare, // 172 ireturn
    Form::Bare, // 173 lreturn
    Form::Bare, // 174 freturn
    Form::Bare, // 175 dreturn
    Form::Bare, // 176 areturn
    Form::Bare, // 177 return
    Form::Field, // 178 getstatic
    Form::Field, // 179 putstatic
    Form::Field, // 180 getfield
    Form::Field, // 181 putfield
    Form::VirtualCall, // 182 invokevirtual
    Form::DirectCall, // 183 invokespecial
    Form::DirectCall, // 184 invokestatic
    Form::InterfaceCall, // 185 invokeinterface
    Form::DynamicCall, // 186 invokedynamic
    Form::Class, // 187 new
    Form::ElementType, // 188 newarray
    Form::Class, // 189 anewarray
    Form::Bare, // 190 arraylength
    Form::Bare, // 191 athrow
    Form::Class, // 192 checkcast
    Form::Class, // 193 instanceof
    Form::Bare, // 194 monitorenter
    Form::Bare, // 195 monitorexit
    Form::Wide, // 196 wide
    Form::Dimensions, // 197 multianewarray
    Form::Jump, // 198 ifnull
    Form::Jump, // 199 ifnonnull
    Form::FarJump, // 200 goto_w
    Form::FarJump, // 201 jsr_w
];

/// The mnemonics of the opcodes, in the same order, with a space between two of them.
#[rattlefmt::skip]
pub const MNEMONICS: &[u8] = b"\
    nop aconst_null iconst_m1 iconst_0 iconst_1 iconst_2 iconst_3 iconst_4 iconst_5 \
    lconst_0 lconst_1 fconst_0 fconst_1 fconst_2 dconst_0 dconst_1 bipush sipush ldc ldc_w \
    ldc2_w iload lload fload dload aload iload_0 iload_1 iload_2 iload_3 lload_0 lload_1 \
    lload_2 lload_3 fload_0 fload_1 fload_2 fload_3 dload_0 dload_1 dload_2 dload_3 aload_0 \
    aload_1 aload_2 aload_3 iaload laload faload daload aaload baload caload saload istore \
    lstore fstore dstore astore istore_0 istore_1 istore_2 istore_3 lstore_0 lstore_1 \
    lstore_2 lstore_3 fstore_0 fstore_1 fstore_2 fstore_3 dstore_0 dstore_1 dstore_2 \
    dstore_3 astore_0 astore_1 astore_2 astore_3 iastore lastore fastore dastore aastore \
    bastore castore sastore pop pop2 dup dup_x1 dup_x2 dup2 dup2_x1 dup2_x2 swap iadd ladd \
    fadd dadd isub lsub fsub dsub imul lmul fmul dmul idiv ldiv fdiv ddiv irem lrem frem \
    drem ineg lneg fneg dneg ishl lshl ishr lshr iushr lushr iand land ior lor ixor lxor \
    iinc i2l i2f i2d l2i l2f l2d f2i f2l f2d d2i d2l d2f i2b i2c i2s lcmp fcmpl fcmpg dcmpl \
    dcmpg ifeq ifne iflt ifge ifgt ifle if_icmpeq if_icmpne if_icmplt if_icmpge if_icmpgt \
    if_icmple if_acmpeq if_acmpne goto jsr ret tableswitch lookupswitch ireturn lreturn \
    freturn dreturn areturn return getstatic putstatic getfield putfield invokevirtual \
    invokespecial invokestatic invokeinterface invokedynamic new newarray anewarray \
    arraylength athrow checkcast instanceof monitorenter monitorexit wide multianewarray \
    ifnull ifnonnull goto_w jsr_w";

/// The form of the opcode's operands, or none where the table has no such opcode (JVMS 6.5).
#[tactic(auto, unfolding(crate::specs::Opcode::form_of))]
pub fn form_of(opcode: u8) -> Option<Form>
    ensures { result ≡ form_of opcode }
{
    at(&FORMS, opcode as usize).copied()
}

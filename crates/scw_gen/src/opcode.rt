//! The opcodes that code is made of (JVMS 6.5). Where one stands for several, the others follow it in order.

/// `iconst_0`, with `iconst_m1` before it and `iconst_1` to `iconst_5` behind it.
pub const ICONST_0: u8 = 3;
/// `lconst_0`, and `lconst_1`.
pub const LCONST_0: u8 = 9;
/// `bipush`
pub const BIPUSH: u8 = 16;
/// `sipush`
pub const SIPUSH: u8 = 17;
/// `ldc`
pub const LDC: u8 = 18;
/// `ldc_w`
pub const LDC_W: u8 = 19;
/// `ldc2_w`
pub const LDC2_W: u8 = 20;
/// `iload`
pub const ILOAD: u8 = 21;
/// `lload`
pub const LLOAD: u8 = 22;
/// `aload`
pub const ALOAD: u8 = 25;
/// `iload_0` to `iload_3`
pub const ILOAD_0: u8 = 26;
/// `lload_0` to `lload_3`
pub const LLOAD_0: u8 = 30;
/// `aload_0` to `aload_3`
pub const ALOAD_0: u8 = 42;
/// `istore`
pub const ISTORE: u8 = 54;
/// `lstore`
pub const LSTORE: u8 = 55;
/// `astore`
pub const ASTORE: u8 = 58;
/// `istore_0` to `istore_3`
pub const ISTORE_0: u8 = 59;
/// `lstore_0` to `lstore_3`
pub const LSTORE_0: u8 = 63;
/// `astore_0` to `astore_3`
pub const ASTORE_0: u8 = 75;
/// `pop`
pub const POP: u8 = 87;
/// `pop2`
pub const POP2: u8 = 88;
/// `dup`
pub const DUP: u8 = 89;
/// `iadd`, and `ladd`.
pub const IADD: u8 = 96;
/// `isub`, and `lsub`.
pub const ISUB: u8 = 100;
/// `imul`, and `lmul`.
pub const IMUL: u8 = 104;
/// `idiv`, and `ldiv`.
pub const IDIV: u8 = 108;
/// `irem`, and `lrem`.
pub const IREM: u8 = 112;
/// `iand`, and `land`.
pub const IAND: u8 = 126;
/// `ior`, and `lor`.
pub const IOR: u8 = 128;
/// `ixor`, and `lxor`.
pub const IXOR: u8 = 130;
/// `lcmp`
pub const LCMP: u8 = 148;
/// `ifeq`, `ifne`, `iflt`, `ifge`, `ifgt` and `ifle`
pub const IFEQ: u8 = 153;
/// `if_icmpeq`, `if_icmpne`, `if_icmplt`, `if_icmpge`, `if_icmpgt` and `if_icmple`
pub const IF_ICMPEQ: u8 = 159;
/// `goto`
pub const GOTO: u8 = 167;
/// `ireturn`
pub const IRETURN: u8 = 172;
/// `lreturn`
pub const LRETURN: u8 = 173;
/// `areturn`
pub const ARETURN: u8 = 176;
/// `return`
pub const RETURN: u8 = 177;
/// `invokevirtual`
pub const INVOKEVIRTUAL: u8 = 182;
/// `invokespecial`
pub const INVOKESPECIAL: u8 = 183;
/// `invokestatic`
pub const INVOKESTATIC: u8 = 184;
/// `new`
pub const NEW: u8 = 187;
/// `wide`
pub const WIDE: u8 = 196;
/// `goto_w`
pub const GOTO_W: u8 = 200;

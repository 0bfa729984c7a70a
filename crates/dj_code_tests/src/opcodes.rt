//! The opcodes that the tables name, by their mnemonics (JVMS 6.5).
//!
//! Code that is too long for a line is laid out by hand. A switch has a line for the opcode and the padding, one for the default and the bounds or
//! the count, and then four targets or one pair a line; other code goes on in a line up to a jump.

pub const NOP: u8 = 0;

pub const ACONST_NULL: u8 = 1;

pub const ICONST_0: u8 = 3;

pub const ICONST_1: u8 = 4;

pub const ICONST_2: u8 = 5;

pub const ICONST_4: u8 = 7;

pub const LCONST_0: u8 = 9;

pub const DCONST_1: u8 = 15;

pub const BIPUSH: u8 = 16;

pub const SIPUSH: u8 = 17;

pub const LDC: u8 = 18;

pub const LDC_W: u8 = 19;

pub const LDC2_W: u8 = 20;

pub const ILOAD: u8 = 21;

pub const LLOAD: u8 = 22;

pub const FLOAD: u8 = 23;

pub const DLOAD: u8 = 24;

pub const ALOAD: u8 = 25;

pub const ILOAD_0: u8 = 26;

pub const ILOAD_1: u8 = 27;

pub const ILOAD_2: u8 = 28;

pub const ILOAD_3: u8 = 29;

pub const LLOAD_0: u8 = 30;

pub const LLOAD_1: u8 = 31;

pub const LLOAD_3: u8 = 33;

pub const ALOAD_0: u8 = 42;

pub const ALOAD_1: u8 = 43;

pub const ALOAD_2: u8 = 44;

pub const ALOAD_3: u8 = 45;

pub const IALOAD: u8 = 46;

pub const AALOAD: u8 = 50;

pub const BALOAD: u8 = 51;

pub const SALOAD: u8 = 53;

pub const ISTORE: u8 = 54;

pub const LSTORE: u8 = 55;

pub const FSTORE: u8 = 56;

pub const DSTORE: u8 = 57;

pub const ASTORE: u8 = 58;

pub const ISTORE_0: u8 = 59;

pub const ISTORE_2: u8 = 61;

pub const ISTORE_3: u8 = 62;

pub const LSTORE_0: u8 = 63;

pub const LSTORE_3: u8 = 66;

pub const ASTORE_1: u8 = 76;

pub const ASTORE_2: u8 = 77;

pub const AASTORE: u8 = 83;

pub const BASTORE: u8 = 84;

pub const POP: u8 = 87;

pub const DUP: u8 = 89;

pub const SWAP: u8 = 95;

pub const IADD: u8 = 96;

pub const LADD: u8 = 97;

pub const IMUL: u8 = 104;

pub const IDIV: u8 = 108;

pub const IREM: u8 = 112;

pub const ISHL: u8 = 120;

pub const LSHR: u8 = 123;

pub const IAND: u8 = 126;

pub const IOR: u8 = 128;

pub const LXOR: u8 = 131;

pub const IINC: u8 = 132;

pub const I2L: u8 = 133;

pub const L2I: u8 = 136;

pub const I2B: u8 = 145;

pub const LCMP: u8 = 148;

pub const DCMPG: u8 = 152;

pub const IFEQ: u8 = 153;

pub const IFNE: u8 = 154;

pub const IFLT: u8 = 155;

pub const IFGT: u8 = 157;

pub const IFLE: u8 = 158;

pub const IF_ICMPGE: u8 = 162;

pub const IF_ACMPEQ: u8 = 165;

pub const IF_ACMPNE: u8 = 166;

pub const GOTO: u8 = 167;

pub const JSR: u8 = 168;

pub const RET: u8 = 169;

pub const TABLESWITCH: u8 = 170;

pub const LOOKUPSWITCH: u8 = 171;

pub const IRETURN: u8 = 172;

pub const ARETURN: u8 = 176;

pub const RETURN: u8 = 177;

pub const GETSTATIC: u8 = 178;

pub const PUTSTATIC: u8 = 179;

pub const GETFIELD: u8 = 180;

pub const PUTFIELD: u8 = 181;

pub const INVOKEVIRTUAL: u8 = 182;

pub const INVOKESPECIAL: u8 = 183;

pub const INVOKESTATIC: u8 = 184;

pub const INVOKEINTERFACE: u8 = 185;

pub const INVOKEDYNAMIC: u8 = 186;

pub const NEW: u8 = 187;

pub const NEWARRAY: u8 = 188;

pub const ANEWARRAY: u8 = 189;

pub const ARRAYLENGTH: u8 = 190;

pub const ATHROW: u8 = 191;

pub const CHECKCAST: u8 = 192;

pub const INSTANCEOF: u8 = 193;

pub const MONITORENTER: u8 = 194;

pub const MONITOREXIT: u8 = 195;

pub const WIDE: u8 = 196;

pub const MULTIANEWARRAY: u8 = 197;

pub const IFNULL: u8 = 198;

pub const IFNONNULL: u8 = 199;

pub const GOTO_W: u8 = 200;

pub const JSR_W: u8 = 201;

pub const BREAKPOINT: u8 = 202;

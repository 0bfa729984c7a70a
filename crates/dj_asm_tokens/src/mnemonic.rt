ghost use Rattle.std.specs.Prelude.{◌≡◌, map, length, option_map};
ghost use Rattle.dj_asm_tokens.specs.trusted.Words.{word_units};
ghost use Rattle.dj_asm_tokens.specs.WordReading.{place_from};
ghost use Rattle.dj_asm_tokens.specs.trusted.Mnemonics.{mnemonics, base_words};
ghost use Rattle.dj_asm_tokens.specs.Tables.{row_view, rows_of_length};

use crate::spelling::{row_at, unit_count};

/// A word, and what it means.
type Row = (&'static [u8], u8);

static THREE: [Row; 24] = [
    (b"nop", 0),
    (b"ldc", 18),
    (b"pop", 87),
    (b"dup", 89),
    (b"ior", 128),
    (b"lor", 129),
    (b"i2l", 133),
    (b"i2f", 134),
    (b"i2d", 135),
    (b"l2i", 136),
    (b"l2f", 137),
    (b"l2d", 138),
    (b"f2i", 139),
    (b"f2l", 140),
    (b"f2d", 141),
    (b"d2i", 142),
    (b"d2l", 143),
    (b"d2f", 144),
    (b"i2b", 145),
    (b"i2c", 146),
    (b"i2s", 147),
    (b"jsr", 168),
    (b"ret", 169),
    (b"new", 187),
];

static FOUR: [Row; 45] = [
    (b"pop2", 88),
    (b"dup2", 92),
    (b"swap", 95),
    (b"iadd", 96),
    (b"ladd", 97),
    (b"fadd", 98),
    (b"dadd", 99),
    (b"isub", 100),
    (b"lsub", 101),
    (b"fsub", 102),
    (b"dsub", 103),
    (b"imul", 104),
    (b"lmul", 105),
    (b"fmul", 106),
    (b"dmul", 107),
    (b"idiv", 108),
    (b"ldiv", 109),
    (b"fdiv", 110),
    (b"ddiv", 111),
    (b"irem", 112),
    (b"lrem", 113),
    (b"frem", 114),
    (b"drem", 115),
    (b"ineg", 116),
    (b"lneg", 117),
    (b"fneg", 118),
    (b"dneg", 119),
    (b"ishl", 120),
    (b"lshl", 121),
    (b"ishr", 122),
    (b"lshr", 123),
    (b"iand", 126),
    (b"land", 127),
    (b"ixor", 130),
    (b"lxor", 131),
    (b"iinc", 132),
    (b"lcmp", 148),
    (b"ifeq", 153),
    (b"ifne", 154),
    (b"iflt", 155),
    (b"ifge", 156),
    (b"ifgt", 157),
    (b"ifle", 158),
    (b"goto", 167),
    (b"wide", 196),
];

static FIVE: [Row; 13] = [
    (b"ldc_w", 19),
    (b"iload", 21),
    (b"lload", 22),
    (b"fload", 23),
    (b"dload", 24),
    (b"aload", 25),
    (b"iushr", 124),
    (b"lushr", 125),
    (b"fcmpl", 149),
    (b"fcmpg", 150),
    (b"dcmpl", 151),
    (b"dcmpg", 152),
    (b"jsr_w", 201),
];

static SIX: [Row; 22] = [
    (b"bipush", 16),
    (b"sipush", 17),
    (b"ldc2_w", 20),
    (b"iaload", 46),
    (b"laload", 47),
    (b"faload", 48),
    (b"daload", 49),
    (b"aaload", 50),
    (b"baload", 51),
    (b"caload", 52),
    (b"saload", 53),
    (b"istore", 54),
    (b"lstore", 55),
    (b"fstore", 56),
    (b"dstore", 57),
    (b"astore", 58),
    (b"dup_x1", 90),
    (b"dup_x2", 91),
    (b"return", 177),
    (b"athrow", 191),
    (b"ifnull", 198),
    (b"goto_w", 200),
];

static SEVEN: [Row; 35] = [
    (b"iload_0", 26),
    (b"iload_1", 27),
    (b"iload_2", 28),
    (b"iload_3", 29),
    (b"lload_0", 30),
    (b"lload_1", 31),
    (b"lload_2", 32),
    (b"lload_3", 33),
    (b"fload_0", 34),
    (b"fload_1", 35),
    (b"fload_2", 36),
    (b"fload_3", 37),
    (b"dload_0", 38),
    (b"dload_1", 39),
    (b"dload_2", 40),
    (b"dload_3", 41),
    (b"aload_0", 42),
    (b"aload_1", 43),
    (b"aload_2", 44),
    (b"aload_3", 45),
    (b"iastore", 79),
    (b"lastore", 80),
    (b"fastore", 81),
    (b"dastore", 82),
    (b"aastore", 83),
    (b"bastore", 84),
    (b"castore", 85),
    (b"sastore", 86),
    (b"dup2_x1", 93),
    (b"dup2_x2", 94),
    (b"ireturn", 172),
    (b"lreturn", 173),
    (b"freturn", 174),
    (b"dreturn", 175),
    (b"areturn", 176),
];

static EIGHT: [Row; 36] = [
    (b"iconst_0", 3),
    (b"iconst_1", 4),
    (b"iconst_2", 5),
    (b"iconst_3", 6),
    (b"iconst_4", 7),
    (b"iconst_5", 8),
    (b"lconst_0", 9),
    (b"lconst_1", 10),
    (b"fconst_0", 11),
    (b"fconst_1", 12),
    (b"fconst_2", 13),
    (b"dconst_0", 14),
    (b"dconst_1", 15),
    (b"istore_0", 59),
    (b"istore_1", 60),
    (b"istore_2", 61),
    (b"istore_3", 62),
    (b"lstore_0", 63),
    (b"lstore_1", 64),
    (b"lstore_2", 65),
    (b"lstore_3", 66),
    (b"fstore_0", 67),
    (b"fstore_1", 68),
    (b"fstore_2", 69),
    (b"fstore_3", 70),
    (b"dstore_0", 71),
    (b"dstore_1", 72),
    (b"dstore_2", 73),
    (b"dstore_3", 74),
    (b"astore_0", 75),
    (b"astore_1", 76),
    (b"astore_2", 77),
    (b"astore_3", 78),
    (b"getfield", 180),
    (b"putfield", 181),
    (b"newarray", 188),
];

static NINE: [Row; 14] = [
    (b"iconst_m1", 2),
    (b"if_icmpeq", 159),
    (b"if_icmpne", 160),
    (b"if_icmplt", 161),
    (b"if_icmpge", 162),
    (b"if_icmpgt", 163),
    (b"if_icmple", 164),
    (b"if_acmpeq", 165),
    (b"if_acmpne", 166),
    (b"getstatic", 178),
    (b"putstatic", 179),
    (b"anewarray", 189),
    (b"checkcast", 192),
    (b"ifnonnull", 199),
];

static TEN: [Row; 2] = [(b"instanceof", 193), (b"breakpoint", 202)];

static ELEVEN: [Row; 4] = [
    (b"aconst_null", 1),
    (b"tableswitch", 170),
    (b"arraylength", 190),
    (b"monitorexit", 195),
];

static TWELVE: [Row; 3] = [
    (b"lookupswitch", 171),
    (b"invokestatic", 184),
    (b"monitorenter", 194),
];

static THIRTEEN: [Row; 3] = [
    (b"invokevirtual", 182),
    (b"invokespecial", 183),
    (b"invokedynamic", 186),
];

static FOURTEEN: [Row; 1] = [(b"multianewarray", 197)];

static FIFTEEN: [Row; 1] = [(b"invokeinterface", 185)];

static BASES: [Row; 8] = [
    (b"boolean", 4),
    (b"char", 5),
    (b"float", 6),
    (b"double", 7),
    (b"byte", 8),
    (b"short", 9),
    (b"int", 10),
    (b"long", 11),
];

/// The instructions whose words have this many bytes.
fn rows(length: usize) -> &'static [Row]
    ensures { map row_view result.now ≡ rows_of_length length }
{
    match length {
        3 => &THREE,
        4 => &FOUR,
        5 => &FIVE,
        6 => &SIX,
        7 => &SEVEN,
        8 => &EIGHT,
        9 => &NINE,
        10 => &TEN,
        11 => &ELEVEN,
        12 => &TWELVE,
        13 => &THIRTEEN,
        14 => &FOURTEEN,
        15 => &FIFTEEN,
        _ => &[],
    }
}

/// The opcode of a word.
#[tactic(auto, using(crate::proofs::TableLaws::place_of_word))]
pub fn opcode_of(bytes: &[u8]) -> Option<u8>
    ensures { result ≡ place_from 0 mnemonics (word_units 0 bytes.now) }
{
    row_at(rows(unit_count(bytes)), bytes)
}

/// The base type of a word.
pub fn base_of(bytes: &[u8]) -> Option<u8>
    ensures { result ≡ place_from 4 base_words (word_units 0 bytes.now) }
{
    row_at(&BASES, bytes)
}

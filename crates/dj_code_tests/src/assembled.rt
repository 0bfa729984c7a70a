use crate::opcodes::*;
use crate::reported::{InstrRow, reported};
use dj_asm::assemble;
use dj_class::{ClassView, read_class, read_code};
use dj_ops::read_instr;
use std::alloc::Global;

// Every instruction once, in the order of the opcodes, and two with `wide`.
const TEXT: &[u8] =
    b".class 21 A\n.super java/lang/Object\n.method 9 m ()V\n.stack 9\n.locals 400\nL:\nnop\naconst_null\niconst_m1\n\
iconst_0\niconst_1\niconst_2\niconst_3\niconst_4\niconst_5\nlconst_0\nlconst_1\nfconst_0\nfconst_1\nfconst_2\ndconst_0\n\
dconst_1\nbipush 5\nsipush 300\nldc int 7\nldc_w int 7\nldc2_w long 9\niload 6\nlload 6\nfload 6\ndload 6\naload 6\n\
iload_0\niload_1\niload_2\niload_3\nlload_0\nlload_1\nlload_2\nlload_3\nfload_0\nfload_1\nfload_2\nfload_3\ndload_0\n\
dload_1\ndload_2\ndload_3\naload_0\naload_1\naload_2\naload_3\niaload\nlaload\nfaload\ndaload\naaload\nbaload\ncaload\n\
saload\nistore 6\nlstore 6\nfstore 6\ndstore 6\nastore 6\nistore_0\nistore_1\nistore_2\nistore_3\nlstore_0\nlstore_1\n\
lstore_2\nlstore_3\nfstore_0\nfstore_1\nfstore_2\nfstore_3\ndstore_0\ndstore_1\ndstore_2\ndstore_3\nastore_0\nastore_1\n\
astore_2\nastore_3\niastore\nlastore\nfastore\ndastore\naastore\nbastore\ncastore\nsastore\npop\npop2\ndup\ndup_x1\n\
dup_x2\ndup2\ndup2_x1\ndup2_x2\nswap\niadd\nladd\nfadd\ndadd\nisub\nlsub\nfsub\ndsub\nimul\nlmul\nfmul\ndmul\nidiv\n\
ldiv\nfdiv\nddiv\nirem\nlrem\nfrem\ndrem\nineg\nlneg\nfneg\ndneg\nishl\nlshl\nishr\nlshr\niushr\nlushr\niand\nland\n\
ior\nlor\nixor\nlxor\niinc 6 -1\ni2l\ni2f\ni2d\nl2i\nl2f\nl2d\nf2i\nf2l\nf2d\nd2i\nd2l\nd2f\ni2b\ni2c\ni2s\nlcmp\n\
fcmpl\nfcmpg\ndcmpl\ndcmpg\nifeq L\nifne L\niflt L\nifge L\nifgt L\nifle L\nif_icmpeq L\nif_icmpne L\nif_icmplt L\n\
if_icmpge L\nif_icmpgt L\nif_icmple L\nif_acmpeq L\nif_acmpne L\ngoto L\njsr L\nret 6\ntableswitch 4 L L default L\n\
lookupswitch 3 L default L\nireturn\nlreturn\nfreturn\ndreturn\nareturn\nreturn\ngetstatic A f I\nputstatic A f I\n\
getfield A f I\nputfield A f I\ninvokevirtual A m ()V\ninvokespecial A m ()V\ninvokestatic A m ()V\n\
invokeinterface A m ()V\ninvokedynamic 3 m ()V\nnew A\nnewarray byte\nanewarray A\narraylength\nathrow\ncheckcast A\n\
instanceof A\nmonitorenter\nmonitorexit\nmultianewarray [[I 2\nifnull L\nifnonnull L\ngoto_w L\njsr_w L\nbreakpoint\n\
wide iload 300\nwide iinc 300 -400\n.end\n";

// The first and the last opcode of some with the same operands, the family's letter, and two numbers.
const FAMILIES: [(u8, u8, u8, i64, i64); 31] = [
    (NOP, DCONST_1, b's', 0, 0),
    (BIPUSH, BIPUSH, b'p', 5, 0),
    (SIPUSH, SIPUSH, b'p', 300, 0),
    (LDC, LDC_W, b'c', 8, 0),
    (LDC2_W, LDC2_W, b'c', 9, 0),
    (ILOAD, ALOAD, b'l', 6, 0),
    (ILOAD_0, SALOAD, b's', 0, 0),
    (ISTORE, ASTORE, b'l', 6, 0),
    (ISTORE_0, LXOR, b's', 0, 0),
    (IINC, IINC, b'i', 6, -1),
    (I2L, DCMPG, b's', 0, 0),
    (IFEQ, JSR, b'b', 0, 0),
    (RET, RET, b'l', 6, 0),
    (TABLESWITCH, TABLESWITCH, b't', 0, 4),
    (LOOKUPSWITCH, LOOKUPSWITCH, b'u', 0, 0),
    (IRETURN, RETURN, b's', 0, 0),
    (GETSTATIC, PUTFIELD, b'm', 14, 0),
    (INVOKEVIRTUAL, INVOKESTATIC, b'm', 16, 0),
    (INVOKEINTERFACE, INVOKEINTERFACE, b'f', 17, 1),
    (INVOKEDYNAMIC, INVOKEDYNAMIC, b'd', 18, 0),
    (NEW, NEW, b'k', 2, 0),
    (NEWARRAY, NEWARRAY, b'a', 8, 0),
    (ANEWARRAY, ANEWARRAY, b'k', 2, 0),
    (ARRAYLENGTH, ATHROW, b's', 0, 0),
    (CHECKCAST, INSTANCEOF, b'k', 2, 0),
    (MONITORENTER, MONITOREXIT, b's', 0, 0),
    (MULTIANEWARRAY, MULTIANEWARRAY, b'n', 20, 2),
    (IFNULL, JSR_W, b'b', 0, 0),
    (BREAKPOINT, BREAKPOINT, b's', 0, 0),
    (ILOAD, ILOAD, b'l', 300, 1),
    (IINC, IINC, b'I', 300, -400),
];

fn is_next(alloc: Global, code: &[u8], at: u32, wanted: InstrRow) -> Option<u32> {
    if (at as usize) < code.len() && code.len() < 65_536 {
        match read_instr(alloc, code, at) {
            Ok((instr, next)) if reported(&instr) == wanted => Some(next),
            _ => None,
        }
    } else {
        None
    }
}

// The address after instructions of one family.
fn after_family(
    alloc: Global,
    code: &[u8],
    start: u32,
    family: (u8, u8, u8, i64, i64),
) -> Option<u32> {
    let (first, last, letter, a, b) = family;
    let mut at = start;
    for op in first..=last {
        at = is_next(alloc, code, at, (letter, op, a, b))?;
    }
    Some(at)
}

fn are_families(alloc: Global, code: &[u8], families: &[(u8, u8, u8, i64, i64)]) -> bool {
    let mut at = 0;
    for family in families {
        match after_family(alloc, code, at, *family) {
            Some(next) => at = next,
            None => return false,
        }
    }
    at as usize == code.len()
}

// The body of the first attribute of the first method.
fn first_body<'a>(view: &ClassView<'a>) -> Option<&'a [u8]> {
    let method = view.methods.as_slice().first()?;
    let attribute = method.attributes.as_slice().first()?;
    Some(attribute.body)
}

fn are_families_of(alloc: Global, body: &[u8]) -> bool {
    if body.len() > 4_294_967_295 {
        return false;
    }
    match read_code(alloc, body) {
        Ok(code) => are_families(alloc, code.code, &FAMILIES),
        Err(_) => false,
    }
}

fn is_read_back(alloc: Global, file: &[u8]) -> bool {
    if file.len() > 4_294_967_295 {
        return false;
    }
    match read_class(alloc, file) {
        Ok(view) => match first_body(&view) {
            Some(body) => are_families_of(alloc, body),
            None => false,
        },
        Err(_) => false,
    }
}

#[test]
fn every_instruction(rt: HostRuntime) {
    assert!(rt;
        matches!(assemble(rt.alloc(), TEXT), Ok(file) if is_read_back(rt.alloc(), file.as_slice()))
    );
}

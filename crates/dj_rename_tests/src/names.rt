//! One text at a time.
use crate::pieces::{Pieces, bytes_of, is_class_text, is_descriptor};
use dj_names::Name;
use dj_rename::{RenameError, plain_name, rename_desc, rename_name};
use std::alloc::Global;

enum Call {
    RenameName,
    PlainName,
    RenameDesc,
}

enum Answer {
    Text(&'static [u8]),
    /// A text of this length.
    Len(usize),
    Long,
}

#[rattlefmt::skip]
const ROWS: [(Call, Pieces, Answer); 68] = [
    (Call::RenameName, &[(b"A", 1)], Answer::Text(b"sandbox/A")),
    (Call::RenameName, &[(b"a/B", 1)], Answer::Text(b"sandbox/a/B")),
    (Call::RenameName, &[(b"java/lang/Object", 1)], Answer::Text(b"sandbox/java/lang/Object")),
    (Call::RenameName, &[(b"sandbox/A", 1)], Answer::Text(b"sandbox/sandbox/A")),
    (Call::RenameName, &[(b"sandbox/sandbox/A", 1)], Answer::Text(b"sandbox/sandbox/sandbox/A")),
    (Call::RenameName, &[(b"sandbox", 1)], Answer::Text(b"sandbox/sandbox")),
    (Call::RenameName, &[(b"L", 1)], Answer::Text(b"sandbox/L")),
    (Call::RenameName, &[(b"LA", 1)], Answer::Text(b"sandbox/LA")),
    (Call::RenameName, &[(b"a/L", 1)], Answer::Text(b"sandbox/a/L")),
    (Call::RenameName, &[(b"[I", 1)], Answer::Text(b"[I")),
    (Call::RenameName, &[(b"[[J", 1)], Answer::Text(b"[[J")),
    (Call::RenameName, &[(b"[La/B;", 1)], Answer::Text(b"[Lsandbox/a/B;")),
    (Call::RenameName, &[(b"[[[Ljava/lang/String;", 1)], Answer::Text(b"[[[Lsandbox/java/lang/String;")),
    (Call::RenameName, &[(b"[Lsandbox/a/B;", 1)], Answer::Text(b"[Lsandbox/sandbox/a/B;")),
    (Call::RenameName, &[(b"[[Z", 1)], Answer::Text(b"[[Z")),
    (Call::RenameName, &[(b"I", 1)], Answer::Text(b"sandbox/I")),
    (Call::RenameName, &[(b"<x>", 1)], Answer::Text(b"sandbox/<x>")),
    (Call::RenameName, &[(b"a/sandbox/B", 1)], Answer::Text(b"sandbox/a/sandbox/B")),
    (Call::RenameName, &[(b"[Ljava/L;", 1)], Answer::Text(b"[Lsandbox/java/L;")),
    (Call::RenameName, &[(b"\xe2\x82\xac", 1)], Answer::Text(b"sandbox/\xe2\x82\xac")),
    (Call::RenameName, &[(b"[LL;", 1)], Answer::Text(b"[Lsandbox/L;")),
    (Call::RenameName, &[(b"djvm/Stop", 1)], Answer::Text(b"sandbox/djvm/Stop")),
    (Call::RenameName, &[(b"[[[[[[[[[[[[[[[[[[[[[[[[[[[[[[[[[[[[[[[[[[[[[[[[[[[[[[[[[[[[[[[[[[[[[[[[[[[[[[[[[[[[[[[[[[[[[[[[[[[[[[[[[[[[[[[[[[[[[[[[[[[[[[[[[[[[[[[[[[[[[[[[[[[[[[[[[[[[[[[[[[[[[[[[[[[[[[[[[[[[[[[[[[[[[[[[[[[[[[[[[[[[[[[[[[[[[[[[[[[[[[[[[[[[[[[[[[[[[[[[[[[[[[[[[[[[[[[LA;", 1)], Answer::Text(b"[[[[[[[[[[[[[[[[[[[[[[[[[[[[[[[[[[[[[[[[[[[[[[[[[[[[[[[[[[[[[[[[[[[[[[[[[[[[[[[[[[[[[[[[[[[[[[[[[[[[[[[[[[[[[[[[[[[[[[[[[[[[[[[[[[[[[[[[[[[[[[[[[[[[[[[[[[[[[[[[[[[[[[[[[[[[[[[[[[[[[[[[[[[[[[[[[[[[[[[[[[[[[[[[[[[[[[[[[[[[[[[[[[[[[[[[[[[[[[[[[[[[[[[[[[[[[[[Lsandbox/A;")),
    (Call::RenameName, &[(b"[[[[[[[[[[[[[[[[[[[[[[[[[[[[[[[[[[[[[[[[[[[[[[[[[[[[[[[[[[[[[[[[[[[[[[[[[[[[[[[[[[[[[[[[[[[[[[[[[[[[[[[[[[[[[[[[[[[[[[[[[[[[[[[[[[[[[[[[[[[[[[[[[[[[[[[[[[[[[[[[[[[[[[[[[[[[[[[[[[[[[[[[[[[[[[[[[[[[[[[[[[[[[[[[[[[[[[[[[[[[[[[[[[[[[[[[[[[[[[[[[[[[[[[[[[[[[[[D", 1)], Answer::Text(b"[[[[[[[[[[[[[[[[[[[[[[[[[[[[[[[[[[[[[[[[[[[[[[[[[[[[[[[[[[[[[[[[[[[[[[[[[[[[[[[[[[[[[[[[[[[[[[[[[[[[[[[[[[[[[[[[[[[[[[[[[[[[[[[[[[[[[[[[[[[[[[[[[[[[[[[[[[[[[[[[[[[[[[[[[[[[[[[[[[[[[[[[[[[[[[[[[[[[[[[[[[[[[[[[[[[[[[[[[[[[[[[[[[[[[[[[[[[[[[[[[[[[[[[[[[[[[[[D")),
    (Call::RenameName, &[(b"sandbo/A", 1)], Answer::Text(b"sandbox/sandbo/A")),
    (Call::RenameName, &[(b"sandboxx/A", 1)], Answer::Text(b"sandbox/sandboxx/A")),
    (Call::PlainName, &[(b"sandbox/a/B", 1)], Answer::Text(b"a/B")),
    (Call::PlainName, &[(b"sandbox/java/lang/Object", 1)], Answer::Text(b"java/lang/Object")),
    (Call::PlainName, &[(b"[Lsandbox/a/B;", 1)], Answer::Text(b"[La/B;")),
    (Call::PlainName, &[(b"[[Lsandbox/sandbox/X;", 1)], Answer::Text(b"[[Lsandbox/X;")),
    (Call::PlainName, &[(b"[I", 1)], Answer::Text(b"[I")),
    (Call::PlainName, &[(b"[[D", 1)], Answer::Text(b"[[D")),
    (Call::PlainName, &[(b"djvm/Stop", 1)], Answer::Text(b"djvm/Stop")),
    (Call::PlainName, &[(b"A", 1)], Answer::Text(b"A")),
    (Call::PlainName, &[(b"sandbox/sandbox/A", 1)], Answer::Text(b"sandbox/A")),
    (Call::PlainName, &[(b"[La/B;", 1)], Answer::Text(b"[La/B;")),
    (Call::PlainName, &[(b"sandbox/L", 1)], Answer::Text(b"L")),
    (Call::PlainName, &[(b"a/sandbox/B", 1)], Answer::Text(b"a/sandbox/B")),
    (Call::PlainName, &[(b"sandboxx/A", 1)], Answer::Text(b"sandboxx/A")),
    (Call::PlainName, &[(b"[Lsandboxx/A;", 1)], Answer::Text(b"[Lsandboxx/A;")),
    (Call::RenameName, &[(b"a", 65527)], Answer::Len(65535)),
    (Call::RenameName, &[(b"a", 65528)], Answer::Long),
    (Call::RenameName, &[(b"[L", 1), (b"a", 65524), (b";", 1)], Answer::Len(65535)),
    (Call::RenameName, &[(b"[L", 1), (b"a", 65525), (b";", 1)], Answer::Long),
    (Call::PlainName, &[(b"sandbox/", 1), (b"a", 65527)], Answer::Len(65527)),
    (Call::RenameDesc, &[(b"L", 1), (b"a", 65525), (b";", 1)], Answer::Len(65535)),
    (Call::RenameDesc, &[(b"L", 1), (b"a", 65526), (b";", 1)], Answer::Long),
    (Call::RenameDesc, &[(b"(", 1), (b"La;", 255), (b")V", 1)], Answer::Len(2808)),
    (Call::RenameDesc, &[(b"I", 1)], Answer::Text(b"I")),
    (Call::RenameDesc, &[(b"J", 1)], Answer::Text(b"J")),
    (Call::RenameDesc, &[(b"[[D", 1)], Answer::Text(b"[[D")),
    (Call::RenameDesc, &[(b"La/B;", 1)], Answer::Text(b"Lsandbox/a/B;")),
    (Call::RenameDesc, &[(b"[La/B;", 1)], Answer::Text(b"[Lsandbox/a/B;")),
    (Call::RenameDesc, &[(b"()V", 1)], Answer::Text(b"()V")),
    (Call::RenameDesc, &[(b"(I)V", 1)], Answer::Text(b"(I)V")),
    (Call::RenameDesc, &[(b"(JZ[B)[[I", 1)], Answer::Text(b"(JZ[B)[[I")),
    (Call::RenameDesc, &[(b"([La/B;I)V", 1)], Answer::Text(b"([Lsandbox/a/B;I)V")),
    (Call::RenameDesc, &[(b"(La;Lb/c;[[Ld;)Le;", 1)], Answer::Text(b"(Lsandbox/a;Lsandbox/b/c;[[Lsandbox/d;)Lsandbox/e;")),
    (Call::RenameDesc, &[(b"()La;", 1)], Answer::Text(b"()Lsandbox/a;")),
    (Call::RenameDesc, &[(b"(LL;)LL;", 1)], Answer::Text(b"(Lsandbox/L;)Lsandbox/L;")),
    (Call::RenameDesc, &[(b"Lsandbox/a;", 1)], Answer::Text(b"Lsandbox/sandbox/a;")),
    (Call::RenameDesc, &[(b"(Lsandbox/A;)Lsandbox/sandbox/A;", 1)], Answer::Text(b"(Lsandbox/sandbox/A;)Lsandbox/sandbox/sandbox/A;")),
    (Call::RenameDesc, &[(b"(ILI;I)LI;", 1)], Answer::Text(b"(ILsandbox/I;I)Lsandbox/I;")),
    (Call::RenameDesc, &[(b"(LLL;)V", 1)], Answer::Text(b"(Lsandbox/LL;)V")),
    (Call::RenameDesc, &[(b"[[[[LZ;", 1)], Answer::Text(b"[[[[Lsandbox/Z;")),
    (Call::RenameDesc, &[(b"(La;La;[[La;[La;)La;", 1)], Answer::Text(b"(Lsandbox/a;Lsandbox/a;[[Lsandbox/a;[Lsandbox/a;)Lsandbox/a;")),
    (Call::RenameDesc, &[(b"Z", 1)], Answer::Text(b"Z")),
    (Call::RenameDesc, &[(b"La;", 1)], Answer::Text(b"Lsandbox/a;")),
];

// What the call answers; none where it may not be made.
fn renamed(alloc: Global, call: &Call, text: &[u8]) -> Option<Result<Name, RenameError>> {
    match call {
        Call::RenameName => {
            if is_class_text(text) {
                Some(rename_name(alloc, text))
            } else {
                None
            }
        }
        Call::PlainName => {
            if is_class_text(text) {
                Some(plain_name(alloc, text))
            } else {
                None
            }
        }
        Call::RenameDesc => {
            if is_descriptor(text) {
                Some(rename_desc(alloc, text))
            } else {
                None
            }
        }
    }
}

fn is_right(answer: &Answer, given: Result<Name, RenameError>) -> bool {
    match (answer, given) {
        (Answer::Text(text), Ok(name)) => name.as_slice() == *text,
        (Answer::Len(len), Ok(name)) => name.as_slice().len() == *len,
        (Answer::Long, Err(RenameError::Long(index))) => index == 0,
        _ => false,
    }
}

fn is_answered(alloc: Global, row: &(Call, Pieces, Answer)) -> bool {
    let Ok(text) = bytes_of(alloc, row.1) else {
        return false;
    };
    match renamed(alloc, &row.0, &text) {
        Some(given) => is_right(&row.2, given),
        None => false,
    }
}

#[test]
fn each(rt: HostRuntime) {
    for row in &ROWS {
        assert!(rt; is_answered(rt.alloc(), row));
    }
}

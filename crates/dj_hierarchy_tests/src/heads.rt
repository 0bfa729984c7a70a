use dj_hierarchy_rule::{ClassHead, HierarchyError, judge_heads};
use std::alloc::Global;

// A head, and whether it violates the rule.
struct Row {
    name: &'static [u8],
    flags: u16,
    superclass: &'static [u8],
    interfaces: &'static [&'static [u8]],
    violates: bool,
}

const OBJECT: &[u8] = b"java/lang/Object";

// A plain class with an interface, that interface, one below a final class of the library, two in a ring, and one below the ring.
const ROWS: [Row; 6] = [
    Row {
        name: b"A",
        flags: 0x0021,
        superclass: OBJECT,
        interfaces: &[b"B"],
        violates: false,
    },
    Row {
        name: b"B",
        flags: 0x0601,
        superclass: OBJECT,
        interfaces: &[],
        violates: false,
    },
    Row {
        name: b"C",
        flags: 0x0021,
        superclass: b"java/lang/String",
        interfaces: &[],
        violates: true,
    },
    Row {
        name: b"D",
        flags: 0x0021,
        superclass: b"E",
        interfaces: &[],
        violates: true,
    },
    Row {
        name: b"E",
        flags: 0x0021,
        superclass: b"D",
        interfaces: &[],
        violates: true,
    },
    Row {
        name: b"F",
        flags: 0x0021,
        superclass: b"E",
        interfaces: &[],
        violates: false,
    },
];

fn heads_of(
    alloc: Global,
    rows: &'static [Row],
) -> Result<Vec<ClassHead<'static>>, HierarchyError> {
    let mut heads = Vec::new(alloc);
    for row in rows {
        heads.push(ClassHead {
            name: row.name,
            flags: row.flags,
            superclass: Some(row.superclass),
            interfaces: Vec::from_slice(alloc, row.interfaces)?,
        })?;
    }
    Ok(heads)
}

fn are_marked(marks: &[bool], rows: &[Row]) -> bool {
    if marks.len() != rows.len() {
        return false;
    }
    for (mark, row) in marks.iter().zip(rows) {
        if *mark != row.violates {
            return false;
        }
    }
    true
}

fn are_judged(alloc: Global, rows: &'static [Row]) -> bool {
    match heads_of(alloc, rows) {
        Ok(heads) if heads.len() < 100 => match judge_heads(alloc, &heads) {
            Ok(marks) => are_marked(&marks, rows),
            Err(_) => false,
        },
        _ => false,
    }
}

#[test]
fn six_heads(rt: HostRuntime) {
    assert!(rt; are_judged(rt.alloc(), &ROWS));
}

ghost use Rattle.std.specs.Prelude.{◌<◌, ◌^◌, ◌↔◌, length, All, IsTrue};

use dj_class::ClassError;
use dj_file_rules::{RulesError, is_memory, rules, units_of_path};
use dj_pool::PoolError;
use dj_report::{PathFile, Violation};
use dj_test_files::{A, FileText, NATIVE, PathText, TWICE, build, lend};
use std::alloc::Global;

// A path, a member and a rule.
type RuleRow = (&'static [u8], &'static [u8], u8);

// Files, and the rows of their violations, in order and each once.
const SETS: [(&[PathText], &[RuleRow]); 2] = [
    (
        &[
            ("B.class", FileText::Whole(NATIVE)),
            ("A.class", FileText::Cut(A)),
        ],
        &[
            (b"A.class", b"", 1),
            (b"B.class", b"finalize()V", 8),
            (b"B.class", b"n()V", 7),
        ],
    ),
    (
        &[("d/D.class", FileText::Whole(TWICE))],
        &[
            (b"d/D.class", b"", 2),
            (b"d/D.class", b"", 3),
            (b"d/D.class", b"finalize()V", 7),
            (b"d/D.class", b"finalize()V", 8),
            (b"d/D.class", b"n()V", 7),
        ],
    ),
];

fn is_row(found: &Violation, wanted: &RuleRow) -> bool {
    found.path.as_slice() == wanted.0
        && found.member.as_slice() == wanted.1
        && found.number.is_none()
        && found.rule == wanted.2
}

// Whether the files are as short as the rules want them.
fn are_short(files: &[PathFile<'_>]) -> bool
    ensures { IsTrue result ↔ All (λ file. length file.bytes.now < 2 ^ 32) files.now }
{
    files.iter().all(|file| file.bytes.len() < 4_294_967_296)
}

// Whether the files have these violations, in order, and no others.
fn violates(alloc: Global, files: &[PathText], wanted: &[RuleRow]) -> Result<bool, RulesError> {
    let built = build(alloc, files)?;
    let lent = lend(alloc, &built)?;
    if !are_short(&lent) {
        return Ok(false);
    }
    let found = rules(alloc, &lent)?;
    let lines = found.as_slice();
    Ok(lines.len() == wanted.len() && lines.iter().zip(wanted).all(|(a, b)| is_row(a, b)))
}

#[test]
fn violations(rt: HostRuntime) {
    for (files, wanted) in &SETS {
        assert!(rt; violates(rt.alloc(), files, wanted) == Ok(true));
    }
}

fn units_are(alloc: Global, path: &str, wanted: &[u16]) -> Result<bool, RulesError> {
    let units = units_of_path(alloc, path)?;
    Ok(units.as_slice() == wanted)
}

#[test]
fn units_of_a_path(rt: HostRuntime) {
    let wanted = [0x61, 0xe9, 0x20ac, 0xd83d, 0xde00];
    assert!(rt; units_are(rt.alloc(), "a\u{e9}\u{20ac}\u{1f600}", &wanted) == Ok(true));
}

// An error, and whether it is want of memory.
const ERRORS: [(ClassError, bool); 3] = [
    (ClassError::Memory, true),
    (ClassError::Pool(PoolError::Memory), true),
    (ClassError::Pool(PoolError::Tag(10)), false),
];

#[test]
fn errors_differ(rt: HostRuntime) {
    for (error, memory) in &ERRORS {
        assert!(rt; is_memory(*error) == *memory);
    }
}

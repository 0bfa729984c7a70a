ghost use Rattle.std.specs.Prelude.{◌<◌, ◌^◌, ◌↔◌, length, All, IsTrue};

use dj_file_rules::RulesError;
use dj_report::{PathFile, Violation};
use dj_rules::rules;
use dj_test_files::{A, BREAKS, FileText, NATIVE, PathText, UNDER_ITSELF, build, lend};
use std::alloc::Global;

/// A path, a member, a number and a rule.
pub type ViolationRow = (&'static [u8], &'static [u8], Option<u32>, u8);

// Files, and their lines, in order and each once.
const SETS: [(&[PathText], &[ViolationRow]); 9] = [
    // The first example's class has no lines.
    (&[("A.class", FileText::Whole(A))], &[]),
    // Two files, in either order.
    (
        &[
            ("A.class", FileText::Cut(A)),
            ("B.class", FileText::Whole(NATIVE)),
        ],
        &[
            (b"A.class", b"", None, 1),
            (b"B.class", b"finalize()V", None, 8),
            (b"B.class", b"n()V", None, 7),
        ],
    ),
    (
        &[
            ("B.class", FileText::Whole(NATIVE)),
            ("A.class", FileText::Cut(A)),
        ],
        &[
            (b"A.class", b"", None, 1),
            (b"B.class", b"finalize()V", None, 8),
            (b"B.class", b"n()V", None, 7),
        ],
    ),
    // A malformed file has one line.
    (
        &[("A.class", FileText::Cut(A))],
        &[(b"A.class", b"", None, 1)],
    ),
    // Two files of one class's name, and two of one path, whose lines are one.
    (
        &[
            ("A.class", FileText::Whole(A)),
            ("b/A.class", FileText::Whole(A)),
        ],
        &[
            (b"A.class", b"", None, 5),
            (b"b/A.class", b"", None, 3),
            (b"b/A.class", b"", None, 5),
        ],
    ),
    (
        &[
            ("A.class", FileText::Whole(A)),
            ("A.class", FileText::Whole(A)),
        ],
        &[(b"A.class", b"", None, 5)],
    ),
    // A malformed file has no name that another could have too.
    (
        &[
            ("A.class", FileText::Whole(A)),
            ("b/A.class", FileText::Cut(A)),
        ],
        &[(b"b/A.class", b"", None, 1)],
    ),
    // HIERARCHY, and BREAKPOINT with the number of an instruction.
    (
        &[("A.class", FileText::Whole(UNDER_ITSELF))],
        &[(b"A.class", b"", None, 6)],
    ),
    (
        &[("A.class", FileText::Whole(BREAKS))],
        &[(b"A.class", b"verify([B)[B", Some(1), 14)],
    ),
];

/// Whether the violation is that of the row.
pub fn is_row(found: &Violation, wanted: &ViolationRow) -> bool {
    found.path.as_slice() == wanted.0
        && found.member.as_slice() == wanted.1
        && found.number == wanted.2
        && found.rule == wanted.3
}

// Whether the files are as short as the rules want them.
fn are_short(files: &[PathFile<'_>]) -> bool
    ensures { IsTrue result ↔ All (λ file. length file.bytes.now < 2 ^ 32) files.now }
{
    files.iter().all(|file| file.bytes.len() < 4_294_967_296)
}

// Whether the files have these lines, in order, and no others.
fn violates(
    alloc: Global,
    files: &[PathText],
    wanted: &[ViolationRow],
) -> Result<bool, RulesError> {
    let built = build(alloc, files)?;
    let lent = lend(alloc, &built)?;
    if !are_short(&lent) {
        return Ok(false);
    }
    let found = rules(alloc, &lent)?;
    let lines = found.as_slice();
    Ok(lines.len() == wanted.len() && lines.iter().zip(wanted).all(|(a, b)| is_row(a, b)))
}

#[test]
fn lines_of_files(rt: HostRuntime) {
    for (files, wanted) in &SETS {
        assert!(rt; violates(rt.alloc(), files, wanted) == Ok(true));
    }
}

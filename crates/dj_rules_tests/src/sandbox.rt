ghost use Rattle.std.specs.Prelude.{◌≡◌, ◌<◌, ◌≤◌, ◌^◌, length, IfOk};
ghost use Rattle.dj_straight.specs.Methods.{program_view};
ghost use Rattle.dj_class_set.specs.trusted.Limits.{most_file_bytes};
ghost use Rattle.dj_class_set.specs.Shaped.{AreShort};

use crate::judging::{ViolationRow, is_row};
use dj_class_set::{
    ClassSet, SandboxError, check, entry_name, entry_of, has_entry, run_violations, verify,
};
use dj_names::{Costs, Kind, Name, Outcome, Thresholds};
use dj_report::{PathFile, Report, Violation};
use dj_straight::{Action, StraightClass, StraightMethod};
use dj_test_files::{A, class_file};
use std::alloc::{AllocError, Global};

// The set of one file.
fn set_of(alloc: Global, path: &str, bytes: &[u8]) -> Result<ClassSet, SandboxError>
    requires { length bytes.now ≤ most_file_bytes }
{
    let path = String::from_str(alloc, path)?;
    let bytes = Vec::from_slice(alloc, bytes)?;
    let mut files = Vec::new(alloc);
    files.push((path, bytes))?;
    ClassSet::new(alloc, files)
}

fn check_a(alloc: Global) -> Result<Report, SandboxError> {
    let bytes = class_file(alloc, A)?;
    check(alloc, &set_of(alloc, "A.class", &bytes)?)
}

#[test]
fn checked(rt: HostRuntime) {
    let report = check_a(rt.alloc());
    assert!(rt; matches!(&report, Ok(Report::Accepted(1))));
}

fn is_returned(report: &Report) -> bool {
    match report {
        Report::Costed {
            outcome: Outcome::OkBytes(bytes),
            costs,
        } => bytes.as_slice() == [10, 11].as_slice() && *costs == NO_COSTS,
        _ => false,
    }
}

const NO_COSTS: Costs = Costs {
    alloc: 0,
    invoke: 0,
    jump: 0,
    throw: 0,
};

const THRESHOLDS: Thresholds = Thresholds {
    alloc: 67_108_864,
    invoke: 1_000_000,
    jump: 1_000_000,
    throw: 1_000_000,
};

fn verify_a(alloc: Global) -> Result<Report, SandboxError> {
    let bytes = class_file(alloc, A)?;
    let set = set_of(alloc, "A.class", &bytes)?;
    verify(alloc, &set, b"A", &[10, 11], THRESHOLDS)
}

#[test]
fn run(rt: HostRuntime) {
    let report = verify_a(rt.alloc());
    assert!(rt; matches!(&report, Ok(report) if is_returned(report)));
}

// JVMS 4.4.7: U+0000 takes two bytes, and U+1F600 is the units D83D and DE00.
const ENTRIES: [(&str, &[u8]); 4] = [
    ("a.B", b"a/B"),
    ("\0", b"\xc0\x80"),
    ("\u{1f600}", b"\xed\xa0\xbd\xed\xb8\x80"),
    ("\u{e9}", b"\xc3\xa9"),
];

fn is_entry_name(alloc: Global, word: &str, wanted: &[u8]) -> Result<bool, AllocError> {
    Ok(entry_name(alloc, word)?.as_slice() == wanted)
}

#[test]
fn names_of_entries(rt: HostRuntime) {
    for (word, wanted) in &ENTRIES {
        assert!(rt; is_entry_name(rt.alloc(), word, wanted) == Ok(true));
    }
}

// aload_0, areturn
const SHAPED: [Action; 2] = [Action::Load(Kind::Ref, 0), Action::ReturnReference];

// aload_0, pop, areturn: nothing is left that areturn could take.
const UNSHAPED: [Action; 3] = [
    Action::Load(Kind::Ref, 0),
    Action::Pop,
    Action::ReturnReference,
];

// The class A with a public static method.
fn class_of(
    alloc: Global,
    name: &[u8],
    actions: &[Action],
) -> Result<Option<StraightClass>, AllocError>
    requires { length actions.now < 2 ^ 32 }
    ensures classes { IfOk result (λ class. length (program_view class) ≡ 1) }
    ensures short { IfOk result AreShort }
{
    let method = StraightMethod {
        flags: 0x0009,
        name: Name::from_slice(alloc, name)?,
        max_stack: 1,
        max_locals: 1,
        actions: Vec::from_slice(alloc, actions)?,
    };
    let mut methods = Vec::new(alloc);
    methods.push(method)?;
    Ok(Some(StraightClass {
        name: Name::from_slice(alloc, b"A")?,
        flags: 0x0021,
        methods,
    }))
}

const LINES: [ViolationRow; 2] = [
    (b"A.class", b"", None, 20),
    (b"A.class", b"other([B)[B", Some(2), 19),
];

// Whether the class A with this method has these violations, and whether it has the entry then.
fn violates(
    alloc: Global,
    name: &[u8],
    actions: &[Action],
    wanted: &[ViolationRow],
) -> Result<bool, AllocError>
    requires { length actions.now < 2 ^ 32 }
{
    let class = class_of(alloc, name, actions)?;
    let bytes = class_file(alloc, A)?;
    let files = [PathFile {
        path: "A.class",
        bytes: &bytes,
    }];
    let found = run_violations(alloc, &files, &class, b"A")?;
    let lines = found.as_slice();
    Ok(
        lines.len() == wanted.len()
            && lines.iter().zip(wanted).all(|(a, b)| is_row(a, b))
            && has_entry(&class, b"A") == wanted.is_empty(),
    )
}

#[test]
fn lines_in_order_and_none(rt: HostRuntime) {
    assert!(rt; violates(rt.alloc(), b"other", &UNSHAPED, &LINES) == Ok(true));
    assert!(rt; violates(rt.alloc(), b"verify", &SHAPED, &[]) == Ok(true));
}

fn is_entry(alloc: Global, entry: &[u8]) -> Result<bool, AllocError> {
    let class = class_of(alloc, b"verify", &SHAPED)?;
    match entry_of(&class, entry) {
        Some(method) => Ok(method.name.as_slice() == b"verify".as_slice()),
        None => Ok(false),
    }
}

#[test]
fn entries(rt: HostRuntime) {
    assert!(rt; is_entry(rt.alloc(), b"A") == Ok(true));
    assert!(rt; is_entry(rt.alloc(), b"B") == Ok(false));
}

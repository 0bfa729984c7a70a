use dj_names::{Bytes, Charge, Costs, Message, Name, Outcome, Units};
use dj_report::{
    Limit, Report, ReportError, Violation, Violations, bytes_of, compare, in_order, status_of,
};
use std::alloc::{AllocError, Global};

// The report has this text, and the program ends with this status.
fn says(alloc: Global, report: &Report, text: &[u8], status: u8) -> Result<bool, ReportError> {
    let bytes = bytes_of(alloc, report)?;
    Ok(bytes.as_slice() == text && status_of(report) == status)
}

const COSTS: Costs = Costs {
    alloc: 24,
    invoke: 0,
    jump: 7,
    throw: 0,
};

// Reports that hold no bytes of their own.
const PLAIN: [(Report, &[u8], u8); 10] = [
    (Report::Accepted(1), b"ACCEPTED 1\n", 0),
    (Report::Accepted(4_096), b"ACCEPTED 4096\n", 0),
    (Report::Limited(Limit::FileCount), b"LIMIT files 4096\n", 7),
    (Report::Limited(Limit::File), b"LIMIT file 4194304\n", 7),
    (Report::Limited(Limit::Total), b"LIMIT total 67108864\n", 7),
    (Report::Limited(Limit::Input), b"LIMIT input 1048576\n", 7),
    (Report::Usage, b"USAGE\n", 64),
    (
        Report::Syntax {
            line: 1,
            column: 10,
        },
        b"ASM SYNTAX 1 10\n",
        68,
    ),
    (Report::Label { line: 7 }, b"ASM LABEL 7\n", 68),
    (Report::Large { line: 12 }, b"ASM LARGE 12\n", 68),
];

#[test]
fn plain_reports(rt: HostRuntime) {
    for (report, text, status) in &PLAIN {
        assert!(rt; says(rt.alloc(), report, text, *status) == Ok(true));
    }
}

// For a file, whether it is reported as absent or as unsupported.
const PATHS: [(bool, &[u8], &[u8], u8); 2] = [
    (
        false,
        b" !%$&~\x7f\xc3\xa9\x00",
        b"LATER %20!%25$&~%7F%C3%A9%00\n",
        75,
    ),
    (true, b"in", b"ABSENT in\n", 65),
];

fn says_path(
    alloc: Global,
    is_absent: bool,
    path: &[u8],
    text: &[u8],
    status: u8,
) -> Result<bool, ReportError> {
    let path = Name::from_slice(alloc, path)?;
    let report = if is_absent {
        Report::Absent(path)
    } else {
        Report::Later(path)
    };
    says(alloc, &report, text, status)
}

#[test]
fn reports_of_paths(rt: HostRuntime) {
    for (is_absent, path, text, status) in &PATHS {
        assert!(rt; says_path(rt.alloc(), *is_absent, path, text, *status) == Ok(true));
    }
}

// Ends of runs that hold no bytes of their own, and their lines.
const ENDS: [(Outcome, &[u8], u8); 9] = [
    (Outcome::OkNull, b"OK null\n", 0),
    (Outcome::Link, b"LINK\n", 6),
    (Outcome::TooDeep, b"DEPTH\n", 4),
    (Outcome::Stopped(Charge::Alloc), b"THRESHOLD alloc\n", 3),
    (Outcome::Stopped(Charge::Invoke), b"THRESHOLD invoke\n", 3),
    (Outcome::Stopped(Charge::Jump), b"THRESHOLD jump\n", 3),
    (Outcome::Stopped(Charge::Throw), b"THRESHOLD throw\n", 3),
    (
        Outcome::HeapFull {
            used: 16,
            size: 67_108_880,
        },
        b"HEAP 16 67108880\n",
        9,
    ),
    (Outcome::OutOfSteps { steps: 5 }, b"STEPS 5\n", 8),
];

// The report on a run that ended so has this line and one of the costs, and the program ends with this status.
fn says_run(alloc: Global, outcome: Outcome, line: &[u8], status: u8) -> Result<bool, ReportError> {
    let mut text = Vec::from_slice(alloc, line)?;
    text.extend_from_slice(b"costs alloc 24 invoke 0 jump 7 throw 0\n")?;
    let report = Report::Costed {
        outcome,
        costs: COSTS,
    };
    says(alloc, &report, &text, status)
}

#[test]
fn plain_ends(rt: HostRuntime) {
    for (outcome, line, status) in ENDS {
        assert!(rt; says_run(rt.alloc(), outcome, line, status) == Ok(true));
    }
}

// What a run returned, and its line.
const RETURNED: [(&[u8], &[u8]); 2] = [(b"", b"OK 0\n"), (b"\x0a\x0b", b"OK 2 0a0b\n")];

fn says_bytes(alloc: Global, bytes: &[u8], line: &[u8]) -> Result<bool, ReportError> {
    let bytes = Bytes::from_slice(alloc, bytes)?;
    says_run(alloc, Outcome::OkBytes(bytes), line, 0)
}

#[test]
fn returned_bytes(rt: HostRuntime) {
    for (bytes, line) in &RETURNED {
        assert!(rt; says_bytes(rt.alloc(), bytes, line) == Ok(true));
    }
}

// The class whose initialiser threw, the exception's class, its message, the line and the status.
type Thrown = (
    Option<&'static [u8]>,
    &'static [u8],
    Option<&'static [u16]>,
    &'static [u8],
    u8,
);

const THROWN: [Thrown; 4] = [
    (
        None,
        b"java/lang/NegativeArraySizeException",
        None,
        b"EXCEPTION java/lang/NegativeArraySizeException null\n",
        1,
    ),
    (
        None,
        b"java/lang/IllegalArgumentException",
        Some(&[
            0x62, 0x61, 0x64, 0x20, 0x61, 0x6d, 0x6f, 0x75, 0x6e, 0x74, 0x20, 0x2d, 0x35,
        ]),
        b"EXCEPTION java/lang/IllegalArgumentException 13 00620061006400200061006d006f0075006e00740020002d0035\n",
        1,
    ),
    (None, b"\xc3\xa9%", Some(&[]), b"EXCEPTION %C3%A9%25 0\n", 1),
    (
        Some(b"C"),
        b"java/lang/NullPointerException",
        None,
        b"INIT C java/lang/NullPointerException null\n",
        5,
    ),
];

fn message_of(alloc: Global, units: Option<&[u16]>) -> Result<Message, AllocError> {
    match units {
        None => Ok(Message::Null),
        Some(units) => Ok(Message::Text(Units::from_slice(alloc, units)?)),
    }
}

fn thrown_of(alloc: Global, row: &Thrown) -> Result<Outcome, AllocError> {
    let exception = Name::from_slice(alloc, row.1)?;
    let message = message_of(alloc, row.2)?;
    match row.0 {
        None => Ok(Outcome::Threw(exception, message)),
        Some(class) => Ok(Outcome::Init(Name::from_slice(alloc, class)?, exception, message)),
    }
}

fn says_thrown(alloc: Global, row: &Thrown) -> Result<bool, ReportError> {
    let outcome = thrown_of(alloc, row)?;
    says_run(alloc, outcome, row.3, row.4)
}

#[test]
fn exceptions(rt: HostRuntime) {
    for row in &THROWN {
        assert!(rt; says_thrown(rt.alloc(), row) == Ok(true));
    }
}

// A path, a member, a number and a rule.
type ViolationRow = (&'static [u8], &'static [u8], Option<u32>, u8);

fn violation(alloc: Global, line: &ViolationRow) -> Result<Violation, AllocError> {
    Ok(Violation {
        path: Name::from_slice(alloc, line.0)?,
        member: Name::from_slice(alloc, line.1)?,
        number: line.2,
        rule: line.3,
    })
}

const FOUND: [ViolationRow; 4] = [
    (b"B.class", b"n()V", None, 7),
    (b"B.class", b"finalize()V", None, 8),
    (b"B.class", b"n()V", None, 7),
    (b"A.class", b"", None, 1),
];

const FOUND_LATER: [ViolationRow; 4] = [
    (b"C.class", b"v([B)[B", Some(10), 3),
    (b"C.class", b"v([B)[B", Some(9), 2),
    (b"D.class", b"d()V", Some(0), 19),
    (b"D.class", b"d()V", None, 20),
];

const REJECTED: &[u8] =
    b"REJECTED 7\nA.class - - 1 MALFORMED\nB.class finalize()V - 8 FINALIZER\nB.class n()V - 7 NATIVE\n\
      C.class v([B)[B 9 2 VERSION\nC.class v([B)[B 10 3 NAME\nD.class d()V - 20 ENTRY\nD.class d()V 0 19 SHAPE\n";

fn ordered(alloc: Global, lines: &[ViolationRow]) -> Result<Violations, AllocError> {
    let mut found = Vec::new(alloc);
    for line in lines {
        found.push(violation(alloc, line)?)?;
    }
    Ok(in_order(found))
}

fn rejected(alloc: Global) -> Result<Report, AllocError> {
    let mut lines = ordered(alloc, &FOUND)?;
    lines.append(ordered(alloc, &FOUND_LATER)?)?;
    Ok(Report::Rejected(lines))
}

#[test]
fn violations_in_order(rt: HostRuntime) {
    let report = rejected(rt.alloc());
    assert!(rt; matches!(&report, Ok(report) if says(rt.alloc(), report, REJECTED, 2) == Ok(true)));
}

// Lines that rise: no number comes before any, and capital letters before small ones.
const RISING: [ViolationRow; 5] = [
    (b"A.class", b"", None, 3),
    (b"A.class", b"a()V", None, 8),
    (b"A.class", b"a()V", Some(0), 7),
    (b"A.class", b"a()V", Some(0), 8),
    (b"a.class", b"", None, 1),
];

fn rise(alloc: Global) -> Result<Violations, AllocError> {
    let mut rising = Violations::new(alloc);
    for line in &RISING {
        rising.push(violation(alloc, line)?)?;
    }
    Ok(rising)
}

fn compares(rising: &[Violation]) -> bool {
    rising.iter().enumerate().all(|(i, a)| {
        rising.iter().enumerate().all(|(j, b)| {
            compare(a, b) == i.cmp(&j) && (a < b) == (i < j) && (a == b) == (i == j)
        })
    })
}

#[test]
fn none_comes_first(rt: HostRuntime) {
    let rising = rise(rt.alloc());
    assert!(rt; matches!(&rising, Ok(rising) if compares(rising.as_slice())));
}

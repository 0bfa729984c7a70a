ghost use Rattle.std.specs.Prelude.{◌≡◌, [], ◌∷◌, ◌++◌, OnOk, OnErr};

use dj_names::{Bytes, Costs, Name, Outcome};
use std::alloc::{AllocError, Global};
use std::marker::Model;

/// A limit on what is read.
#[derive(Clone, Copy, Debug, PartialEq, Eq)]
pub enum Limit {
    /// At most 4,096 class files.
    FileCount,
    /// At most 4,194,304 bytes of a class file.
    File,
    /// At most 67,108,864 bytes of class files together.
    Total,
    /// At most 1,048,576 bytes of the input.
    Input,
}

/// A line of a rejected report: a rule that a file, a member or an instruction violates.
#[derive(Debug, Drop)]
pub struct Violation {
    /// The file's path within the folder, as UTF-8.
    pub path: Name,
    /// The member's name and descriptor; empty where the line is on the whole file.
    pub member: Name,
    /// The number of the instruction, counted from 0.
    pub number: Option<u32>,
    /// The number of the rule.
    pub rule: u8,
}

/// Violations, one a line.
#[derive(Debug, Drop)]
pub struct Violations {
    items: Vec<Violation>,
}

impl Model for Violations {
    ghost use Rattle.std.specs.Prelude.{List};
    ghost use Rattle.dj_report.specs.declared.report.Violation.{Violation};

    ghost Value = { List Violation };

    ghost view = { λ violations. violations.items.items };
}

impl Violations {
    /// No violations.
    pub fn new(alloc: Global) -> Violations
        ensures { result ≡ [] }
    {
        Violations {
            items: Vec::new(alloc),
        }
    }

    /// Appends a violation.
    pub fn push(&mut self, item: Violation) -> Result<(), AllocError>
        ensures ok { OnOk result (self.new ≡ self.old ++ item ∷ []) }
        ensures err { OnErr result (self.new ≡ self.old) }
    {
        Ok(self.items.push(item)?)
    }

    /// Appends violations.
    pub fn append(&mut self, mut more: Violations) -> Result<(), AllocError>
        ensures ok { OnOk result (self.new ≡ self.old ++ more) }
        ensures err { OnErr result (self.new ≡ self.old) }
    {
        Ok(self.items.append(&mut more.items)?)
    }

    /// The violations, borrowed.
    pub fn as_slice(&self) -> &[Violation]
        ensures { result.now ≡ self.now }
    {
        self.items.as_slice()
    }
}

impl From<Vec<Violation>> for Violations {
    ghost from_gives = { λ items violations. violations ≡ items.items };

    fn from(items: Vec<Violation>) -> Violations {
        Violations { items }
    }
}

impl From<Violations> for Vec<Violation> {
    ghost from_gives = { λ violations items. violations ≡ items.items };

    fn from(violations: Violations) -> Vec<Violation> {
        violations.items
    }
}

/// What a command reports of a job.
#[derive(Debug, Drop)]
pub enum Report {
    /// No rule is violated, by this many class files.
    Accepted(u32),
    /// The violations, at least one.
    Rejected(Violations),
    /// The first limit that was passed.
    Limited(Limit),
    /// The set is not straight. The path is that of its first file, within the folder.
    Later(Name),
    /// There is no file of this path, as UTF-8.
    Absent(Name),
    /// How a run ended, and what it was charged.
    Costed {
        outcome: Outcome,
        costs: Costs,
    },
    /// How a run of `raw` ended, and after how many steps.
    Raw {
        outcome: Outcome,
        steps: u64,
    },
    /// How a run of rewritten classes ended, what it was charged, the SHA-256 digest of their files, and after how many steps it ended.
    Ran {
        outcome: Outcome,
        costs: Costs,
        code: [u8; 32],
        steps: u64,
    },
    /// The words give no job.
    Usage,
    /// What is in this line of an assembler's text, at this column, isn't allowed there.
    Syntax {
        line: u32,
        column: u32,
    },
    /// This line of an assembler's text names a label that is unknown or of no use there, or defines one again.
    Label {
        line: u32,
    },
    /// This line of an assembler's text has something that doesn't fit.
    Large {
        line: u32,
    },
    /// The bytes of a class file, and nothing else.
    Written(Bytes),
}

/// A class file and its path within the folder.
#[derive(Clone, Copy, Debug)]
pub struct PathFile<'a> {
    pub path: &'a str,
    pub bytes: &'a [u8],
}

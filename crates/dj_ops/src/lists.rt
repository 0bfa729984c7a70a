ghost use Rattle.std.specs.Prelude.{◌≡◌, List, [], ◌∷◌, ◌++◌, OnOk, OnErr, IfOk};
ghost use Rattle.dj_ops.specs.trusted.Lookups.{rises};
ghost use Rattle.dj_ops.specs.Lookups.{first_target};

use crate::matches::{is_above_last, is_rising, target_by_halving, target_in_turn};
use std::alloc::{AllocError, Global};
use std::marker::Model;

/// The targets of a table, in its order. They are behind one pointer, so that an instruction is small.
#[derive(Debug, Drop)]
pub struct Targets {
    targets: Box<Vec<i64>>,
}

impl Model for Targets {
    ghost use Rattle.std.specs.Prelude.{List, ℤ};

    ghost Value = { List ℤ };

    ghost view = { λ targets. targets.targets.value.items };
}

impl Targets {
    /// No targets.
    pub fn new(alloc: Global) -> Result<Targets, AllocError>
        ensures { IfOk result (λ targets. targets ≡ []) }
    {
        Targets::from_vec(Vec::new(alloc))
    }

    /// The targets in this vector.
    pub fn from_vec(targets: Vec<i64>) -> Result<Targets, AllocError>
        ensures { IfOk result (λ made. made ≡ targets.items) }
    {
        let alloc = *targets.allocator();
        Ok(Targets {
            targets: Box::new(alloc, targets)?,
        })
    }

    /// Appends a target.
    pub fn push(&mut self, item: i64) -> Result<(), AllocError>
        ensures ok { OnOk result (self.new ≡ self.old ++ item ∷ []) }
        ensures err { OnErr result (self.new ≡ self.old) }
    {
        Ok(self.targets.push(item)?)
    }

    /// The targets, borrowed.
    pub fn as_slice(&self) -> &[i64]
        ensures { result.now ≡ self.now }
    {
        self.targets.as_slice()
    }
}

// The pairs, and whether they rise.
#[derive(Debug, Drop)]
struct Matched {
    pairs: Vec<(i32, i64)>,
    // Whether each match is below the next, as in every lookup that is read: a target is then found by halving.
    rising: bool,
}

impl Model for Matched {
    ghost use Rattle.std.specs.Prelude.{◌≡◌, List, ℤ};
    ghost use Rattle.dj_ops.specs.trusted.Lookups.{rises};

    ghost Value = { List (ℤ × ℤ) };

    ghost view = { λ matched. matched.pairs.items };

    ghost invariant = { λ matched. matched.rising ≡ rises matched.pairs.items };
}

impl Matched {
    // Appends a match and its target.
    fn push(&mut self, item: (i32, i64)) -> Result<(), AllocError>
        ensures ok { OnOk result (self.new ≡ self.old ++ item ∷ []) }
        ensures err { OnErr result (self.new ≡ self.old) }
    {
        let rising = self.rising && is_above_last(&self.pairs, item);
        self.pairs.push(item)?;
        self.rising = rising;
        Ok(())
    }
}

/// The matches of a lookup and their targets, in its order. They are behind one pointer, so that an instruction is small.
#[derive(Debug, Drop)]
pub struct Pairs {
    matched: Box<Matched>,
}

impl Model for Pairs {
    ghost use Rattle.std.specs.Prelude.{List, ℤ};

    ghost Value = { List (ℤ × ℤ) };

    ghost view = { λ pairs. pairs.matched.value };
}

impl Pairs {
    /// No pairs.
    pub fn new(alloc: Global) -> Result<Pairs, AllocError>
        ensures { IfOk result (λ pairs. pairs ≡ []) }
    {
        Pairs::from_vec(Vec::new(alloc))
    }

    /// The pairs in this vector.
    pub fn from_vec(pairs: Vec<(i32, i64)>) -> Result<Pairs, AllocError>
        ensures { IfOk result (λ made. made ≡ pairs.items) }
    {
        let alloc = *pairs.allocator();
        let rising = is_rising(&pairs);
        Ok(Pairs {
            matched: Box::new(alloc, Matched { pairs, rising })?,
        })
    }

    /// Appends a match and its target.
    pub fn push(&mut self, item: (i32, i64)) -> Result<(), AllocError>
        ensures ok { OnOk result (self.new ≡ self.old ++ item ∷ []) }
        ensures err { OnErr result (self.new ≡ self.old) }
    {
        self.matched.push(item)
    }

    /// Whether each match is below the next.
    pub(crate) fn rises(&self) -> bool
        ensures { result ≡ rises self.now }
    {
        self.matched.rising
    }

    /// The target of the first pair with the match.
    pub fn target_of(&self, wanted: i32) -> Option<i64>
        ensures { result ≡ first_target self.now wanted }
    {
        if self.matched.rising {
            target_by_halving(&self.matched.pairs, wanted)
        } else {
            target_in_turn(&self.matched.pairs, wanted)
        }
    }

    /// The pairs, borrowed.
    pub fn as_slice(&self) -> &[(i32, i64)]
        ensures { result.now ≡ self.now }
    {
        self.matched.pairs.as_slice()
    }
}

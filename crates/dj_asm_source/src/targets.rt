ghost use Rattle.std.specs.Prelude.{◌≡◌, [], ◌∷◌, ◌++◌, map, OnOk};

use dj_asm_tokens::Word;
use std::alloc::{AllocError, Global};
use std::marker::Model;

/// Labels, in their order.
#[derive(Drop)]
pub struct Labels<'t> {
    items: Vec<Word<'t>>,
}

impl<'t> Model for Labels<'t> {
    ghost use Rattle.std.specs.Prelude.{List, map};
    ghost use Rattle.dj_asm_source.specs.trusted.Lines.{Label};
    ghost use Rattle.dj_asm_tokens.specs.Views.{units_of};

    ghost Value = { List Label };

    ghost view = { λ labels. map units_of labels.items.items };
}

impl<'t> Labels<'t> {
    ghost use Rattle.dj_asm_tokens.specs.Views.{units_of};

    /// No labels.
    pub(crate) fn new(alloc: Global) -> Labels<'t>
        ensures { result ≡ [] }
    {
        Labels {
            items: Vec::new(alloc),
        }
    }

    /// The labels' words.
    pub fn as_slice(&self) -> &[Word<'t>]
        ensures { map units_of result.now ≡ self.now }
    {
        &self.items
    }

    /// Appends a label.
    pub(crate) fn push(&mut self, label: Word<'t>) -> Result<(), AllocError>
        ensures { OnOk result (self.new ≡ self.old ++ units_of label.entry ∷ []) }
    {
        Ok(self.items.push(label)?)
    }
}

/// A match and its target.
#[derive(Clone, Copy)]
pub struct Pair<'t> {
    pub key: i32,
    pub target: Word<'t>,
}

/// Matches with their targets, in their order.
#[derive(Drop)]
pub struct Pairs<'t> {
    items: Vec<Pair<'t>>,
}

impl<'t> Model for Pairs<'t> {
    ghost use Rattle.std.specs.Prelude.{List, ℤ, map};
    ghost use Rattle.dj_asm_source.specs.trusted.Lines.{Label};
    ghost use Rattle.dj_asm_source.specs.PairViews.{pair_view};

    ghost Value = { List (ℤ × Label) };

    ghost view = { λ pairs. map pair_view pairs.items.items };
}

impl<'t> Pairs<'t> {
    ghost use Rattle.dj_asm_tokens.specs.Views.{units_of};
    ghost use Rattle.dj_asm_source.specs.PairViews.{pair_view};

    /// No pairs.
    pub(crate) fn new(alloc: Global) -> Pairs<'t>
        ensures { result ≡ [] }
    {
        Pairs {
            items: Vec::new(alloc),
        }
    }

    /// The pairs.
    pub fn as_slice(&self) -> &[Pair<'t>]
        ensures { map pair_view result.now ≡ self.now }
    {
        &self.items
    }

    /// Appends a match with its target.
    pub(crate) fn push(&mut self, key: i32, target: Word<'t>) -> Result<(), AllocError>
        ensures { OnOk result (self.new ≡ self.old ++ (key, units_of target.entry) ∷ []) }
    {
        Ok(self.items.push(Pair { key, target })?)
    }
}

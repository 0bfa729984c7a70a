//! Rewritten class files.
ghost use Rattle.std.specs.Prelude.{◌≡◌, IsPermutation, IsSorted};
ghost use Rattle.dj_rewrite.specs.Sets.{file_cmp};

use dj_names::{Bytes, Name};
use std::marker::Model;

/// A rewritten class file.
#[derive(Debug, Drop)]
pub struct RewrittenFile {
    /// The plain name of its class, with slashes, as the original file has it.
    pub name: Name,
    /// The bytes of the file.
    pub bytes: Bytes,
}

/// Rewritten class files, in the order of the bytes of their names.
#[derive(Debug, Drop)]
pub struct Rewritten {
    items: Vec<RewrittenFile>,
}

impl Model for Rewritten {
    ghost use Rattle.std.specs.Prelude.{List};
    ghost use Rattle.dj_rewrite.specs.declared.rewritten.RewrittenFile.{RewrittenFile};

    ghost Value = { List RewrittenFile };

    ghost view = { λ files. files.items.items };
}

impl Rewritten {
    /// The files, put in order.
    pub(crate) fn in_order(mut items: Vec<RewrittenFile>) -> Rewritten
        ensures moved { IsPermutation items.items result }
        ensures in_order { IsSorted file_cmp result }
    {
        items.sort_unstable_by(|a, b| a.name.as_slice().cmp(b.name.as_slice()));
        Rewritten { items }
    }

    /// The files, borrowed.
    pub fn as_slice(&self) -> &[RewrittenFile]
        ensures { result.now ≡ self.now }
    {
        self.items.as_slice()
    }
}

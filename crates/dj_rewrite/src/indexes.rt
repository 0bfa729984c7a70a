//! The indexes of descriptors.
ghost use Rattle.std.specs.Prelude.{◌≡◌, ◌++◌, map, IfOk, OnOk};
ghost use Rattle.dj_class.specs.Members.{member_of};
ghost use Rattle.dj_class.specs.Views.{class_of};
ghost use Rattle.dj_rewritten.specs.Files.{desc_indexes};
ghost use Rattle.dj_rewrite.specs.Answers.{desc_of};

use dj_class::{ClassView, MemberView};
use std::alloc::{AllocError, Global};

fn add_indexes(indexes: &mut Vec<u16>, members: &[MemberView<'_>]) -> Result<(), AllocError>
    ensures { OnOk result (indexes.new.items ≡ indexes.old.items ++ map desc_of (map member_of members.now)) }
{
    for member in members {
        indexes.push(member.desc)?;
    }
    Ok(())
}

/// The indexes of the descriptors of the fields, and then those of the methods.
pub(crate) fn indexes_of(alloc: Global, view: &ClassView<'_>) -> Result<Vec<u16>, AllocError>
    ensures { IfOk result (λ indexes. indexes.items ≡ desc_indexes (class_of view.now)) }
{
    let mut indexes = Vec::new(alloc);
    add_indexes(&mut indexes, view.fields.as_slice())?;
    add_indexes(&mut indexes, view.methods.as_slice())?;
    Ok(indexes)
}

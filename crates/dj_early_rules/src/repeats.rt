ghost use Rattle.std.specs.Prelude.{◌≡◌, ◌↔◌, map, IsTrue, IfOk};
ghost use Rattle.dj_class.specs.trusted.ClassFile.{IsValid};
ghost use Rattle.dj_class.specs.Members.{member_of};
ghost use Rattle.dj_class.specs.Views.{class_of};
ghost use Rattle.dj_early_rules.specs.Judged.{AreTexts, AreNumbered};
ghost use Rattle.dj_early_rules.specs.trusted.Heads.{HasRepeats};
ghost use Rattle.dj_early_rules.specs.Gathered.{names_of, HasAgain};

use crate::judged::JudgedText;
use crate::methods::names_of;
use dj_class::{ClassView, MemberView};
use dj_pool::Pool;
use std::alloc::{AllocError, Global};
use std::collections::BTreeSet;

// Whether two of the members have the same indexes of a name and a descriptor, as representatives. No text is looked at, so the work grows as n log n.
fn has_again(
    alloc: Global,
    pool: &Pool<'_>,
    texts: &[JudgedText],
    members: &[MemberView<'_>],
) -> Result<bool, AllocError>
    requires { AreTexts pool.now texts.now }
    ensures { IfOk result (λ again. IsTrue again ↔ HasAgain (names_of texts.now (map member_of members.now))) }
{
    let mut seen = BTreeSet::new(alloc);
    for member in members {
        let new = seen.insert(names_of(pool, texts, member))?;
        if !new {
            return Ok(true);
        }
    }
    Ok(false)
}

/// Whether two fields or two methods of the class file have the same name and the same descriptor.
pub fn has_repeats(
    alloc: Global,
    view: &ClassView<'_>,
    texts: &[JudgedText],
) -> Result<bool, AllocError>
    requires texts { AreTexts view.now.pool texts.now }
    requires numbered { AreNumbered (class_of view.now) texts.now }
    requires valid { IsValid (class_of view.now) }
    ensures { IfOk result (λ repeats. IsTrue repeats ↔ HasRepeats (class_of view.now)) }
{
    let fields = has_again(alloc, &view.pool, texts, view.fields.as_slice())?;
    if fields {
        return Ok(true);
    }
    has_again(alloc, &view.pool, texts, view.methods.as_slice())
}

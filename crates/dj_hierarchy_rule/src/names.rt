ghost use Rattle.std.specs.Prelude.{◌≡◌, ◌<◌, ◌^◌, ◌↔◌, IfOk, length, map};
ghost use Rattle.dj_hierarchy_rule.specs.Names.{AreNames, widened_known};
ghost use Rattle.dj_hierarchy_rule.specs.Views.{seen_view};

use crate::error::HierarchyError;
use crate::head::Seen;
use std::alloc::Global;
use std::collections::BTreeMap;

/// What is known of the classes of one name.
#[derive(Clone, Copy)]
pub struct Known {
    /// The place of one of them, which represents the name.
    pub place: u32,
    /// One of them is an interface.
    pub has_interface: bool,
    /// One of them is no interface.
    pub has_class: bool,
    /// One of them is final.
    pub has_final: bool,
}

// What is kept of a name once a class at this place has it too.
fn widened(known: Option<Known>, place: u32, is_interface: bool, is_final: bool) -> Known
    ensures { result ≡ widened_known known place is_interface is_final }
{
    match known {
        None => Known {
            place,
            has_interface: is_interface,
            has_class: !is_interface,
            has_final: is_final,
        },
        Some(known) => Known {
            place: known.place,
            has_interface: known.has_interface || is_interface,
            has_class: known.has_class || !is_interface,
            has_final: known.has_final || is_final,
        },
    }
}

/// What is known of each name that a class has.
pub fn names_of<'a>(
    alloc: Global,
    heads: &[Seen<'a>],
) -> Result<BTreeMap<&'a [u8], Known>, HierarchyError>
    requires { length heads.now < 2 ^ 31 }
    ensures { IfOk result (AreNames (map seen_view heads.now)) }
{
    let mut names = BTreeMap::new(alloc);
    for (place, head) in heads.iter().enumerate() {
        let known = names.get(head.name).copied();
        let more = widened(known, place as u32, head.is_interface(), head.is_final());
        names.insert(head.name, more)?;
    }
    Ok(names)
}

ghost use Rattle.std.specs.Prelude.{◌≡◌, ℕ, ◌<◌, ◌≤◌, ◌^◌, ◌↔◌, ◌⊎◌, IsTrue, IfOk, Some, IsSomeAnd, List, Contains, length, map};
ghost use Rattle.dj_hierarchy_rule.specs.trusted.Hierarchy.{LacksSuperclass, IsBadSuperclass, IsBadInterface, HasBadInterface, IsOffObject, IsAbove, Climbs, IsOwnAncestor, ViolatesHierarchy};
ghost use Rattle.dj_hierarchy_rule.specs.Judged.{AreJudged, AreMarks};
ghost use Rattle.dj_hierarchy_rule.specs.Known.{IsHierarchy, IsIn, heads_of, number_of};
ghost use Rattle.dj_hierarchy_rule.specs.Views.{head_view, seen_view, text_of};

use crate::edges::join;
use crate::error::HierarchyError;
use crate::head::{ClassHead, Seen, see_all};
use crate::names::{Known, names_of};
use std::alloc::Global;
use std::collections::BTreeMap;

/// What is kept of the classes of a set and of the library.
#[derive(Drop)]
pub struct Hierarchy<'a> {
    /// The heads of the set, and then those of the library.
    pub heads: Vec<Seen<'a>>,
    /// What is kept of each name that a class has.
    pub names: BTreeMap<&'a [u8], Known>,
    /// A number for each class: the numbers at the places of two names are the same exactly where each name climbs to the other.
    pub numbers: Vec<u32>,
}

// Whether a superclass of this name violates the rule.
fn is_bad_superclass(hierarchy: &Hierarchy<'_>, name: &[u8]) -> bool
    requires { IsHierarchy hierarchy.now }
    ensures { IsTrue result ↔ IsBadSuperclass (IsIn hierarchy.now) name.now }
{
    match hierarchy.names.get(name) {
        None => true,
        Some(known) => known.has_interface || known.has_final,
    }
}

// Whether an interface of this name in a list violates the rule.
fn is_bad_interface(hierarchy: &Hierarchy<'_>, name: &[u8]) -> bool
    requires { IsHierarchy hierarchy.now }
    ensures { IsTrue result ↔ IsBadInterface (IsIn hierarchy.now) name.now }
{
    match hierarchy.names.get(name) {
        None => true, // no class has it
        Some(known) => known.has_class,
    }
}

// Whether the class lists a name that violates the rule.
fn has_bad_interface(hierarchy: &Hierarchy<'_>, head: &Seen<'_>) -> bool
    requires { IsHierarchy hierarchy.now }
    ensures { IsTrue result ↔ HasBadInterface (IsIn hierarchy.now) (seen_view head.now) }
{
    for name in head.interfaces {
        if is_bad_interface(hierarchy, name) {
            return true;
        }
    }
    false
}

// The number of a name, where a class has it.
fn number_of_name(hierarchy: &Hierarchy<'_>, name: &[u8]) -> Option<u32>
    ensures { result ≡ number_of hierarchy.now name.now }
{
    let known = hierarchy.names.get(name)?;
    hierarchy.numbers.get(known.place as usize).copied()
}

// Whether the way up from a name above the class, which has the number, leads back to it.
fn leads_back(hierarchy: &Hierarchy<'_>, head: &Seen<'_>, own: u32, above: &[u8]) -> bool
    requires known { IsHierarchy hierarchy.now }
    requires there { IsIn hierarchy.now (seen_view head.now) }
    requires numbered { number_of hierarchy.now head.now.name.now ≡ Some own }
    requires over { IsAbove (seen_view head.now) above.now }
    ensures { IsTrue result ↔ Climbs (IsIn hierarchy.now) above.now head.now.name.now }
{
    match number_of_name(hierarchy, above) {
        None => false,
        Some(other) => own == other,
    }
}

// Whether the way up from an interface that the class lists leads back to it.
fn has_interface_back(hierarchy: &Hierarchy<'_>, head: &Seen<'_>, own: u32) -> bool
    requires known { IsHierarchy hierarchy.now }
    requires there { IsIn hierarchy.now (seen_view head.now) }
    requires numbered { number_of hierarchy.now head.now.name.now ≡ Some own }
    ensures { IsTrue result ↔ ((above : List ℕ) × Contains (map text_of head.now.interfaces.now) above × Climbs (IsIn hierarchy.now) above head.now.name.now) }
{
    for name in head.interfaces {
        if leads_back(hierarchy, head, own, name) {
            return true;
        }
    }
    false
}

// Whether the class is its own ancestor. Its name is looked up once.
fn is_own_ancestor(hierarchy: &Hierarchy<'_>, head: &Seen<'_>) -> bool
    requires known { IsHierarchy hierarchy.now }
    requires there { IsIn hierarchy.now (seen_view head.now) }
    ensures { IsTrue result ↔ IsOwnAncestor (IsIn hierarchy.now) (seen_view head.now) }
{
    let Some(own) = number_of_name(hierarchy, head.name) else {
        return false;
    };
    if has_interface_back(hierarchy, head, own) {
        return true;
    }
    match head.superclass {
        None => false,
        Some(name) => leads_back(hierarchy, head, own, name),
    }
}

// Whether the class has no superclass, or one that violates the rule.
fn has_bad_superclass(hierarchy: &Hierarchy<'_>, head: &Seen<'_>) -> bool
    requires { IsHierarchy hierarchy.now }
    ensures { IsTrue result ↔ (LacksSuperclass (seen_view head.now) ⊎ IsSomeAnd (seen_view head.now).superclass (IsBadSuperclass (IsIn hierarchy.now))) }
{
    match head.superclass {
        None => true,
        Some(name) => is_bad_superclass(hierarchy, name),
    }
}

// Whether the class is an interface with another superclass than Object.
fn is_off_object(head: &Seen<'_>) -> bool
    ensures { IsTrue result ↔ IsOffObject (seen_view head.now) }
{
    match head.superclass {
        None => false,
        Some(name) => head.is_interface() && name != b"java/lang/Object".as_slice(),
    }
}

// Whether the class violates the rule; its members are judged elsewhere.
fn violates(hierarchy: &Hierarchy<'_>, head: &Seen<'_>) -> bool
    requires known { IsHierarchy hierarchy.now }
    requires there { IsIn hierarchy.now (seen_view head.now) }
    ensures { IsTrue result ↔ ViolatesHierarchy (IsIn hierarchy.now) (seen_view head.now) }
{
    if has_bad_superclass(hierarchy, head) {
        return true;
    }
    if is_off_object(head) {
        return true;
    }
    if has_bad_interface(hierarchy, head) {
        return true;
    }
    is_own_ancestor(hierarchy, head)
}

// Which of the first classes violate the rule.
fn mark_first(
    alloc: Global,
    hierarchy: &Hierarchy<'_>,
    count: usize,
) -> Result<Vec<bool>, HierarchyError>
    requires known { IsHierarchy hierarchy.now }
    requires within { count ≤ length (heads_of hierarchy.now) }
    ensures { IfOk result (λ marks. AreMarks (heads_of hierarchy.now) count marks.items) }
{
    let mut marks = Vec::new(alloc);
    for place in 0..count {
        let mark = violates(hierarchy, &hierarchy.heads[place]);
        marks.push(mark)?;
    }
    Ok(marks)
}

// What is kept of the classes.
fn hierarchy_of<'a>(alloc: Global, heads: Vec<Seen<'a>>) -> Result<Hierarchy<'a>, HierarchyError>
    requires { length heads.items < 2 ^ 31 }
    ensures { IfOk result (λ hierarchy. IsHierarchy hierarchy × (heads_of hierarchy ≡ map seen_view heads.entry.items)) }
{
    let names = names_of(alloc, &heads)?;
    let numbers = join(alloc, &heads, &names)?;
    Ok(Hierarchy {
        heads,
        names,
        numbers,
    })
}

/// For each class, in order, whether it violates the rule HIERARCHY among these classes and those of the library, whatever members
/// it has.
pub fn judge_heads(alloc: Global, heads: &[ClassHead<'_>]) -> Result<Vec<bool>, HierarchyError>
    requires few { length heads.now < 2 ^ 30 }
    ensures { IfOk result (λ marks. AreJudged (map head_view heads.now) marks.items) }
{
    let hierarchy = hierarchy_of(alloc, see_all(alloc, heads)?)?;
    mark_first(alloc, &hierarchy, heads.len())
}

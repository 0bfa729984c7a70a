ghost use Rattle.std.specs.Prelude.{◌≡◌, ◌+◌, ◌^◌, ◌<◌, ◌∷◌, ◌++◌, [], length, IfOk};
ghost use Rattle.dj_shape_rule.specs.Arena.{AreLinked, Extends, IsAt, IsIn, IsShared, slots_at};

use crate::error::ShapeError;
use dj_names::Kind;
use std::marker::Model;

/// The kind of a local variable, above those before it.
#[derive(Clone, Copy)]
pub struct Slot {
    pub kind: Option<Kind>,
    /// Where those before it end.
    pub before: u32,
}

/// Where local variables end in the list of slots, and how many there are.
#[derive(Clone, Copy)]
pub struct LocalsPlace {
    /// One more than the index of the last one's slot; 0 where there is none.
    pub end: u32,
    pub count: u32,
}

/// Local variables that are kept in slots.
#[derive(Drop)]
pub struct Locals<'a> {
    slots: &'a [Slot],
    place: LocalsPlace,
}

impl<'a> Model for Locals<'a> {
    ghost use Rattle.std.specs.Prelude.{List, Option};
    ghost use Rattle.dj_names.specs.declared.descriptor.Kind.{Kind};
    ghost use Rattle.dj_shape_rule.specs.Arena.{AreLinked, IsIn, slots_at};

    ghost Value = { List (Option Kind) };

    ghost view = { λ locals. slots_at locals.slots.now locals.place.end };

    ghost invariant = { λ locals. AreLinked locals.slots.now × IsIn locals.slots.now locals.place };
}

impl<'a> Locals<'a> {
    /// The local variables of a place.
    pub fn new(slots: &'a [Slot], place: LocalsPlace) -> Locals<'a>
        requires linked { AreLinked slots.now }
        requires within { IsIn slots.now place }
        ensures { result ≡ slots_at slots.now place.end }
    {
        Locals { slots, place }
    }

    /// How many there are.
    pub fn len(&self) -> usize
        ensures { result ≡ length self.now }
    {
        self.place.count as usize
    }
}

// The place below the last of local variables, and the kind of that one.
fn below(slots: &[Slot], place: LocalsPlace) -> (LocalsPlace, Option<Kind>)
    requires linked { AreLinked slots.now }
    requires within { IsIn slots.now place }
    requires some { 0 < place.end }
    ensures within { IsIn slots.now result.0 }
    ensures less { result.0.end < place.end }
    ensures kinds { slots_at slots.now place.end ≡ slots_at slots.now result.0.end ++ result.1 ∷ [] }
{
    let slot = slots[place.end as usize - 1];
    let under = LocalsPlace {
        end: slot.before,
        count: place.count - 1,
    };
    (under, slot.kind)
}

/// The count of the local variables that two places share, and the kinds of those that the second has above them. It takes as many steps as there are local
/// variables that only one of them has.
pub fn new_kinds(
    slots: &[Slot],
    old: LocalsPlace,
    new: LocalsPlace,
    kinds: &mut Vec<Option<Kind>>,
) -> Result<usize, ShapeError>
    requires linked { AreLinked slots.now }
    requires old { IsIn slots.now old }
    requires new { IsIn slots.now new }
    ensures { IfOk result (λ from. IsShared (slots_at slots.now old.end) (slots_at slots.now new.end) from kinds.new.items) }
{
    kinds.clear();
    let mut first = old;
    let mut second = new;
    while first.end != second.end {
        if first.end < second.end {
            let (under, kind) = below(slots, second);
            kinds.push(kind)?;
            second = under;
        } else {
            first = below(slots, first).0;
        }
    }
    kinds.reverse();
    Ok(second.count as usize)
}

// The number of slots, where the last one has this index.
fn next_end(count: usize) -> Result<u32, ShapeError>
    ensures { IfOk result (λ end. (end ≡ count + 1) × (end < 2 ^ 32)) }
{
    if count >= u32::MAX as usize {
        return Err(ShapeError::Memory);
    }
    Ok(count as u32 + 1)
}

/// Appends a local variable to those of a place, which stay as they are.
pub fn add_slot(
    slots: &mut Vec<Slot>,
    place: LocalsPlace,
    kind: Option<Kind>,
) -> Result<LocalsPlace, ShapeError>
    requires linked { AreLinked slots.old.items }
    requires within { IsIn slots.old.items place }
    ensures linked { AreLinked slots.new.items }
    ensures extends { Extends slots.old.items slots.new.items }
    ensures added { IfOk result (λ more. IsAt slots.new.items more (slots_at slots.old.items place.end ++ kind ∷ [])) }
{
    let end = next_end(slots.len())?;
    slots.push(Slot {
        kind,
        before: place.end,
    })?;
    Ok(LocalsPlace {
        end,
        count: place.count + 1,
    })
}

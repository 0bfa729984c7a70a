ghost use Rattle.std.specs.Prelude.{◌≡◌, ◌<◌, ◌≤◌, IfSome, IfNone};
ghost use Rattle.dj_model.specs.trusted.Kinds.{kind_slots, depth};
ghost use Rattle.dj_model.specs.trusted.Numbers.{is_wide, same_kind};
ghost use Rattle.dj_model.specs.trusted.Shape.{is_kind, same_result};
ghost use Rattle.dj_model.specs.trusted.Values.{is_some_wide};

use dj_names::Kind;

/// Whether it takes two slots.
pub fn is_wide(kind: Kind) -> bool
    ensures { result ≡ is_wide kind }
{
    matches!(kind, Kind::Long)
}

/// The slots that it takes.
pub fn kind_slots(kind: Kind) -> u32
    ensures { result ≡ kind_slots kind }
{
    match kind {
        Kind::Long => 2,
        Kind::Int | Kind::Ref => 1,
    }
}

/// Whether the kinds are the same.
pub fn same_kind(a: Kind, b: Kind) -> bool
    ensures { result ≡ same_kind a b }
{
    matches!(
        (a, b),
        (Kind::Int, Kind::Int) | (Kind::Long, Kind::Long) | (Kind::Ref, Kind::Ref)
    )
}

/// Whether there is a kind, and it is this one.
pub fn is_kind(kind: Kind, found: Option<Kind>) -> bool
    ensures { result ≡ is_kind kind found }
{
    match found {
        None => false,
        Some(other) => same_kind(kind, other),
    }
}

/// Whether what is returned is what the method's descriptor says.
pub fn same_result(kind: Option<Kind>, returned: Option<Kind>) -> bool
    ensures { result ≡ same_result kind returned }
{
    match kind {
        None => returned.is_none(),
        Some(kind) => is_kind(kind, returned),
    }
}

/// The slots that operands take, where these are at most `most`.
pub fn depth_within(stack: &[Kind], most: u32) -> Option<u32>
    ensures some { IfSome result (λ slots. (slots ≡ depth stack.now) × (slots ≤ most)) }
    ensures none { IfNone result (most < depth stack.now) }
{
    let mut slots: u32 = 0;
    for kind in stack {
        let more = kind_slots(*kind);
        if most - slots < more {
            return None;
        }
        slots += more;
    }
    Some(slots)
}

/// Whether there is a kind, and it takes two slots.
pub fn is_some_wide(kind: Option<Kind>) -> bool
    ensures { result ≡ is_some_wide is_wide kind }
{
    match kind {
        None => false,
        Some(kind) => is_wide(kind),
    }
}

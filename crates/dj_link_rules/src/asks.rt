ghost use Rattle.std.specs.Prelude.{◌≡◌};
ghost use Rattle.dj_link_rules.specs.trusted.Unlinked.{differ, asks_static, is_special};
ghost use Rattle.dj_link_rules.specs.Known.{makes, makes_array, is_short_tag, takes_member_tag, takes_literal_tag, takes_tag, is_misused_member};

use crate::named::{NamedMember, Tag};
use dj_ops::Instr;

/// Whether the instruction makes an object of a class: new.
pub fn makes(instr: &Instr) -> bool
    ensures { result ≡ makes instr.now }
{
    match instr {
        Instr::Class { op, index: _ } => *op == 187,
        _ => false,
    }
}

/// Whether the instruction makes an array of a class: anewarray.
pub fn makes_array(instr: &Instr) -> bool
    ensures { result ≡ makes_array instr.now }
{
    match instr {
        Instr::Class { op, index: _ } => *op == 189,
        _ => false,
    }
}

/// Whether it is invokespecial.
pub fn is_special(instr: &Instr) -> bool
    ensures { result ≡ is_special instr.now }
{
    match instr {
        Instr::Member { op, index: _ } => *op == 183,
        _ => false,
    }
}

// Whether the instruction requires a static member; none where it names no member.
fn asks_static(instr: &Instr) -> Option<bool>
    ensures { result ≡ asks_static instr.now }
{
    match instr {
        Instr::Member { op, index: _ } => Some(*op <= 179 || *op == 184),
        Instr::Interface { index: _, count: _ } => Some(false),
        _ => None,
    }
}

// Whether the two are there, and differ.
fn differ(a: Option<bool>, b: Option<bool>) -> bool
    ensures { result ≡ differ a b }
{
    match (a, b) {
        (Some(a), Some(b)) => a != b,
        _ => false,
    }
}

/// Whether the member is static where the instruction requires that it isn't, or the reverse, or is one that the instruction may not name.
pub fn is_misused_member(instr: &Instr, member: NamedMember) -> bool
    ensures { result ≡ is_misused_member instr.now member }
{
    differ(asks_static(instr), member.is_static)
        || (member.is_constructor && !is_special(instr))
        || member.is_initialiser
}

// What ldc and ldc_w take.
fn is_short_tag(tag: Tag) -> bool
    ensures { result ≡ is_short_tag tag }
{
    matches!(tag, Tag::Short | Tag::Class)
}

fn takes_literal_tag(op: u8, tag: Tag) -> bool
    ensures { result ≡ takes_literal_tag op tag }
{
    if op == 20 {
        matches!(tag, Tag::Long)
    } else {
        is_short_tag(tag)
    }
}

fn takes_member_tag(op: u8, tag: Tag) -> bool
    ensures { result ≡ takes_member_tag op tag }
{
    match tag {
        Tag::Field => op <= 181,
        Tag::Method => op > 181,
        Tag::InterfaceMethod => op >= 183,
        _ => false,
    }
}

/// Whether the instruction takes a constant of this tag.
pub fn takes_tag(instr: &Instr, tag: Tag) -> bool
    ensures { result ≡ takes_tag instr.now tag }
{
    match instr {
        Instr::Literal { op, index: _ } => takes_literal_tag(*op, tag),
        Instr::Member { op, index: _ } => takes_member_tag(*op, tag),
        Instr::Interface { index: _, count: _ } => matches!(tag, Tag::InterfaceMethod),
        Instr::Dynamic { index: _ } => matches!(tag, Tag::Dynamic),
        Instr::Class { op: _, index: _ } => matches!(tag, Tag::Class),
        Instr::Multi { index: _, dims: _ } => matches!(tag, Tag::Class),
        _ => false,
    }
}

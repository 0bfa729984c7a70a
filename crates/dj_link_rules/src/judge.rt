ghost use Rattle.std.specs.Prelude.{◌≡◌};
ghost use Rattle.dj_link_rules.specs.Known.{is_far_special, is_unlinked_member, has_wrong_kind, is_unlinked_class, is_unlinked_named, is_foreign, is_unlinked, is_unlinked_by, is_foreign_catch, is_unlinked_catch, is_unlinked_catch_by, named_by, is_own_or_above_class};

use crate::above::{OwnClass, is_above};
use crate::asks::{is_misused_member, is_special, makes, makes_array, takes_tag};
use crate::kept::{
    is_abstract_class, is_foreign_named, is_interface_class, is_unmakeable_class, kept_at,
    lacks_class, lacks_member,
};
use crate::known::Known;
use crate::named::{NamedClass, NamedConstant, NamedMember, Tag};
use dj_early_rules::index_of;
use dj_ops::Instr;
use dj_resolution::ClassTable;

// What is kept of the constant that an instruction names.
fn named_by(kept: &[Option<NamedConstant>], instr: &Instr) -> Option<NamedConstant>
    ensures { result ≡ named_by kept.now instr.now }
{
    kept_at(kept, index_of(instr)?)
}

/// Whether an instruction violates the rule WHITELIST.
pub fn is_foreign(known: &Known<'_>, instr: &Instr) -> bool
    ensures { result ≡ is_foreign known.now instr.now }
{
    match named_by(known.kept, instr) {
        Some(named) => {
            is_foreign_named(named)
                || (makes(instr) && is_unmakeable_class(known.unmakeable, named.class))
        }
        None => false,
    }
}

// Whether the type is the file's own class or one of its superclasses.
fn is_own_or_above_class(own: OwnClass<'_>, class: NamedClass) -> bool
    ensures { result ≡ is_own_or_above_class own.entry class }
{
    class.dims == 0 && is_above(own, class.number)
}

// Whether it is invokespecial of a method that is no constructor, of a class that is neither the file's own nor one of its superclasses.
fn is_far_special(own: OwnClass<'_>, instr: &Instr, class: NamedClass, member: NamedMember) -> bool
    ensures { result ≡ is_far_special own.entry instr.now class member }
{
    is_special(instr) && !member.is_constructor && !is_own_or_above_class(own, class)
}

// Whether the member isn't what the instruction requires.
fn is_unlinked_member(
    own: OwnClass<'_>,
    instr: &Instr,
    class: Option<NamedClass>,
    member: Option<NamedMember>,
) -> bool
    ensures { result ≡ is_unlinked_member own.entry instr.now class member }
{
    match (class, member) {
        (Some(class), Some(member)) => {
            is_misused_member(instr, member) || is_far_special(own, instr, class, member)
        }
        _ => false,
    }
}

// Whether a method of an interface is named as one of a class, or the reverse.
fn has_wrong_kind(table: &ClassTable, tag: Tag, class: NamedClass) -> bool
    ensures { result ≡ has_wrong_kind table.now tag class }
{
    match tag {
        Tag::Method => is_interface_class(table, class),
        Tag::InterfaceMethod => !is_interface_class(table, class),
        _ => false,
    }
}

// Whether the class isn't what the constant or the instruction requires.
fn is_unlinked_class(table: &ClassTable, instr: &Instr, tag: Tag, class: Option<NamedClass>) -> bool
    ensures { result ≡ is_unlinked_class table.now instr.now tag class }
{
    match class {
        Some(class) => {
            has_wrong_kind(table, tag, class) || (makes_array(instr) && class.dims == 255)
        }
        None => false,
    }
}

// Whether what a constant names isn't there, or isn't what the instruction requires.
fn is_unlinked_named(known: &Known<'_>, instr: &Instr, named: NamedConstant) -> bool
    ensures { result ≡ is_unlinked_named known.now instr.now named }
{
    lacks_class(named.class)
        || lacks_member(named.member)
        || is_unlinked_member(known.own, instr, named.class, named.member)
        || is_unlinked_class(known.table, instr, named.tag, named.class)
        || (makes(instr) && is_abstract_class(known.table, named.class))
}

// Whether an instruction that names this constant violates the rule UNRESOLVED.
fn is_unlinked_by(known: &Known<'_>, instr: &Instr, named: Option<NamedConstant>) -> bool
    ensures { result ≡ is_unlinked_by known.now instr.now named }
{
    match named {
        Some(named) => !takes_tag(instr, named.tag) || is_unlinked_named(known, instr, named),
        None => true,
    }
}

/// Whether an instruction violates the rule UNRESOLVED.
pub fn is_unlinked(known: &Known<'_>, instr: &Instr) -> bool
    ensures { result ≡ is_unlinked known.now instr.now }
{
    match index_of(instr) {
        Some(index) => is_unlinked_by(known, instr, kept_at(known.kept, index)),
        None => false,
    }
}

/// Whether a handler that catches the class at an index violates the rule WHITELIST.
pub fn is_foreign_catch(known: &Known<'_>, index: u16) -> bool
    ensures { result ≡ is_foreign_catch known.now index }
{
    match kept_at(known.kept, index) {
        Some(named) => is_foreign_named(named),
        None => false,
    }
}

// Whether this constant of a handler's type is no class constant, or names a class that isn't there.
fn is_unlinked_catch_by(named: Option<NamedConstant>) -> bool
    ensures { result ≡ is_unlinked_catch_by named }
{
    match named {
        Some(named) => !matches!(named.tag, Tag::Class) || lacks_class(named.class),
        None => true,
    }
}

/// Whether a handler that catches the class at an index violates the rule UNRESOLVED.
pub fn is_unlinked_catch(known: &Known<'_>, index: u16) -> bool
    ensures { result ≡ is_unlinked_catch known.now index }
{
    index != 0 && is_unlinked_catch_by(kept_at(known.kept, index))
}

//! Which method a call takes. Marks give the nearest class that declares a method like the one to which the operand resolves, so no walk upward is needed, and no look at each class that declares one.
ghost use Rattle.std.specs.Prelude.{◌≡◌, ◌<◌, length, Some, IfSome, if◌then◌else◌};
ghost use Rattle.dj_model.specs.trusted.Program.{is_private};
ghost use Rattle.dj_model.specs.trusted.Linking.{FoundMethod, is_not_static, is_plain, most_classes, with_body};
ghost use Rattle.dj_class_table.specs.Tables.{methods_at, method_there, super_number};
ghost use Rattle.dj_member_index.specs.Calls.{IsCallTable, tests};
ghost use Rattle.dj_resolution.specs.Called.{SaysFirst, SaysOwn, SaysUp};
ghost use Rattle.dj_resolution.specs.Numbers.{SaysMethod, first_some, lists_of, method_found, most_above, numbers_up};
ghost use Rattle.dj_resolution.specs.Ranked.{AreRanksOf, HasRow};

use crate::find::PRIVATE;
use crate::nearest::nearest_of;
use crate::ranked::Ranks;
use crate::select::plain_method_from;
use crate::special::instance_method_above;
use dj_class_table::{ClassTable, Place};
use dj_member_index::CallTable;

// The method that a class declares with the name and the descriptor of the one at a place, where a call may take it.
fn own_method(
    table: &ClassTable,
    calls: &CallTable,
    resolved: Place,
    class: u32,
    private_too: bool,
) -> Option<Place>
    requires there { class < length table.now }
    requires calls { IsCallTable table.now calls.now }
    ensures { IfSome result (λ place. SaysOwn table.now (tests private_too) resolved class (Some place)) }
{
    let member = calls.taken_in(table, resolved.class, resolved.member, private_too, class)?;
    Some(Place { class, member })
}

// That of the nearest class that declares one, of a class that has bits and its superclasses.
fn nearest_method(
    table: &ClassTable,
    ranks: &Ranks,
    calls: &CallTable,
    resolved: Place,
    class: u32,
    private_too: bool,
) -> Option<Option<Place>>
    requires there { class < length table.now }
    requires ranks { AreRanksOf table.now ranks.now }
    requires calls { IsCallTable table.now calls.now }
    requires known { HasRow (lists_of ranks.now.rows.items) class }
    ensures { IfSome result (SaysUp table.now (tests private_too) resolved class) }
{
    let rows = calls.alike(table, resolved.class, resolved.member, private_too)?;
    let Some(near) = nearest_of(table, ranks, rows, class) else {
        return Some(None);
    };
    Some(Some(Place {
        class: near.class,
        member: near.member,
    }))
}

// The same by the marks of methods, where there are marks: however many classes declare one.
fn marked_method(
    table: &ClassTable,
    ranks: &Ranks,
    calls: &CallTable,
    resolved: Place,
    class: u32,
    private_too: bool,
) -> Option<Option<Place>>
    requires there { class < length table.now }
    requires ranks { AreRanksOf table.now ranks.now }
    requires calls { IsCallTable table.now calls.now }
    requires known { HasRow (lists_of ranks.now.rows.items) class }
    ensures { IfSome result (SaysUp table.now (tests private_too) resolved class) }
{
    let near = calls.nearest_like(table, resolved.class, resolved.member, private_too, class)?;
    let Some(near) = near else {
        return Some(None);
    };
    ranks.rank_up(table, class, near)?;
    let place = own_method(table, calls, resolved, near, private_too)?;
    Some(Some(place))
}

// The first such method of a class and its superclasses, where there are bits.
fn method_up(
    table: &ClassTable,
    ranks: &Ranks,
    calls: &CallTable,
    resolved: Place,
    class: u32,
    private_too: bool,
) -> Option<Option<Place>>
    requires there { class < length table.now }
    requires ranks { AreRanksOf table.now ranks.now }
    requires calls { IsCallTable table.now calls.now }
    ensures { IfSome result (SaysUp table.now (tests private_too) resolved class) }
{
    if let Some(place) = own_method(table, calls, resolved, class, private_too) {
        return Some(Some(place));
    }
    if !ranks.has_row(table, class) {
        return None;
    }
    match marked_method(table, ranks, calls, resolved, class, private_too) {
        Some(place) => Some(place),
        None => nearest_method(table, ranks, calls, resolved, class, private_too),
    }
}

// The first method of a class, where it is there, and its superclasses that is neither private nor static.
fn plain_method_like(
    table: &ClassTable,
    ranks: &Ranks,
    calls: &CallTable,
    resolved: Place,
    class: Option<u32>,
) -> Option<Place>
    requires there { resolved.class < length table.now }
    requires within { resolved.member < length (methods_at table.now resolved.class) }
    requires class { IfSome class (λ k. k < length table.now) }
    requires ranks { AreRanksOf table.now ranks.now }
    requires calls { IsCallTable table.now calls.now }
    ensures { SaysFirst table.now is_plain resolved most_classes class result }
{
    let first = class?;
    if let Some(place) = method_up(table, ranks, calls, resolved, first, false) {
        return place;
    }
    // Its superclasses go round, or there are too many classes for bits.
    let name = table.method_name(resolved.class, resolved.member);
    let desc = table.method_desc(resolved.class, resolved.member);
    plain_method_from(table, Some(first), name, desc)
}

/// The first method of the superclasses of a class that isn't static, and has the name and the descriptor of the one at a place.
pub fn instance_method_like(
    table: &ClassTable,
    ranks: &Ranks,
    calls: &CallTable,
    resolved: Place,
    class: u32,
) -> Option<Place>
    requires there { resolved.class < length table.now }
    requires within { resolved.member < length (methods_at table.now resolved.class) }
    requires class { class < length table.now }
    requires ranks { AreRanksOf table.now ranks.now }
    requires calls { IsCallTable table.now calls.now }
    ensures { SaysFirst table.now is_not_static resolved most_above (super_number table.now class) result }
{
    let next = table.super_of(class)?;
    if let Some(place) = method_up(table, ranks, calls, resolved, next, true) {
        return place;
    }
    // The superclasses go round, or there are too many classes for bits.
    let name = table.method_name(resolved.class, resolved.member);
    let desc = table.method_desc(resolved.class, resolved.member);
    instance_method_above(table, class, name, desc)
}

// The method itself where it is private, or else the first one of its name and its descriptor, of a class and its superclasses, that is neither private nor static.
fn taken_by(
    table: &ClassTable,
    ranks: &Ranks,
    calls: &CallTable,
    resolved: Place,
    class: Option<u32>,
) -> Option<Place>
    requires there { resolved.class < length table.now }
    requires within { resolved.member < length (methods_at table.now resolved.class) }
    requires class { IfSome class (λ k. k < length table.now) }
    requires ranks { AreRanksOf table.now ranks.now }
    requires calls { IsCallTable table.now calls.now }
    ensures { (found : FoundMethod) → method_there table.now resolved ≡ Some found
        → SaysMethod table.now result (if is_private found.method.flags then Some found
        else first_some (method_found table.now is_plain found.method.name found.method.desc) (numbers_up most_classes table.now class)) }
{
    if table.method_flags(resolved.class, resolved.member) & PRIVATE == 0 {
        plain_method_like(table, ranks, calls, resolved, class)
    } else {
        Some(resolved)
    }
}

/// The method that is taken for a receiver of a class, of those with code and those that a library answers.
pub fn selected_by(
    table: &ClassTable,
    ranks: &Ranks,
    calls: &CallTable,
    resolved: Place,
    class: Option<u32>,
) -> Option<Place>
    requires there { resolved.class < length table.now }
    requires within { resolved.member < length (methods_at table.now resolved.class) }
    requires class { IfSome class (λ k. k < length table.now) }
    requires ranks { AreRanksOf table.now ranks.now }
    requires calls { IsCallTable table.now calls.now }
    ensures { (found : FoundMethod) → method_there table.now resolved ≡ Some found
        → SaysMethod table.now result (with_body (if is_private found.method.flags then Some found
        else first_some (method_found table.now is_plain found.method.name found.method.desc) (numbers_up most_classes table.now class))) }
{
    let taken = taken_by(table, ranks, calls, resolved, class)?;
    if table.method_has_body(taken.class, taken.member) {
        Some(taken)
    } else {
        None
    }
}

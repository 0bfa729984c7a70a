//! The nearest class that declares a method. Ranks fall from a class to its superclass, so of those that declare it and stand above a class
//! it is the one of the highest rank.
ghost use Rattle.std.specs.Prelude.{◌≡◌, ◌<◌, length, Some, IfSome};
ghost use Rattle.dj_model.specs.trusted.Linking.{most_classes};
ghost use Rattle.dj_resolution.specs.Nearest.{IsNear, IsNearest, nearer};
ghost use Rattle.dj_resolution.specs.Numbers.{lists_of, numbers_up};
ghost use Rattle.dj_resolution.specs.Ranked.{AreRanksOf, HasRow};

use crate::ranked::Ranks;
use dj_class_table::ClassTable;
use dj_member_index::MemberRow;

/// A class with its rank, and which of its methods it is.
#[derive(Clone, Copy)]
pub struct Near {
    pub class: u32,
    pub rank: u32,
    pub member: u32,
}

// The class of a row with its rank, where it is the class or one of its superclasses.
fn with_rank(table: &ClassTable, ranks: &Ranks, class: u32, row: MemberRow) -> Option<Near>
    requires there { class < length table.now }
    requires ranks { AreRanksOf table.now ranks.now }
    requires known { HasRow (lists_of ranks.now.rows.items) class }
    ensures { IsNear (numbers_up most_classes table.now (Some class)) ranks.now.ranks.items row result }
{
    let Some(rank) = ranks.rank_up(table, class, row.class) else {
        return None;
    };
    Some(Near {
        class: row.class,
        rank,
        member: row.place,
    })
}

// Of two the one with the higher rank.
fn nearer(first: Option<Near>, other: Option<Near>) -> Option<Near>
    ensures { result ≡ nearer first other }
{
    match (first, other) {
        (None, _) => other,
        (Some(_), None) => first,
        (Some(one), Some(two)) => if one.rank < two.rank { other } else { first },
    }
}

/// Of the classes of the rows the nearest that is the class or one of its superclasses.
pub fn nearest_of(table: &ClassTable, ranks: &Ranks, rows: &[MemberRow], class: u32) -> Option<Near>
    requires there { class < length table.now }
    requires ranks { AreRanksOf table.now ranks.now }
    requires known { HasRow (lists_of ranks.now.rows.items) class }
    ensures { IsNearest (numbers_up most_classes table.now (Some class)) ranks.now.ranks.items rows.now (length rows.now) result }
{
    let mut nearest = None;
    for row in rows {
        nearest = nearer(nearest, with_rank(table, ranks, class, *row));
    }
    nearest
}

ghost use Rattle.std.specs.Prelude.{◌≡◌, ◌<◌, ◌∷◌, length, Some, flat_map};
ghost use Rattle.dj_model.specs.trusted.Linking.{most_classes};
ghost use Rattle.dj_resolution.specs.Chained.{AreMethodChains};
ghost use Rattle.dj_resolution.specs.Numbers.{AreAbove, has, lists_of, numbers_above, numbers_up};
ghost use Rattle.dj_resolution.specs.Ranked.{AreRanksOf};

use crate::chains::Chains;
use crate::find::MOST_CLASSES;
use crate::numbers::is_among;
use crate::ranked::Ranks;
use crate::special::is_own_or_superclass;
use dj_class_table::ClassTable;

// Whether a class is the other one, or that is one of the interfaces above it.
fn is_at(table: &ClassTable, above: &[Vec<u32>], class: u32, other: u32) -> bool
    requires there { class < length table.now }
    requires above { AreAbove table.now (lists_of above.now) }
    ensures { result ≡ has (class ∷ numbers_above table.now class) other }
{
    if class == other {
        return true;
    }
    is_among(&above[class as usize], other)
}

// Whether the other class is this one or is above it, by going through the classes one by one.
fn is_above_by_class(table: &ClassTable, above: &[Vec<u32>], class: u32, other: u32) -> bool
    requires there { class < length table.now }
    requires above { AreAbove table.now (lists_of above.now) }
    ensures { result ≡ has (flat_map (λ k. k ∷ numbers_above table.now k) (numbers_up most_classes table.now (Some class))) other }
{
    let mut next = Some(class);
    for _ in 0..MOST_CLASSES {
        let Some(at) = next else {
            return false;
        };
        if is_at(table, above, at, other) {
            return true;
        }
        next = table.super_of(at);
    }
    false
}

/// Whether a class is the other one, or that is above it.
pub fn is_above(
    table: &ClassTable,
    above: &[Vec<u32>],
    methods: &Chains,
    ranks: &Ranks,
    class: u32,
    other: u32,
) -> bool
    requires there { class < length table.now }
    requires ranks { AreRanksOf table.now ranks.now }
    requires above { AreAbove table.now (lists_of above.now) }
    requires methods { AreMethodChains table.now methods.now }
    ensures { result ≡ has (flat_map (λ k. k ∷ numbers_above table.now k) (numbers_up most_classes table.now (Some class))) other }
{
    match methods.has(class, other) {
        Some(true) => true,
        Some(false) => is_own_or_superclass(table, ranks, class, other),
        // Its superclasses go round.
        None => is_above_by_class(table, above, class, other),
    }
}

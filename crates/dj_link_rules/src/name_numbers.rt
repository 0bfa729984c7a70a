//! The numbers of the texts by which constants name members. Each text is looked up once.
ghost use Rattle.std.specs.Prelude.{◌≡◌, List, IfSome, IfOk, option_and_then};
ghost use Rattle.std.specs.Option.{option_map};
ghost use Rattle.dj_pool.specs.trusted.Pool.{Constant, both, text_at, IsLinked};
ghost use Rattle.dj_pool.specs.Views.{constant_of};
ghost use Rattle.dj_early_rules.specs.trusted.Classes.{names_at};
ghost use Rattle.dj_member_index.specs.Numberings.{Numbering};
ghost use Rattle.dj_link_rules.specs.Constants.{number_at, AreNumbersSeen, AreNumbersSeenBy, IsNumbered};

use dj_member_index::Directory;
use dj_pool::{Entry, Pool};
use std::alloc::{AllocError, Global};

/// The name and the descriptor of a member, and their numbers, where they have numbers.
#[derive(Clone, Copy)]
pub struct NumberedName<'a> {
    pub name: &'a [u8],
    pub desc: &'a [u8],
    pub name_number: Option<u32>,
    pub desc_number: Option<u32>,
}

// The number of the text at an index, where there is a text that has a number.
fn number_at(directory: &Directory<'_>, pool: &Pool<'_>, index: u16) -> Option<u32>
    ensures { result ≡ number_at directory.now pool.now index }
{
    directory.number(pool.text(index)?)
}

// The same: the number that was kept, or else it is found out and kept.
fn see_number(
    directory: &Directory<'_>,
    pool: &Pool<'_>,
    seen: &mut [Option<Option<u32>>],
    index: u16,
) -> Option<u32>
    requires { AreNumbersSeen directory.now pool.now seen.old }
    ensures seen { AreNumbersSeen directory.now pool.now seen.new }
    ensures number { result ≡ number_at directory.now pool.now index }
{
    let at = usize::from(index);
    if at >= seen.len() {
        return number_at(directory, pool, index);
    }
    if let Some(number) = seen[at] {
        return number;
    }
    let number = number_at(directory, pool, index);
    seen[at] = Some(number);
    number
}

// The indexes of the name and the descriptor of the member that a constant names.
fn name_indexes(pool: &Pool<'_>, entry: Entry<'_>) -> Option<(u16, u16)>
    ensures { names_at pool.now (constant_of entry.entry) ≡ option_and_then (λ x. both (text_at pool.now x.0) (text_at pool.now x.1)) result }
{
    let names = match entry {
        Entry::Field(_, names) => names,
        Entry::Method(_, names) => names,
        Entry::InterfaceMethod(_, names) => names,
        _ => return None,
    };
    match pool.get(names) {
        Some(Entry::NameAndType(name, desc)) => Some((name, desc)),
        _ => None,
    }
}

// The numbers of the texts at two indexes, where there is a directory.
fn see_numbers(
    directory: Option<&Directory<'_>>,
    pool: &Pool<'_>,
    seen: &mut [Option<Option<u32>>],
    name: u16,
    desc: u16,
) -> (Option<u32>, Option<u32>)
    requires { AreNumbersSeenBy directory pool.now seen.old }
    ensures seen { AreNumbersSeenBy directory.entry pool.now seen.new }
    ensures numbers { IfSome directory.entry (λ d. (result.0 ≡ number_at d.now pool.now name) × (result.1 ≡ number_at d.now pool.now desc)) }
{
    match directory {
        Some(directory) => {
            let name = see_number(directory, pool, seen, name);
            let desc = see_number(directory, pool, seen, desc);
            (name, desc)
        }
        None => (None, None),
    }
}

/// The name and the descriptor of the member that a constant names, with their numbers, where there is a directory.
pub fn member_name<'p>(
    directory: Option<&Directory<'_>>,
    pool: &Pool<'p>,
    seen: &mut [Option<Option<u32>>],
    entry: Entry<'_>,
) -> Option<NumberedName<'p>>
    requires seen { AreNumbersSeenBy directory pool.now seen.old }
    requires linked { IsLinked pool.now (constant_of entry) }
    ensures seen { AreNumbersSeenBy directory.entry pool.now seen.new }
    ensures named { IfSome result (IsNumbered directory.entry) }
    ensures names { option_map (λ named. (named.name.now, named.desc.now)) result ≡ names_at pool.now (constant_of entry.entry) }
{
    let (name_index, desc_index) = name_indexes(pool, entry)?;
    let name = pool.text(name_index)?;
    let desc = pool.text(desc_index)?;
    let (name_number, desc_number) = see_numbers(directory, pool, seen, name_index, desc_index);
    Some(NumberedName {
        name,
        desc,
        name_number,
        desc_number,
    })
}

// No number is kept yet, for this many texts.
#[tactic(auto, using(crate::proofs::KeptLaws::no_numbers))]
fn none_seen(alloc: Global, count: usize) -> Result<Vec<Option<Option<u32>>>, AllocError>
    ensures { IfOk result (λ seen. (directory : Numbering) (pool : List Constant) → AreNumbersSeen directory pool seen.items) }
{
    vec![in alloc; None; count]
}

/// No number is kept yet, for this many texts, where there is a directory.
pub fn unseen_numbers(
    alloc: Global,
    directory: Option<&Directory<'_>>,
    count: usize,
) -> Result<Vec<Option<Option<u32>>>, AllocError>
    ensures { IfOk result (λ seen. (pool : List Constant) → AreNumbersSeenBy directory.entry pool seen.items) }
{
    match directory {
        Some(_) => none_seen(alloc, count),
        None => Ok(Vec::new(alloc)),
    }
}

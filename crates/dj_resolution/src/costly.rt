//! Whether to look members up by the numbers of their texts. Short searches among short texts cost less than numbering all texts;
//! long ones are worth it. Both ways find the same members.
ghost use Rattle.std.specs.Prelude.{◌<◌, ◌≤◌, length};
ghost use Rattle.dj_resolution.specs.Chained.{AreMethodChains};
ghost use Rattle.dj_resolution.specs.Numbers.{AreBelow};

use crate::chains::Chains;
use dj_class_table::ClassTable;

// A text of more bytes is numbered.
const LONG_TEXT: usize = 200;

// This many classes, one above the other, are a long chain, and more interfaces are a long list.
const LONG_CHAIN: usize = 64;

// A search is long that takes the time of comparing more words than these.
const LONG_SEARCH: usize = 2500;

// Comparing two texts takes the time of this many words, and that of the words in the texts.
const WORDS_BESIDE: usize = 4;

// The bytes of a word.
const WORD: usize = 8;

// No count has more bits.
const MOST_BITS: usize = 64;

// How often this many texts can be halved until none is left.
fn halvings(count: usize) -> usize
    ensures { result ≤ 64 }
{
    let mut left = count;
    for halved in 0..MOST_BITS {
        if left == 0 {
            return halved;
        }
        left /= 2;
    }
    MOST_BITS
}

// How many comparisons a search for a name and a descriptor in the class takes at most; one stands for the look at the class.
fn comparisons_in(table: &ClassTable, class: u32) -> usize
    requires { class < length table.now }
{
    1 + 2 * halvings(table.member_texts(class).count())
}

// The length of the longest text that names a member of the class, or of another one, whose length is this.
fn longest_with(table: &ClassTable, class: u32, other: usize) -> usize
    requires { class < length table.now }
{
    let texts = table.member_texts(class);
    let mut longest = other;
    for place in 0..texts.count() {
        longest = longest.max(texts.text(place).len());
    }
    longest
}

// The length of the longest text that names a member.
fn longest_text(table: &ClassTable) -> usize {
    let mut longest = 0;
    for class in 0..table.class_count() {
        longest = longest_with(table, class, longest);
    }
    longest
}

// How many of these comparisons are left after a search in a class and its superclasses; none where they aren't enough, or the chain is long.
fn left_by_chain(table: &ClassTable, class: u32, comparisons: usize) -> Option<usize>
    requires { class < length table.now }
{
    let mut left = comparisons;
    let mut next = Some(class);
    for _ in 0..LONG_CHAIN {
        let Some(at) = next else {
            return Some(left);
        };
        left = left.checked_sub(comparisons_in(table, at))?;
        next = table.super_of(at);
    }
    None
}

// The same for a search in all classes of a list.
fn left_by_list(table: &ClassTable, list: &[u32], comparisons: usize) -> Option<usize>
    requires { AreBelow (length table.now) list.now }
{
    if list.len() > LONG_CHAIN {
        return None;
    }
    let mut left = comparisons;
    for class in list {
        left = left.checked_sub(comparisons_in(table, *class))?;
    }
    Some(left)
}

// The same for a search in a class, its superclasses, and the interfaces above them. Superclasses that go round are a long chain.
fn left_by_search(
    table: &ClassTable,
    methods: &Chains,
    class: u32,
    comparisons: usize,
) -> Option<usize>
    requires methods { AreMethodChains table.now methods.now }
    requires there { class < length table.now }
{
    let left = left_by_chain(table, class, comparisons)?;
    let list = methods.list_of(class)?;
    left_by_list(table, list, left)
}

/// Whether some search for a member by its texts could take long. The lists are of the interfaces above a class and its superclasses.
pub fn are_costly(table: &ClassTable, methods: &Chains) -> bool
    requires { AreMethodChains table.now methods.now }
{
    let longest = longest_text(table);
    if longest > LONG_TEXT {
        return true;
    }
    let comparisons = LONG_SEARCH / (WORDS_BESIDE + longest / WORD);
    for class in 0..table.class_count() {
        if left_by_search(table, methods, class, comparisons).is_none() {
            return true;
        }
    }
    false
}

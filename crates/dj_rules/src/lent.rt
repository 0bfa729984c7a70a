use dj_early_rules::Mark;
use dj_member_index::Directory;
use dj_resolution::Linker;

/// The classes of a set, borrowed to judge its files by the rules 17 to 19.
#[derive(Clone, Copy)]
pub struct Lent<'a, 'd> {
    /// What links them.
    pub linker: &'a Linker,
    /// Their members by the numbers of their texts, where a search by texts could take long.
    pub directory: Option<&'a Directory<'d>>,
    /// For each number of a class, whether no object of the class can be made.
    pub unmakeable: &'a [bool],
}

/// Marks of the methods of a class file, or of one of them.
#[derive(Drop)]
pub struct Marks {
    /// Those of the rules 9 to 16.
    pub early: Vec<Mark>,
    /// Those of the rules 17 to 19.
    pub late: Vec<Mark>,
}

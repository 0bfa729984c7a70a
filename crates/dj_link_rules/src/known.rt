use crate::above::OwnClass;
use crate::named::NamedConstant;
use dj_resolution::ClassTable;

/// What is known of the classes of a set, and of what a file names.
#[derive(Clone, Copy)]
pub struct Known<'a> {
    /// The classes.
    pub table: &'a ClassTable,
    /// For each class, by its number, whether no object of it can be made.
    pub unmakeable: &'a [bool],
    /// The file's class.
    pub own: OwnClass<'a>,
    /// What each constant of the file's pool names.
    pub kept: &'a [Option<NamedConstant>],
}

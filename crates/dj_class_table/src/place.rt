/// Where a field or a method is declared.
#[derive(Clone, Copy, Debug, PartialEq, Eq)]
pub struct Place {
    /// The number of the class.
    pub class: u32,
    /// The place among the fields, or among the methods, of that class, in the order of its file.
    pub member: u32,
}

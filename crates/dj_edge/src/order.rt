/// The order in which a store in memory lists its files.
#[derive(Clone, Copy, Debug, PartialEq, Eq)]
pub enum Order {
    /// As they were given.
    Given,
    /// From the last to the first.
    Reversed,
}

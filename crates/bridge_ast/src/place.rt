//! Where items stand.

/// Where an item stands in an environment.
#[derive(Clone, Copy, Debug, PartialEq, Eq)]
pub struct ItemPlace {
    /// The number of its module.
    pub module: usize,
    /// Its number among the items of the module.
    pub item: usize,
}

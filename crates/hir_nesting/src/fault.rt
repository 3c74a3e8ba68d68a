//! What is wrong with how a struct nests.

/// What is wrong with how a struct nests.
#[derive(Clone, Copy, PartialEq, Eq, Debug)]
pub enum NestingFault {
    /// It contains itself: in a field, or in that of a struct that it contains.
    ContainsItself,
    /// It leads to no struct that contains itself, but to more than 255 others, one in the other.
    NestsTooDeep,
}

//! The part of a type that is looked at.

/// The part of a type that is looked at.
#[derive(Clone, Copy)]
pub enum Part {
    /// The whole.
    Whole,
    /// What stands in an option, or comes of success.
    Inside,
    /// What comes of failure.
    Error,
}

//! What may be `'static`.

/// A lifetime that may be `'static`.
///
/// `Static` stands before every other value, and equal values have the same hash.
#[derive(Clone, Copy, PartialEq, Eq, PartialOrd, Ord, Hash, Debug, Default)]
pub enum MaybeStatic<T> {
    /// The lifetime `'static`.
    #[default]
    Static,
    /// Any other lifetime.
    NonStatic(T),
}

//! Lifetimes as numbers of an environment.

ghost use Rattle.std.specs.Prelude.{◌≡◌};

use std::marker::Model;

/// A lifetime of a signature or of a definition, by its number there.
///
/// The number says something only beside the `LifetimeEnv` that it belongs to: the named lifetimes come first, in the order
/// in which they are declared, and the anonymous ones after them. Lifetimes are ordered by their numbers.
#[derive(Clone, Copy, PartialEq, Eq, PartialOrd, Ord, Hash, Debug, Default)]
pub struct Lifetime(usize);

impl Model for Lifetime {
    ghost use Rattle.std.specs.Prelude.{ℕ};

    ghost Value = { ℕ };

    ghost view = { λ it. it.0 };

    ghost inverse = { λ number. record { 0 = number } };
}

impl Lifetime {
    /// The lifetime with this number.
    pub fn new(index: usize) -> Lifetime
        ensures { result ≡ index }
    {
        Lifetime(index)
    }

    /// The lifetime's number.
    pub fn index(self) -> usize
        ensures { result ≡ self }
    {
        self.0
    }
}

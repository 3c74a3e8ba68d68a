//! The lifetimes of a type, one after another.

ghost use Rattle.std.specs.Prelude.{◌≡◌, ◌++◌};
ghost use Rattle.hir_types.specs.Slices.{at_most_one};

use hir_life::{Lifetime, MaybeStatic};
use std::marker::Model;

/// The lifetimes of a type, one after another. Contracts see the list of those that are still to
/// come.
#[derive(Drop)]
pub struct TypeLifetimes<'a> {
    generics: &'a [MaybeStatic<Lifetime>],
    element: Option<MaybeStatic<Lifetime>>,
    own: Option<MaybeStatic<Lifetime>>,
}

impl<'a> Model for TypeLifetimes<'a> {
    ghost use Rattle.std.specs.Prelude.{List, ℕ, ◌++◌};
    ghost use Rattle.hir_life.specs.declared.maybe_static.MaybeStatic.{MaybeStatic};

    ghost Value = { List (MaybeStatic ℕ) };

    ghost use Rattle.hir_types.specs.Slices.{at_most_one};

    ghost view = { λ it. it.generics.now ++ at_most_one it.element ++ at_most_one it.own };
}

impl<'a> TypeLifetimes<'a> {
    /// These lifetimes, in this order.
    pub(crate) fn new(
        generics: &'a [MaybeStatic<Lifetime>],
        element: Option<MaybeStatic<Lifetime>>,
        own: Option<MaybeStatic<Lifetime>>,
    ) -> TypeLifetimes<'a>
        ensures { result ≡ generics.now ++ at_most_one element ++ at_most_one own }
    {
        TypeLifetimes {
            generics,
            element,
            own,
        }
    }
}

impl Iterator for TypeLifetimes<'_> {
    type Item = MaybeStatic<Lifetime>;

    ghost use Rattle.std.specs.Iterator.{YieldsFirst, item_count};

    ghost next_gives = { YieldsFirst (λ rest. rest) };

    ghost remaining = { item_count (λ rest. rest) };

    fn next(&mut self) -> Option<MaybeStatic<Lifetime>> {
        if let Some((first, rest)) = self.generics.split_first() {
            self.generics = rest;
            return Some(*first);
        }
        if let Some(lifetime) = self.element {
            self.element = None;
            return Some(lifetime);
        }
        let lifetime = self.own?;
        self.own = None;
        Some(lifetime)
    }
}

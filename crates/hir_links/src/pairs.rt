//! The pairs of a link, one after another.

ghost use Rattle.std.specs.Prelude.{◌≡◌};
ghost use Rattle.hir_links.specs.Links.{pairs_from, with_self};

use hir_life::{Lifetime, MaybeStatic};
use std::marker::Model;

/// The lifetimes at a use with those of the definition that they stand for, in the definition's
/// order. Contracts see the list of the pairs that are still to come.
#[derive(Drop)]
pub struct DefOnlyIter<'a> {
    rest: &'a [MaybeStatic<Lifetime>],
    next: usize,
}

impl<'a> Model for DefOnlyIter<'a> {
    ghost use Rattle.std.specs.Prelude.{List, ℕ};
    ghost use Rattle.hir_life.specs.declared.maybe_static.MaybeStatic.{MaybeStatic};

    ghost Value = { List (MaybeStatic ℕ × ℕ) };

    ghost use Rattle.std.specs.Prelude.{◌+◌, ◌^◌, ◌<◌, length};
    ghost use Rattle.hir_links.specs.Links.{pairs_from};

    ghost view = { λ it. pairs_from it.next it.rest.now };

    ghost invariant = { λ it. it.next + length it.rest.now < 2 ^ 64 };
}

impl<'a> DefOnlyIter<'a> {
    /// The pairs of these lifetimes, counted from 0 on.
    pub(crate) fn new(lifetimes: &'a [MaybeStatic<Lifetime>]) -> DefOnlyIter<'a>
        ensures { result ≡ pairs_from 0 lifetimes.now }
    {
        // A slice has fewer than 2^64 elements, as its length says.
        let _count = lifetimes.len();
        DefOnlyIter {
            rest: lifetimes,
            next: 0,
        }
    }
}

impl Iterator for DefOnlyIter<'_> {
    type Item = (MaybeStatic<Lifetime>, Lifetime);

    ghost use Rattle.std.specs.Iterator.{YieldsFirst, item_count};

    ghost next_gives = { YieldsFirst (λ rest. rest) };

    ghost remaining = { item_count (λ rest. rest) };

    fn next(&mut self) -> Option<(MaybeStatic<Lifetime>, Lifetime)> {
        let (first, rest) = self.rest.split_first()?;
        let number = self.next;
        self.rest = rest;
        self.next += 1;
        Some((*first, Lifetime::new(number)))
    }
}

/// The lifetime of the reference with nothing, where there is one, and then the pairs of a
/// [`DefOnlyIter`]. Contracts see the list of the pairs that are still to come.
#[derive(Drop)]
pub struct AllPairsIter<'a> {
    first: Option<MaybeStatic<Lifetime>>,
    rest: DefOnlyIter<'a>,
}

impl<'a> Model for AllPairsIter<'a> {
    ghost use Rattle.std.specs.Prelude.{List, ℕ, Option};
    ghost use Rattle.hir_life.specs.declared.maybe_static.MaybeStatic.{MaybeStatic};

    ghost Value = { List (MaybeStatic ℕ × Option ℕ) };

    ghost use Rattle.hir_links.specs.Links.{with_self};

    ghost view = { λ it. with_self it.first it.rest };
}

impl<'a> AllPairsIter<'a> {
    /// The lifetime of the reference, and then the pairs.
    pub(crate) fn new(
        first: Option<MaybeStatic<Lifetime>>,
        rest: DefOnlyIter<'a>,
    ) -> AllPairsIter<'a>
        ensures { result ≡ with_self first rest.entry }
    {
        AllPairsIter { first, rest }
    }
}

impl Iterator for AllPairsIter<'_> {
    type Item = (MaybeStatic<Lifetime>, Option<Lifetime>);

    ghost use Rattle.std.specs.Iterator.{YieldsFirst, item_count};

    ghost next_gives = { YieldsFirst (λ rest. rest) };

    ghost remaining = { item_count (λ rest. rest) };

    fn next(&mut self) -> Option<(MaybeStatic<Lifetime>, Option<Lifetime>)> {
        if let Some(first) = self.first {
            self.first = None;
            return Some((first, None));
        }
        let (at_use, at_definition) = self.rest.next()?;
        Some((at_use, Some(at_definition)))
    }
}

//! All lifetimes of an environment, in ascending order.

ghost use Rattle.std.specs.Prelude.{◌≡◌};
ghost use Rattle.std.specs.List.{range_with_len};

use crate::lifetime_index::Lifetime;
use std::marker::Model;

/// All lifetimes of an environment, in ascending order. Contracts see the list of those that are still to come.
#[derive(Drop)]
pub struct AllLifetimes {
    next: usize,
    end: usize,
}

impl Model for AllLifetimes {
    ghost use Rattle.std.specs.Prelude.{List, ℕ};

    ghost Value = { List ℕ };

    ghost use Rattle.std.specs.Prelude.{◌-◌, ◌≤◌};
    ghost use Rattle.std.specs.List.{range_with_len};

    ghost view = { λ it. range_with_len it.next (it.end - it.next) };

    ghost invariant = { λ it. it.next ≤ it.end };
}

impl AllLifetimes {
    /// The first `count` lifetimes.
    pub(crate) fn first(count: usize) -> AllLifetimes
        ensures { result ≡ range_with_len 0 count }
    {
        AllLifetimes {
            next: 0,
            end: count,
        }
    }
}

impl Iterator for AllLifetimes {
    type Item = Lifetime;

    ghost use Rattle.std.specs.Iterator.{YieldsFirst, item_count};

    ghost next_gives = { YieldsFirst (λ rest. rest) };

    ghost remaining = { item_count (λ rest. rest) };

    fn next(&mut self) -> Option<Lifetime> {
        if self.next == self.end {
            return None;
        }
        let lifetime = Lifetime::new(self.next);
        self.next += 1;
        Some(lifetime)
    }
}

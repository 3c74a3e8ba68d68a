//! A count of steps, for bounds on the work of a call.

ghost use Rattle.std.specs.Prelude.{◌≡◌, ◌+◌, ◌<◌};

use std::marker::Model;
use std::sync::ledger::{Blank, Book, Ledger, Share};

/// How many steps were taken, for proofs alone: it takes no room when the program runs.
///
/// A call that is lent the count says how far it raises it, and `tick` alone does. A caller picks the ledger, which the count
/// is kept in, and one that counts nothing passes a new `Blank`.
#[derive(Drop)]
pub struct StepCounter<L: Ledger> {
    book: Book<L>,
    share: Share<L>,
}

impl<L: Ledger> Model for StepCounter<L> {
    ghost use Rattle.std.specs.Prelude.{ℕ, ◌<◌};

    ghost Value = { ℕ };

    ghost view = { λ it. it.book.total };

    ghost invariant = { λ it. 0 < it.share.parts };
}

impl<L: Ledger> StepCounter<L> {
    /// No steps, in a new ledger.
    pub fn new(blank: Blank) -> StepCounter<L>
        requires name { blank.name ≡ L.name }
        requires parts { blank.parts ≡ L.parts }
        requires some { 0 < blank.parts }
        ensures { result ≡ 0 }
    {
        let (book, share) = blank.open::<L>();
        StepCounter { book, share }
    }

    /// One step more.
    pub fn tick(&mut self)
        ensures { self.new ≡ self.old + 1 }
    {
        self.book.add(&mut self.share, 1);
    }
}

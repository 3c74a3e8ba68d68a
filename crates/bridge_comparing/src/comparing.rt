//! A word, as far as it is left.

ghost use Rattle.std.specs.Prelude.{◌≡◌, ◌↔◌, [], IsTrue, Some, option_map};
ghost use Rattle.bridge_comparing.specs.Words.{once_taken};

use std::fmt;
use std::marker::Model;

/// What is left of a word once pieces were taken off its front: none where one of them wasn't there.
#[derive(Drop)]
pub struct Comparing<'w> {
    left: Option<&'w [u8]>,
}

impl<'w> Model for Comparing<'w> {
    ghost use Rattle.std.specs.Prelude.{ℕ, List, Option, option_map};

    ghost Value = { Option (List ℕ) };

    ghost view = { λ it. option_map (λ left. left.now) it.left };
}

/// What is left of this once the piece is taken off its front.
fn without<'w>(left: &'w [u8], piece: &[u8]) -> Option<&'w [u8]>
    ensures { option_map (λ left. left.now) result ≡ once_taken piece.now (Some left.now) }
{
    left.strip_prefix(piece)
}

impl<'w> Comparing<'w> {
    /// The whole word is left.
    pub fn with(word: &'w str) -> Self
        ensures { result ≡ Some word.now }
    {
        Comparing {
            left: Some(word.as_bytes()),
        }
    }

    /// Takes a piece off the front.
    pub fn take(&mut self, piece: &str)
        ensures { self.new ≡ once_taken piece.now self.old }
    {
        match self.left {
            Some(left) => self.left = without(left, piece.as_bytes()),
            None => {}
        }
    }

    /// Whether the pieces are the word: nothing is left of it.
    pub fn is_whole(&self) -> bool
        ensures { IsTrue result ↔ (self.now ≡ Some []) }
    {
        match self.left {
            Some(left) => left.is_empty(),
            None => false,
        }
    }
}

/// Takes each piece that is written. No write fails.
impl<'w> fmt::Write for Comparing<'w> {
    ghost write_str_gives = { λ old piece new. new ≡ once_taken piece old };

    fn write_str(&mut self, s: &str) -> fmt::Result {
        self.take(s);
        Ok(())
    }
}

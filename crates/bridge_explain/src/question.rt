//! What is asked.

ghost use Rattle.std.specs.Prelude.{◌≡◌};

use std::marker::Model;

/// Why the leaf of that name, of the callable of that name, is listed under the lifetime of that number, or why it isn't. Names are as a page
/// prints them.
#[derive(Drop)]
pub struct Question<'w> {
    pub(crate) callable: &'w str,
    pub(crate) leaf: &'w str,
    pub(crate) lifetime: usize,
}

impl<'w> Model for Question<'w> {
    ghost use Rattle.bridge_explain.specs.Inquiry.{Inquiry};

    ghost Value = { Inquiry };

    ghost view = { λ it. record {
      callable = it.callable.now;
      leaf = it.leaf.now;
      lifetime = it.lifetime;
    } };
}

impl<'w> Question<'w> {
    /// The question of these names and this number.
    pub fn new(callable: &'w str, leaf: &'w str, lifetime: usize) -> Self
        ensures { result ≡ record {
          callable = callable.now;
          leaf = leaf.now;
          lifetime = lifetime;
        } }
    {
        Question {
            callable,
            leaf,
            lifetime,
        }
    }
}

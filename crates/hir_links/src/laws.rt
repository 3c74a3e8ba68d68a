//! The law of links that callers may rely on: the contract of a function without a body.

ghost use Rattle.std.specs.Prelude.{◌≡◌, ℕ, length, slice_get, Some};
ghost use Rattle.hir_life.specs.declared.maybe_static.MaybeStatic.{MaybeStatic};
ghost use Rattle.hir_links.specs.Links.{Link, pairs};

/// The pairs of a link are what the single questions answer: there are as many as lifetimes at the
/// use, and the pair at a place is that of the lifetime at the use at that place, with the place
/// as its number at the definition.
pub fn links_agree_with_pairs()
    ensures arity { (link : Link) → length (pairs link) ≡ length link.uses }
    ensures pair { (link : Link) (d : ℕ) (l : MaybeStatic ℕ)
        → slice_get link.uses d ≡ Some l
        → slice_get (pairs link) d ≡ Some (l, d) }
{}

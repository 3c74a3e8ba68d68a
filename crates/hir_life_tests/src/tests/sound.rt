//! A test of what an environment's bounds have to meet, for environments that tests make.

ghost use Rattle.std.specs.Prelude.{◌≡◌, ℕ, ◌<◌, length, IsTrue};
ghost use Rattle.std.specs.List.{Contains};
ghost use Rattle.hir_life.specs.Environment.{IsSound, followed};

use hir_life::{BoundedLifetime, Direction, Lifetime};

/// Whether the bounds are between the named lifetimes and stand at both of their ends, and the names are counted.
pub fn is_sound(nodes: &[BoundedLifetime], count: usize) -> bool
    ensures { IsTrue result → IsSound (record { bounds = nodes.now; count = count }) }
{
    if count < nodes.len() || !all_mirrored(nodes, Direction::Longer, Direction::Shorter) {
        return false;
    }
    all_mirrored(nodes, Direction::Shorter, Direction::Longer)
}

/// Whether each bound that stands on the one side also stands on the other side at its other end.
fn all_mirrored(nodes: &[BoundedLifetime], there: Direction, back: Direction) -> bool
    ensures named { IsTrue result → (at l : ℕ)
        → Contains (followed (record { bounds = nodes.now; count = 0 }) there at) l
        → l < length nodes.now }
    ensures back { IsTrue result → (at l : ℕ)
        → Contains (followed (record { bounds = nodes.now; count = 0 }) there at) l
        → Contains (followed (record { bounds = nodes.now; count = 0 }) back l) at }
{
    for at in 0..nodes.len() {
        if !mirrored_at(nodes, there, back, at) {
            return false;
        }
    }
    true
}

/// The same for the bounds of one lifetime.
fn mirrored_at(nodes: &[BoundedLifetime], there: Direction, back: Direction, at: usize) -> bool
    requires { at < length nodes.now }
    ensures named { IsTrue result → (l : ℕ)
        → Contains (followed (record { bounds = nodes.now; count = 0 }) there at) l
        → l < length nodes.now }
    ensures back { IsTrue result → (l : ℕ)
        → Contains (followed (record { bounds = nodes.now; count = 0 }) there at) l
        → Contains (followed (record { bounds = nodes.now; count = 0 }) back l) at }
{
    for bound in bounds_at(nodes, there, at) {
        let other = bound.index();
        if other >= nodes.len() || !has(bounds_at(nodes, back, other), at) {
            return false;
        }
    }
    true
}

/// The bounds of the lifetime in this direction.
fn bounds_at(nodes: &[BoundedLifetime], direction: Direction, at: usize) -> &[Lifetime]
    requires { at < length nodes.now }
    ensures { result.now ≡ followed (record { bounds = nodes.now; count = 0 }) direction at }
{
    match direction {
        Direction::Longer => nodes[at].longer.as_slice(),
        Direction::Shorter => nodes[at].shorter.as_slice(),
    }
}

/// Whether the lifetime with this number is among these.
fn has(lifetimes: &[Lifetime], number: usize) -> bool
    ensures { IsTrue result → Contains lifetimes.now number }
{
    for lifetime in lifetimes {
        if lifetime.index() == number {
            return true;
        }
    }
    false
}

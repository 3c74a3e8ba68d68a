//! Whether two paths are written alike.

ghost use Rattle.std.specs.Prelude.{◌≡◌};
ghost use Rattle.std.specs.Str.{bytes_eq};
ghost use Rattle.std.specs.Cmp.Lexicographic.{pointwise};
ghost use Rattle.hir_number.specs.Breaches.{same_lifetime, same_path};

use bridge_decl::{Lifetime as Written, PathType, Text};

fn same_text(one: &Text, other: &Text) -> bool
    ensures { result ≡ bytes_eq one.now other.now }
{
    one == other
}

fn same_lifetime(one: &Written, other: &Written) -> bool
    ensures { result ≡ same_lifetime one.now other.now }
{
    match (one, other) {
        (Written::Static, Written::Static) => true,
        (Written::Named(one), Written::Named(other)) => same_text(one, other),
        (Written::Anonymous, Written::Anonymous) => true,
        _ => false,
    }
}

fn same_texts(one: &[Text], other: &[Text]) -> bool
    ensures { result ≡ pointwise bytes_eq one.now other.now }
{
    one == other
}

fn same_lifetimes(one: &[Written], other: &[Written]) -> bool
    ensures { result ≡ pointwise same_lifetime one.now other.now }
{
    if one.len() != other.len() {
        return false;
    }
    for index in 0..one.len() {
        if !same_lifetime(&one[index], &other[index]) {
            return false;
        }
    }
    true
}

/// Whether two paths are written alike: the segments and the lifetimes.
pub fn same_path(one: &PathType, other: &PathType) -> bool
    ensures { result ≡ same_path one.now other.now }
{
    same_texts(one.segments.as_slice(), other.segments.as_slice())
        && same_lifetimes(one.lifetimes.as_slice(), other.lifetimes.as_slice())
}

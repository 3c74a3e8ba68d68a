//! How lifetimes are printed.

use std::fmt;

/// What a lifetime is called, for printing: its own name, or for an anonymous lifetime a number.
#[derive(Clone, Copy)]
pub enum LifetimeName<'env> {
    /// The name of a named lifetime, without its apostrophe.
    Named(&'env str),
    /// An anonymous lifetime, by the number of anonymous lifetimes before it. It is printed as `anon_` and that number.
    Anonymous(usize),
}

impl fmt::Display for LifetimeName<'_> {
    ghost use Rattle.std.specs.Prelude.{Some};
    ghost use Rattle.hir_life.specs.Naming.{printed};

    ghost output = { λ name. Some (printed name) };

    fn fmt<W: fmt::Write>(&self, f: &mut fmt::Formatter<W>) -> fmt::Result {
        match self {
            LifetimeName::Named(name) => write!(f, "{name}"),
            LifetimeName::Anonymous(number) => write!(f, "anon_{number}"),
        }
    }
}

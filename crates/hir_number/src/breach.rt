//! What is wrong with a path or a lifetime by itself, and what a `Self` has to be.

use bridge_ast::ItemPlace;
use bridge_decl::{PathType, Text};

/// What is wrong with a path or a lifetime by itself: a rule and its argument.
#[derive(Clone, Copy)]
pub enum Breach<'a> {
    /// The path names nothing.
    UnresolvedPath(&'a PathType),
    /// The path writes more lifetimes than its definition declares.
    LifetimeArity(&'a PathType),
    /// `Self` isn't the declaring type.
    SelfMismatch,
    /// The lifetime isn't declared.
    LifetimeUnknown(&'a Text),
    /// More than 4,095 lifetimes are declared.
    TooManyLifetimes,
}

/// What `Self` has to be in a signature or a definition.
#[derive(Clone, Copy)]
pub enum SelfRule<'a> {
    /// Anything.
    Anything,
    /// Nothing may be `Self`.
    Nothing,
    /// That path.
    Equal(&'a PathType),
    /// A path that names the item there.
    At(ItemPlace),
}

//! Uses of lifetimes and paths as data, lent by the declaration in which they stand.

use bridge_ast::ItemPlace;
use bridge_decl::{Lifetime, PathType};

/// The definition that a path names.
#[derive(Clone, Copy)]
pub struct Found {
    /// Where it stands.
    pub place: ItemPlace,
    /// How many lifetimes it declares.
    pub count: usize,
}

/// A use of lifetimes.
#[derive(Clone, Copy)]
pub enum Use<'m> {
    /// Of one.
    One(&'m Lifetime),
    /// Of the generics of a path, which may be that of `Self`, to a definition, if it names one.
    Path(bool, &'m PathType, Option<Found>),
}

/// The part of a signature or of a definition in which a use stands.
#[derive(Clone, Copy)]
pub enum Part {
    /// The borrow of the receiver.
    Borrow,
    /// The type of the receiver, and the parameters.
    Input,
    /// What is returned.
    Output,
    /// What a trait's method returns.
    TraitOutput,
    /// The fields of a definition.
    Field,
}

/// A use with the part in which it stands.
#[derive(Clone, Copy)]
pub struct PlacedUse<'m> {
    /// The part.
    pub part: Part,
    /// The use.
    pub used: Use<'m>,
}

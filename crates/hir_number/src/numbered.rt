//! Types whose lifetimes have numbers.

use bridge_ast::ItemPlace;
use bridge_decl::{
    Boxed, Items, Mutability, PrimitiveType, StdlibOrDiplomat, StringEncoding, WriteType,
};
use hir_life::{Lifetime, Lifetimes, MaybeStatic};

/// The kind of a type that a path names.
#[derive(Clone, Copy)]
pub enum Kind {
    /// A struct that goes either way.
    Struct,
    /// A struct that only comes out.
    OutStruct,
    /// An opaque, which may be marked as mutable.
    Opaque(Mutability),
    /// An enum.
    Enum,
}

/// The type that a path names, with the path's generics.
#[derive(Drop)]
pub struct Target {
    /// The item.
    pub place: ItemPlace,
    /// Its kind.
    pub kind: Kind,
    /// The generics, as many as the item declares.
    pub lifetimes: Lifetimes,
}

/// The trait that a path names, with the path's generics.
#[derive(Drop)]
pub struct TraitTarget {
    /// The trait.
    pub place: ItemPlace,
    /// The generics, as many as the trait declares.
    pub lifetimes: Lifetimes,
}

/// A type with its lifetimes as numbers and its paths as what they name. All else is as it is declared.
#[derive(Drop)]
pub enum NumberedType {
    /// A primitive type.
    Primitive(PrimitiveType),
    /// `std::cmp::Ordering`.
    Ordering,
    /// A named type.
    Named(Target),
    /// `Self`.
    SelfType(Target),
    /// `impl Trait`.
    ImplTrait(TraitTarget),
    /// `&'a T` or `&'a mut T`.
    Reference(MaybeStatic<Lifetime>, Mutability, Boxed<NumberedType>),
    /// `Box<T>`.
    Box(Boxed<NumberedType>),
    /// `Option<T>` or `DiplomatOption<T>`.
    Option(Boxed<NumberedType>, StdlibOrDiplomat),
    /// `Result<T, E>` or `DiplomatResult<T, E>`.
    Result(Boxed<NumberedType>, Boxed<NumberedType>, StdlibOrDiplomat),
    /// A writer.
    Write(WriteType),
    /// A string slice; owned where it has no lifetime.
    StrReference(Option<MaybeStatic<Lifetime>>, StringEncoding, StdlibOrDiplomat),
    /// A list of string slices.
    StrSlice(StringEncoding, StdlibOrDiplomat),
    /// A slice of a primitive type; owned where it has no lifetime.
    PrimitiveSlice(Option<(MaybeStatic<Lifetime>, Mutability)>, PrimitiveType, StdlibOrDiplomat),
    /// A slice of any other type; owned where it has no lifetime.
    CustomTypeSlice(
        Option<(MaybeStatic<Lifetime>, Mutability)>,
        Boxed<NumberedType>,
        StdlibOrDiplomat,
    ),
    /// `impl Fn(A, B) -> R`, or `impl FnMut` where it is mutable.
    Function(Items<NumberedType>, Boxed<NumberedType>, Mutability),
    /// `()`.
    Unit,
}

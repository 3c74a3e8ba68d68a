//! The types of fields, parameters and returns.

ghost use Rattle.std.specs.Prelude.{◌≡◌, ◌↔◌, IsTrue, IfOk};

use crate::lifetimes::Lifetime;
use crate::paths::PathType;
use bridge_text::{NoMemory, clone_option};
use sqlite_items::{Boxed, Items};
use std::alloc::Global;

/// Whether a reference may be written through.
#[derive(Clone, Copy)]
pub enum Mutability {
    /// `&mut`.
    Mutable,
    /// `&`.
    Immutable,
}

impl Mutability {
    /// Whether it is `&mut`.
    pub fn is_mutable(&self) -> bool
        ensures { IsTrue result ↔ (self.now ≡ Mutability.Mutable) }
    {
        matches!(self, Mutability::Mutable)
    }

    /// Whether it is `&`.
    pub fn is_immutable(&self) -> bool
        ensures { IsTrue result ↔ (self.now ≡ Mutability.Immutable) }
    {
        matches!(self, Mutability::Immutable)
    }
}

/// How the text of a string slice is encoded, and whether that was tested.
#[derive(Clone, Copy)]
pub enum StringEncoding {
    /// `DiplomatStr`: bytes that should be UTF-8.
    UnvalidatedUtf8,
    /// `DiplomatStr16`: units that should be UTF-16.
    UnvalidatedUtf16,
    /// `str`: UTF-8.
    Utf8,
}

/// Whose spelling of a type was used.
#[derive(Clone, Copy)]
pub enum StdlibOrDiplomat {
    /// The standard library's, as `Option<T>`.
    Stdlib,
    /// Diplomat's, as `DiplomatOption<T>`.
    Diplomat,
}

/// A primitive type, under Rust's name; `byte` is a `u8` that stands for raw data.
#[derive(Clone, Copy)]
#[allow(non_camel_case_types)]
pub enum PrimitiveType {
    i8,
    u8,
    i16,
    u16,
    i32,
    u32,
    i64,
    u64,
    isize,
    usize,
    i128,
    u128,
    f32,
    f64,
    bool,
    char,
    byte,
}

/// What a writer takes.
#[derive(Clone, Copy)]
pub enum WriteType {
    /// Text in UTF-8.
    Str,
    /// Text in UTF-16.
    Str16,
    /// Values of a primitive type.
    Primitive(PrimitiveType),
}

/// A type as it is written.
#[derive(Drop)]
pub enum TypeName {
    /// A primitive type.
    Primitive(PrimitiveType),
    /// `std::cmp::Ordering`.
    Ordering,
    /// The item that a path names.
    Named(PathType),
    /// `Self`, with the path that it stands for.
    SelfType(PathType),
    /// `impl Trait`.
    ImplTrait(PathType),
    /// `&'a T` or `&'a mut T`.
    Reference(Lifetime, Mutability, Boxed<TypeName>),
    /// `Box<T>`.
    Box(Boxed<TypeName>),
    /// `Option<T>` or `DiplomatOption<T>`.
    Option(Boxed<TypeName>, StdlibOrDiplomat),
    /// `Result<T, E>` or `DiplomatResult<T, E>`.
    Result(Boxed<TypeName>, Boxed<TypeName>, StdlibOrDiplomat),
    /// A writer, as `DiplomatWrite`.
    Write(WriteType),
    /// A string slice; owned where it has no lifetime.
    StrReference(Option<Lifetime>, StringEncoding, StdlibOrDiplomat),
    /// A list of string slices.
    StrSlice(StringEncoding, StdlibOrDiplomat),
    /// A slice of a primitive type; owned where it has no lifetime.
    PrimitiveSlice(Option<(Lifetime, Mutability)>, PrimitiveType, StdlibOrDiplomat),
    /// A slice of any other type; owned where it has no lifetime.
    CustomTypeSlice(Option<(Lifetime, Mutability)>, Boxed<TypeName>, StdlibOrDiplomat),
    /// `impl Fn(A, B) -> R`, or `impl FnMut` where it is mutable.
    Function(Items<TypeName>, Boxed<TypeName>, Mutability),
    /// `()`.
    Unit,
}

impl TypeName {
    /// A copy, which is equal to the type.
    #[cycle(copies)]
    pub fn try_clone(&self, alloc: Global) -> Result<TypeName, NoMemory>
        ensures { IfOk result (λ copy. copy ≡ self.now) }
    {
        match self {
            TypeName::Primitive(primitive) => Ok(TypeName::Primitive(*primitive)),
            TypeName::Ordering => Ok(TypeName::Ordering),
            TypeName::Named(path) => Ok(TypeName::Named(path.try_clone(alloc)?)),
            TypeName::SelfType(path) => Ok(TypeName::SelfType(path.try_clone(alloc)?)),
            TypeName::ImplTrait(path) => Ok(TypeName::ImplTrait(path.try_clone(alloc)?)),
            TypeName::Reference(lifetime, mutability, inner) => {
                let lifetime = lifetime.try_clone(alloc)?;
                let inner = TypeName::clone_boxed(alloc, inner)?;
                Ok(TypeName::Reference(lifetime, *mutability, inner))
            }
            TypeName::Box(inner) => Ok(TypeName::Box(TypeName::clone_boxed(alloc, inner)?)),
            TypeName::Option(inner, spelling) => {
                let inner = TypeName::clone_boxed(alloc, inner)?;
                Ok(TypeName::Option(inner, *spelling))
            }
            TypeName::Result(ok, err, spelling) => {
                let ok = TypeName::clone_boxed(alloc, ok)?;
                let err = TypeName::clone_boxed(alloc, err)?;
                Ok(TypeName::Result(ok, err, *spelling))
            }
            TypeName::Write(target) => Ok(TypeName::Write(*target)),
            TypeName::StrReference(lifetime, encoding, spelling) => {
                let lifetime = clone_option(alloc, lifetime, Lifetime::try_clone)?;
                Ok(TypeName::StrReference(lifetime, *encoding, *spelling))
            }
            TypeName::StrSlice(encoding, spelling) => Ok(TypeName::StrSlice(*encoding, *spelling)),
            TypeName::PrimitiveSlice(borrow, primitive, spelling) => {
                let borrow = clone_option(alloc, borrow, clone_borrow)?;
                Ok(TypeName::PrimitiveSlice(borrow, *primitive, *spelling))
            }
            TypeName::CustomTypeSlice(borrow, element, spelling) => {
                let borrow = clone_option(alloc, borrow, clone_borrow)?;
                let element = TypeName::clone_boxed(alloc, element)?;
                Ok(TypeName::CustomTypeSlice(borrow, element, *spelling))
            }
            TypeName::Function(inputs, output, mutability) => {
                let inputs = TypeName::clone_each(alloc, inputs)?;
                let output = TypeName::clone_boxed(alloc, output)?;
                Ok(TypeName::Function(inputs, output, *mutability))
            }
            TypeName::Unit => Ok(TypeName::Unit),
        }
    }

    #[cycle(copies)]
    fn clone_boxed(alloc: Global, ty: &Boxed<TypeName>) -> Result<Boxed<TypeName>, NoMemory>
        ensures { IfOk result (λ copy. copy ≡ ty.now) }
    {
        Boxed::new(alloc, ty.get().try_clone(alloc)?)
    }

    #[cycle(copies)]
    fn clone_each(alloc: Global, types: &Items<TypeName>) -> Result<Items<TypeName>, NoMemory>
        ensures { IfOk result (λ copies. copies ≡ types.now) }
    {
        let mut copies = Items::new(alloc);
        for ty in types.as_slice() {
            copies.push(ty.try_clone(alloc)?)?;
        }
        Ok(copies)
    }
}

/// A copy of a lifetime with its mutability, which is equal to them.
pub(crate) fn clone_borrow(
    borrow: &(Lifetime, Mutability),
    alloc: Global,
) -> Result<(Lifetime, Mutability), NoMemory>
    ensures { IfOk result (λ copy. copy ≡ borrow.now) }
{
    let (lifetime, mutability) = borrow;
    Ok((lifetime.try_clone(alloc)?, *mutability))
}

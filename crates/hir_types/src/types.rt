//! Types.

ghost use Rattle.std.specs.Prelude.{◌≡◌, ◌↔◌, IsTrue};
ghost use Rattle.hir_types.specs.Types.{type_id, lifetimes_within, unwrapped, is_option, borrowed_as};
ghost use Rattle.bridge_decl.specs.declared.types.Mutability.{Mutability};

use crate::iterating::TypeLifetimes;
use crate::paths::{EnumPath, OpaquePath, StructPathLike};
use crate::positions::{OutputOnly, TyPosition};
use crate::slices::Slice;
use bridge_decl::{Boxed, Mutability};
use hir_ids::{OpaqueOwner, Optional, PrimitiveType, TypeId};

/// A type at a position. Upstream's `Type`.
#[derive(Drop)]
pub enum HirType<P: TyPosition> {
    /// A primitive type.
    Primitive(PrimitiveType),
    /// An opaque behind a pointer.
    Opaque(OpaquePath<Optional, P::OpaqueOwnership>),
    /// A struct.
    Struct(P::StructPath),
    /// Anything that implements a trait.
    ImplTrait(P::TraitPath),
    /// An enum.
    Enum(EnumPath),
    /// A slice.
    Slice(Slice<P>),
    /// A function.
    Callback(P::CallbackInstantiation),
    /// An option of a struct, an enum or a primitive type, or of a slice.
    DiplomatOption(Boxed<HirType<P>>),
}

/// A type of what is returned.
pub type OutType = HirType<OutputOnly>;

impl<P: TyPosition> HirType<P> {
    /// The lifetimes in the type, in this order: of an opaque those that it gives its definition
    /// and then that of its borrow; of a struct those that it gives its definition; of a slice
    /// those of its elements and then its own; of an option those of what is inside. All else has
    /// none.
    pub fn lifetimes(&self) -> TypeLifetimes<'_>
        ensures { result ≡ lifetimes_within P.OpaqueOwnership.borrow_of
            P.StructPath.lifetimes_of P.StructPath.held_of self.now }
    {
        match self {
            HirType::Opaque(path) => {
                TypeLifetimes::new(path.lifetimes.as_slice(), None, path.owner.lifetime())
            }
            HirType::Struct(path) => TypeLifetimes::new(path.lifetimes().as_slice(), None, None),
            HirType::Slice(slice) => slice.lifetimes(),
            HirType::DiplomatOption(inner) => inner.get().lifetimes(),
            HirType::Primitive(_)
            | HirType::ImplTrait(_)
            | HirType::Enum(_)
            | HirType::Callback(_) => TypeLifetimes::new(&[], None, None),
        }
    }

    /// The id of the definition that the type names: of an opaque, a struct or an enum. None of
    /// anything else.
    pub fn id(&self) -> Option<TypeId>
        ensures { result ≡ type_id P.StructPath.id_of self.now }
    {
        match self {
            HirType::Opaque(path) => Some(path.id()),
            HirType::Struct(path) => Some(path.id()),
            HirType::Enum(path) => Some(path.id()),
            _ => None,
        }
    }

    /// What is inside an option, and the type itself where it is none.
    pub fn unwrap_option(&self) -> &HirType<P>
        ensures { result.now ≡ unwrapped self.now }
    {
        match self {
            HirType::DiplomatOption(inner) => inner.get(),
            _ => self,
        }
    }

    /// Whether it may be absent: an option, or an opaque that may be absent.
    pub fn is_option(&self) -> bool
        ensures { result ≡ is_option self.now }
    {
        match self {
            HirType::DiplomatOption(_) => true,
            HirType::Opaque(path) => path.is_optional(),
            _ => false,
        }
    }

    /// Whether it is an opaque or a struct behind `&`.
    pub fn is_immutably_borrowed(&self) -> bool
        ensures { IsTrue result
            ↔ (borrowed_as P.OpaqueOwnership.borrow_of P.StructPath.held_of self.now
            ≡ Some Mutability.Immutable) }
    {
        match self.borrowed_as() {
            Some(mutability) => mutability.is_immutable(),
            None => false,
        }
    }

    /// Whether it is an opaque or a struct behind `&mut`.
    pub fn is_mutably_borrowed(&self) -> bool
        ensures { IsTrue result
            ↔ (borrowed_as P.OpaqueOwnership.borrow_of P.StructPath.held_of self.now
            ≡ Some Mutability.Mutable) }
    {
        match self.borrowed_as() {
            Some(mutability) => mutability.is_mutable(),
            None => false,
        }
    }

    /// Whether the borrow of an opaque or a struct may be written through. None where it is
    /// neither, or is owned.
    fn borrowed_as(&self) -> Option<Mutability>
        ensures { result ≡ borrowed_as P.OpaqueOwnership.borrow_of P.StructPath.held_of self.now }
    {
        match self {
            HirType::Opaque(path) => path.owner.mutability(),
            HirType::Struct(path) => OpaqueOwner::mutability(&path.owner()),
            _ => None,
        }
    }
}

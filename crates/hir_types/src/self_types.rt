//! Receivers.

ghost use Rattle.std.specs.Prelude.{◌≡◌, ◌↔◌, IsTrue};
ghost use Rattle.bridge_decl.specs.declared.types.Mutability.{Mutability};
ghost use Rattle.hir_types.specs.SelfTypes.{self_borrowed_as, Consumes, type_of};

use crate::paths::{EnumPath, OpaquePath, StructPath};
use crate::positions::Everywhere;
use crate::types::HirType;
use bridge_decl::Mutability;
use hir_ids::{Borrow, MaybeOwn, NonOptional, OpaqueOwner};

/// The type of a receiver.
#[derive(Drop)]
pub enum SelfType {
    /// A borrowed opaque.
    Opaque(OpaquePath<NonOptional, Borrow>),
    /// A struct.
    Struct(StructPath),
    /// An enum.
    Enum(EnumPath),
}

impl SelfType {
    /// Whether it is an opaque or a struct behind `&`.
    pub fn is_immutably_borrowed(&self) -> bool
        ensures { IsTrue result ↔ (self_borrowed_as self.now ≡ Some Mutability.Immutable) }
    {
        match self.borrowed_as() {
            Some(mutability) => mutability.is_immutable(),
            None => false,
        }
    }

    /// Whether it is an opaque or a struct behind `&mut`.
    pub fn is_mutably_borrowed(&self) -> bool
        ensures { IsTrue result ↔ (self_borrowed_as self.now ≡ Some Mutability.Mutable) }
    {
        match self.borrowed_as() {
            Some(mutability) => mutability.is_mutable(),
            None => false,
        }
    }

    /// Whether the method takes the receiver itself: an enum, or a struct by value.
    pub fn is_consuming(&self) -> bool
        ensures { IsTrue result ↔ Consumes self.now }
    {
        match self {
            SelfType::Opaque(_) => false,
            SelfType::Struct(path) => MaybeOwn::is_owned(&path.owner),
            SelfType::Enum(_) => true,
        }
    }

    /// Whether the borrow may be written through. None where there is none.
    fn borrowed_as(&self) -> Option<Mutability>
        ensures { result ≡ self_borrowed_as self.now }
    {
        match self {
            SelfType::Opaque(path) => Some(path.owner.mutability),
            SelfType::Struct(path) => OpaqueOwner::mutability(&path.owner),
            SelfType::Enum(_) => None,
        }
    }
}

/// The same type where it isn't a receiver: an opaque that is always there.
impl From<SelfType> for HirType<Everywhere> {
    ghost from_gives = { λ receiver made. made ≡ type_of receiver };

    fn from(receiver: SelfType) -> HirType<Everywhere> {
        match receiver {
            SelfType::Opaque(path) => HirType::Opaque(path.wrap_optional()),
            SelfType::Struct(path) => HirType::Struct(path),
            SelfType::Enum(path) => HirType::Enum(path),
        }
    }
}

//! Paths: what names a definition, and the lifetimes that it gives it.

ghost use Rattle.std.specs.Prelude.{◌≡◌, ◌↔◌, IsTrue, IsNone, IfOk, false, option_copied};
ghost use Rattle.hir_ids.specs.Owners.{lent};
ghost use Rattle.hir_ids.specs.declared.owners.MaybeOwn.{MaybeOwn};
ghost use Rattle.hir_ids.specs.declared.ids.TypeId.{TypeId};

use bridge_decl::NoMemory;
use hir_ids::{
    Borrow, EnumId, MaybeOwn, NonOptional, OpaqueId, OpaqueOwner, Optional, OutStructId, StructId,
    TraitId, TypeId,
};
use hir_life::Lifetimes;
use std::alloc::Global;

/// A path to an opaque, which always stands behind a pointer.
///
/// `Opt` says whether it may be absent: [`Optional`] or [`NonOptional`]. `Owner` says how it is
/// held: [`Borrow`] or [`MaybeOwn`].
#[derive(Drop)]
pub struct OpaquePath<Opt, Owner> {
    /// The lifetimes that stand for those of the opaque, in order.
    pub lifetimes: Lifetimes,
    /// Whether it may be absent.
    pub optional: Opt,
    /// How it is held.
    pub owner: Owner,
    /// The opaque.
    pub tcx_id: OpaqueId,
}

impl<Opt, Owner> OpaquePath<Opt, Owner> {
    /// The id of the opaque, as a type's.
    pub fn id(&self) -> TypeId
        ensures { result ≡ TypeId.Opaque self.now.tcx_id }
    {
        TypeId::Opaque(self.tcx_id)
    }
}

impl<Owner: OpaqueOwner> OpaquePath<Optional, Owner> {
    /// Whether it may be absent.
    pub fn is_optional(&self) -> bool
        ensures { result ≡ self.now.optional.0 }
    {
        self.optional.get()
    }

    /// Whether it is in a box, and not borrowed.
    pub fn is_owned(&self) -> bool
        ensures { IsTrue result ↔ IsNone (Owner.borrow_of self.now.owner) }
    {
        self.owner.is_owned()
    }
}

impl<Owner: OpaqueOwner + Drop> OpaquePath<NonOptional, Owner> {
    /// The same path as one of what might be absent, but isn't.
    pub fn wrap_optional(self) -> OpaquePath<Optional, Owner>
        ensures { result ≡ record {
          lifetimes = self.lifetimes;
          optional = record { 0 = false };
          owner = self.owner;
          tcx_id = self.tcx_id;
        } }
    {
        OpaquePath {
            lifetimes: self.lifetimes,
            optional: Optional::new(false),
            owner: self.owner,
            tcx_id: self.tcx_id,
        }
    }
}

impl<Opt> OpaquePath<Opt, MaybeOwn> {
    /// The borrow, where it is one.
    pub fn as_borrowed(&self) -> Option<&Borrow>
        ensures { option_copied result ≡ lent self.now.owner }
    {
        self.owner.as_borrowed()
    }
}

impl<Opt> OpaquePath<Opt, Borrow> {
    /// The borrow.
    pub fn borrowed(&self) -> &Borrow
        ensures { result.now ≡ self.now.owner }
    {
        &self.owner
    }
}

/// A path to a struct that may stand in inputs and outputs.
#[derive(Drop)]
pub struct StructPath {
    /// The lifetimes that stand for those of the struct, in order.
    pub lifetimes: Lifetimes,
    /// The struct.
    pub tcx_id: StructId,
    /// How it is held.
    pub owner: MaybeOwn,
}

/// A path to a struct that is only returned.
#[derive(Drop)]
pub struct OutStructPath {
    /// The lifetimes that stand for those of the struct, in order.
    pub lifetimes: Lifetimes,
    /// The struct.
    pub tcx_id: OutStructId,
    /// How it is held.
    pub owner: MaybeOwn,
}

impl OutStructPath {
    /// The id of the struct, as a type's.
    pub fn id(&self) -> TypeId
        ensures { result ≡ TypeId.OutStruct self.now.tcx_id }
    {
        TypeId::OutStruct(self.tcx_id)
    }
}

/// A path to a struct of either kind, where both may be returned.
#[derive(Drop)]
pub enum ReturnableStructPath {
    /// Of one that may stand in inputs too.
    Struct(StructPath),
    /// Of one that is only returned.
    OutStruct(OutStructPath),
}

/// What paths to structs have in common at all positions.
pub trait StructPathLike: Sized {
    ghost use Rattle.std.specs.Prelude.{List, ℕ};
    ghost use Rattle.hir_life.specs.declared.maybe_static.MaybeStatic.{MaybeStatic};

    /// The lifetimes that stand for those of the struct.
    ghost lifetimes_of: { Self → List (MaybeStatic ℕ) };

    /// The struct.
    ghost id_of: { Self → TypeId };

    /// How it is held.
    ghost held_of: { Self → MaybeOwn };

    /// The lifetimes that stand for those of the struct, in order.
    fn lifetimes(&self) -> &Lifetimes
        ensures { result.now ≡ lifetimes_of self.now };

    /// The id of the struct, as a type's.
    fn id(&self) -> TypeId
        ensures { result ≡ id_of self.now };

    /// How the struct is held. What is returned is always owned.
    fn owner(&self) -> MaybeOwn
        ensures { result ≡ held_of self.now };

    /// An equal path.
    fn clone_path(&self, alloc: Global) -> Result<Self, NoMemory>
        ensures { IfOk result (λ copy. copy ≡ self.now) };
}

impl StructPathLike for StructPath {
    ghost lifetimes_of = { λ path. path.lifetimes };

    ghost id_of = { λ path. TypeId.Struct path.tcx_id };

    ghost held_of = { λ path. path.owner };

    fn lifetimes(&self) -> &Lifetimes {
        &self.lifetimes
    }

    fn id(&self) -> TypeId {
        TypeId::Struct(self.tcx_id)
    }

    fn owner(&self) -> MaybeOwn {
        self.owner
    }

    fn clone_path(&self, alloc: Global) -> Result<StructPath, NoMemory> {
        self.try_clone(alloc)
    }
}

impl StructPathLike for ReturnableStructPath {
    ghost use Rattle.hir_ids.specs.declared.owners.MaybeOwn.{MaybeOwn};
    ghost use Rattle.hir_types.specs.Paths.{returnable_id, returnable_lifetimes};

    ghost lifetimes_of = { returnable_lifetimes };

    ghost id_of = { returnable_id };

    ghost held_of = { λ path. MaybeOwn.Own };

    fn lifetimes(&self) -> &Lifetimes {
        match self {
            ReturnableStructPath::Struct(path) => &path.lifetimes,
            ReturnableStructPath::OutStruct(path) => &path.lifetimes,
        }
    }

    fn id(&self) -> TypeId {
        match self {
            ReturnableStructPath::Struct(path) => TypeId::Struct(path.tcx_id),
            ReturnableStructPath::OutStruct(path) => TypeId::OutStruct(path.tcx_id),
        }
    }

    fn owner(&self) -> MaybeOwn {
        MaybeOwn::Own
    }

    fn clone_path(&self, alloc: Global) -> Result<ReturnableStructPath, NoMemory> {
        self.try_clone(alloc)
    }
}

/// A path to an enum.
#[derive(Clone, Copy)]
pub struct EnumPath {
    /// The enum.
    pub tcx_id: EnumId,
}

impl EnumPath {
    /// The id of the enum, as a type's.
    pub fn id(&self) -> TypeId
        ensures { result ≡ TypeId.Enum self.now.tcx_id }
    {
        TypeId::Enum(self.tcx_id)
    }
}

/// A path to a trait.
#[derive(Drop)]
pub struct TraitPath {
    /// The lifetimes that stand for those of the trait, in order.
    pub lifetimes: Lifetimes,
    /// The trait.
    pub tcx_id: TraitId,
}

/// The path to a trait at positions that have none: there is no such value.
#[derive(Clone, Copy)]
pub enum NoTraitPath {}

/// What a path to a trait names.
pub trait TraitIdGetter {
    ghost use Rattle.std.specs.Prelude.{ℕ};

    /// The trait.
    ghost trait_of: { Self → ℕ };

    /// The id of the trait.
    fn id(&self) -> TraitId
        ensures { result ≡ trait_of self.now };
}

impl TraitIdGetter for TraitPath {
    ghost trait_of = { λ path. path.tcx_id };

    fn id(&self) -> TraitId {
        self.tcx_id
    }
}

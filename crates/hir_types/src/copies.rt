//! Copies of types.
//!
//! A copy is equal to what it was made of, also where that holds itself. What can't be at a
//! position can't be lent either, so what stands at a position is copied where there is any:
//! [`CopiesSome`].

ghost use Rattle.std.specs.Prelude.{◌≡◌, IfOk, option_copied};

use crate::callbacks::{Callback, CallbackParam, NoCallback, TraitParamSelf};
use crate::paths::{
    NoTraitPath, OpaquePath, OutStructPath, ReturnableStructPath, StructPath, StructPathLike,
    TraitPath,
};
use crate::positions::TyPosition;
use crate::returns::{ReturnType, SuccessType};
use crate::slices::Slice;
use crate::types::HirType;
use bridge_decl::{Boxed, IdentBuf, NoMemory, clone_items, clone_option};
use hir_attrs::Attrs;
use hir_docs::Docs;
use hir_ids::Ident;
use std::alloc::Global;

/// What may have no value at all, and is copied where there is one.
pub trait CopiesSome: Sized {
    /// An equal value, where there is one.
    fn clone_some(value: Option<&Self>, alloc: Global) -> Result<Option<Self>, NoMemory>
        ensures { IfOk result (λ copy. copy ≡ option_copied value.entry) };
}

impl CopiesSome for NoTraitPath {
    fn clone_some(
        value: Option<&NoTraitPath>,
        _alloc: Global,
    ) -> Result<Option<NoTraitPath>, NoMemory> {
        match value {
            Some(never) => match *never {},
            None => Ok(None),
        }
    }
}

impl CopiesSome for NoCallback {
    fn clone_some(
        value: Option<&NoCallback>,
        _alloc: Global,
    ) -> Result<Option<NoCallback>, NoMemory> {
        match value {
            Some(never) => match *never {},
            None => Ok(None),
        }
    }
}

impl CopiesSome for TraitPath {
    fn clone_some(value: Option<&TraitPath>, alloc: Global) -> Result<Option<TraitPath>, NoMemory> {
        match value {
            Some(path) => Ok(Some(path.try_clone(alloc)?)),
            None => Ok(None),
        }
    }
}

impl CopiesSome for Callback {
    fn clone_some(value: Option<&Callback>, alloc: Global) -> Result<Option<Callback>, NoMemory> {
        match value {
            Some(callback) => Ok(Some(callback.try_clone(alloc)?)),
            None => Ok(None),
        }
    }
}

/// An equal value.
fn clone_one<T: CopiesSome + Drop>(value: &T, alloc: Global) -> Result<T, NoMemory>
    ensures { IfOk result (λ copy. copy ≡ value.now) }
{
    match T::clone_some(Some(value), alloc)? {
        Some(copy) => Ok(copy),
        None => unreachable!(),
    }
}

impl TraitPath {
    /// An equal path.
    pub fn try_clone(&self, alloc: Global) -> Result<TraitPath, NoMemory>
        ensures { IfOk result (λ copy. copy ≡ self.now) }
    {
        Ok(TraitPath {
            lifetimes: self.lifetimes.try_clone(alloc)?,
            tcx_id: self.tcx_id,
        })
    }
}

impl StructPath {
    /// An equal path.
    pub fn try_clone(&self, alloc: Global) -> Result<StructPath, NoMemory>
        ensures { IfOk result (λ copy. copy ≡ self.now) }
    {
        Ok(StructPath {
            lifetimes: self.lifetimes.try_clone(alloc)?,
            tcx_id: self.tcx_id,
            owner: self.owner,
        })
    }
}

impl OutStructPath {
    /// An equal path.
    pub fn try_clone(&self, alloc: Global) -> Result<OutStructPath, NoMemory>
        ensures { IfOk result (λ copy. copy ≡ self.now) }
    {
        Ok(OutStructPath {
            lifetimes: self.lifetimes.try_clone(alloc)?,
            tcx_id: self.tcx_id,
            owner: self.owner,
        })
    }
}

impl<Opt: Copy, Owner: Copy> OpaquePath<Opt, Owner> {
    /// An equal path.
    pub fn try_clone(&self, alloc: Global) -> Result<OpaquePath<Opt, Owner>, NoMemory>
        ensures { IfOk result (λ copy. copy ≡ self.now) }
    {
        Ok(OpaquePath {
            lifetimes: self.lifetimes.try_clone(alloc)?,
            optional: self.optional,
            owner: self.owner,
            tcx_id: self.tcx_id,
        })
    }
}

impl<P: TyPosition> Slice<P> {
    /// An equal slice.
    pub fn try_clone(&self, alloc: Global) -> Result<Slice<P>, NoMemory>
        ensures { IfOk result (λ copy. copy ≡ self.now) }
    {
        match self {
            Slice::Str(lifetime, encoding) => Ok(Slice::Str(*lifetime, *encoding)),
            Slice::Primitive(owner, primitive) => Ok(Slice::Primitive(*owner, *primitive)),
            Slice::Strs(encoding) => Ok(Slice::Strs(*encoding)),
            Slice::Struct(owner, path) => Ok(Slice::Struct(*owner, path.clone_path(alloc)?)),
            Slice::Enum(owner, path) => Ok(Slice::Enum(*owner, *path)),
            Slice::Opaque(owner, path) => Ok(Slice::Opaque(*owner, path.try_clone(alloc)?)),
        }
    }
}

impl<P: TyPosition> HirType<P> {
    /// An equal type.
    pub fn try_clone(&self, alloc: Global) -> Result<HirType<P>, NoMemory>
        ensures { IfOk result (λ copy. copy ≡ self.now) }
    {
        match self {
            HirType::Primitive(primitive) => Ok(HirType::Primitive(*primitive)),
            HirType::Opaque(path) => Ok(HirType::Opaque(path.try_clone(alloc)?)),
            HirType::Struct(path) => Ok(HirType::Struct(path.clone_path(alloc)?)),
            HirType::ImplTrait(path) => Ok(HirType::ImplTrait(clone_one(path, alloc)?)),
            HirType::Enum(path) => Ok(HirType::Enum(*path)),
            HirType::Slice(slice) => Ok(HirType::Slice(slice.try_clone(alloc)?)),
            HirType::Callback(callback) => Ok(HirType::Callback(clone_one(callback, alloc)?)),
            HirType::DiplomatOption(inner) => {
                let inner = inner.get().try_clone(alloc)?;
                Ok(HirType::DiplomatOption(Boxed::new(alloc, inner)?))
            }
        }
    }
}

impl<P: TyPosition> SuccessType<P> {
    /// An equal success.
    pub fn try_clone(&self, alloc: Global) -> Result<SuccessType<P>, NoMemory>
        ensures { IfOk result (λ copy. copy ≡ self.now) }
    {
        match self {
            SuccessType::Write(writer) => Ok(SuccessType::Write(*writer)),
            SuccessType::OutType(ty) => Ok(SuccessType::OutType(ty.try_clone(alloc)?)),
            SuccessType::Unit => Ok(SuccessType::Unit),
        }
    }
}

impl<P: TyPosition> ReturnType<P> {
    /// An equal return.
    pub fn try_clone(&self, alloc: Global) -> Result<ReturnType<P>, NoMemory>
        ensures { IfOk result (λ copy. copy ≡ self.now) }
    {
        match self {
            ReturnType::Infallible(success) => Ok(ReturnType::Infallible(success.try_clone(
                alloc,
            )?)),
            ReturnType::Fallible(success, error) => {
                let success = success.try_clone(alloc)?;
                let error = clone_option(alloc, error, HirType::try_clone)?;
                Ok(ReturnType::Fallible(success, error))
            }
            ReturnType::Nullable(success) => Ok(ReturnType::Nullable(success.try_clone(alloc)?)),
        }
    }
}

impl CallbackParam {
    /// An equal parameter.
    pub fn try_clone(&self, alloc: Global) -> Result<CallbackParam, NoMemory>
        ensures { IfOk result (λ copy. copy ≡ self.now) }
    {
        Ok(CallbackParam {
            ty: self.ty.try_clone(alloc)?,
            name: clone_option(alloc, &self.name, IdentBuf::try_clone)?,
        })
    }
}

impl TraitParamSelf {
    /// An equal receiver.
    pub fn try_clone(&self, alloc: Global) -> Result<TraitParamSelf, NoMemory>
        ensures { IfOk result (λ copy. copy ≡ self.now) }
    {
        Ok(TraitParamSelf {
            trait_path: self.trait_path.try_clone(alloc)?,
        })
    }
}

impl Callback {
    /// An equal callback.
    pub fn try_clone(&self, alloc: Global) -> Result<Callback, NoMemory>
        ensures { IfOk result (λ copy. copy ≡ self.now) }
    {
        Ok(Callback {
            param_self: clone_option(alloc, &self.param_self, TraitParamSelf::try_clone)?,
            params: clone_items(alloc, &self.params, CallbackParam::try_clone)?,
            output: self.output.try_clone(alloc)?,
            name: clone_option(alloc, &self.name, Ident::try_clone)?,
            attrs: clone_option(alloc, &self.attrs, Attrs::try_clone)?,
            docs: clone_option(alloc, &self.docs, Docs::try_clone)?,
        })
    }
}

impl ReturnableStructPath {
    /// An equal path.
    pub fn try_clone(&self, alloc: Global) -> Result<ReturnableStructPath, NoMemory>
        ensures { IfOk result (λ copy. copy ≡ self.now) }
    {
        match self {
            ReturnableStructPath::Struct(path) => {
                Ok(ReturnableStructPath::Struct(path.try_clone(alloc)?))
            }
            ReturnableStructPath::OutStruct(path) => {
                Ok(ReturnableStructPath::OutStruct(path.try_clone(alloc)?))
            }
        }
    }
}

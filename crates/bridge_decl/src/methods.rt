//! Methods of types, and parameters.

ghost use Rattle.std.specs.Prelude.{◌≡◌, IfOk};

use crate::attrs::Attrs;
use crate::docs::{Docs, clone_notes};
use crate::lifetimes::{Lifetime, LifetimeEnv, clone_head};
use crate::paths::PathType;
use crate::types::{Mutability, TypeName, clone_borrow};
use bridge_text::{NoMemory, Text, clone_items, clone_option};
use sqlite_items::Items;
use std::alloc::Global;

/// A method of a type.
pub struct Method {
    /// The name.
    pub name: Text,
    /// The name of the exported symbol.
    pub abi_name: Text,
    /// The type that the method's impl is for.
    pub self_type: PathType,
    /// The receiver, where there is one.
    pub self_param: Option<SelfParam>,
    /// The lifetimes of the impl, then the method's own, with the bounds that the method's references imply.
    pub lifetime_env: LifetimeEnv,
    /// The parameters after the receiver.
    pub params: Items<Param>,
    /// What is returned; none is `()`.
    pub return_type: Option<TypeName>,
    /// The documentation.
    pub docs: Docs,
    /// The attributes.
    pub attrs: Attrs,
}

/// By hand, so that where one is let go the proof has one call.
impl Drop for Method {
    fn drop(self) {
        let Method {
            name: _,
            abi_name: _,
            self_type: _,
            self_param: _,
            lifetime_env: _,
            params: _,
            return_type: _,
            docs: _,
            attrs: _,
        } = self;
    }
}

impl Method {
    /// A copy, which is equal to the method.
    pub fn try_clone(&self, alloc: Global) -> Result<Method, NoMemory>
        ensures { IfOk result (λ copy. copy ≡ self.now) }
    {
        let (name, lifetime_env) = clone_head(alloc, &self.name, &self.lifetime_env)?;
        let params = clone_items(alloc, &self.params, Param::try_clone)?;
        let (abi_name, self_type, self_param) = self.clone_owner(alloc)?;
        let (docs, attrs, return_type) = clone_tail(
            alloc,
            &self.docs,
            &self.attrs,
            &self.return_type,
        )?;
        Ok(Method {
            name,
            abi_name,
            self_type,
            self_param,
            lifetime_env,
            params,
            return_type,
            docs,
            attrs,
        })
    }

    fn clone_owner(&self, alloc: Global) -> Result<(Text, PathType, Option<SelfParam>), NoMemory>
        ensures { IfOk result (λ copy.
            copy ≡ (self.now.abi_name, self.now.self_type, self.now.self_param)) }
    {
        let abi_name = self.abi_name.try_clone(alloc)?;
        let self_type = self.self_type.try_clone(alloc)?;
        let self_param = clone_option(alloc, &self.self_param, SelfParam::try_clone)?;
        Ok((abi_name, self_type, self_param))
    }
}

/// A parameter.
pub struct Param {
    /// The name.
    pub name: Text,
    /// The type.
    pub ty: TypeName,
    /// The attributes.
    pub attrs: Attrs,
}

/// By hand, so that where one is let go the proof has one call.
impl Drop for Param {
    fn drop(self) {
        let Param {
            name: _,
            ty: _,
            attrs: _,
        } = self;
    }
}

impl Param {
    /// A copy, which is equal to the parameter.
    pub fn try_clone(&self, alloc: Global) -> Result<Param, NoMemory>
        ensures { IfOk result (λ copy. copy ≡ self.now) }
    {
        let name = self.name.try_clone(alloc)?;
        let attrs = self.attrs.try_clone(alloc)?;
        let ty = self.ty.try_clone(alloc)?;
        Ok(Param { name, ty, attrs })
    }
}

/// The receiver of a method.
pub struct SelfParam {
    /// The borrow of `&'a self` or `&'a mut self`; none is `self`.
    pub reference: Option<(Lifetime, Mutability)>,
    /// The type of `self`.
    pub path_type: PathType,
    /// The attributes.
    pub attrs: Attrs,
}

/// By hand, so that where one is let go the proof has one call.
impl Drop for SelfParam {
    fn drop(self) {
        let SelfParam {
            reference: _,
            path_type: _,
            attrs: _,
        } = self;
    }
}

impl SelfParam {
    /// A copy, which is equal to the receiver.
    pub fn try_clone(&self, alloc: Global) -> Result<SelfParam, NoMemory>
        ensures { IfOk result (λ copy. copy ≡ self.now) }
    {
        Ok(SelfParam {
            reference: clone_option(alloc, &self.reference, clone_borrow)?,
            path_type: self.path_type.try_clone(alloc)?,
            attrs: self.attrs.try_clone(alloc)?,
        })
    }
}

/// A copy of what documents and marks a signature and of what it returns, which is equal to them.
// Where a copy fails, what was copied before it is let go, arm by arm if it is a type or has attributes. So these are copied
// last, and here for all signatures.
pub(crate) fn clone_tail(
    alloc: Global,
    docs: &Docs,
    attrs: &Attrs,
    output: &Option<TypeName>,
) -> Result<(Docs, Attrs, Option<TypeName>), NoMemory>
    ensures { IfOk result (λ copy. copy ≡ (docs.now, attrs.now, output.now)) }
{
    let (docs, attrs) = clone_notes(alloc, docs, attrs)?;
    let output = clone_option(alloc, output, TypeName::try_clone)?;
    Ok((docs, attrs, output))
}

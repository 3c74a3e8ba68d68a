//! Traits that the foreign side implements.

ghost use Rattle.std.specs.Prelude.{◌≡◌, IfOk};

use crate::attrs::Attrs;
use crate::docs::{Docs, clone_notes};
use crate::lifetimes::{Lifetime, LifetimeEnv, clone_head};
use crate::methods::{Param, clone_tail};
use crate::paths::PathType;
use crate::types::{Mutability, TypeName, clone_borrow};
use bridge_text::{NoMemory, Text, clone_items, clone_option};
use sqlite_items::Items;
use std::alloc::Global;

/// A trait.
pub struct Trait {
    /// The name.
    pub name: Text,
    /// The lifetimes that it is generic in.
    pub lifetimes: LifetimeEnv,
    /// The methods, in order.
    pub methods: Items<TraitMethod>,
    /// Whether its values may move to another thread.
    pub is_send: bool,
    /// Whether its values may be shared among threads.
    pub is_sync: bool,
    /// The documentation.
    pub docs: Docs,
    /// The attributes.
    pub attrs: Attrs,
}

/// By hand, so that where one is let go the proof has one call.
impl Drop for Trait {
    fn drop(self) {
        let Trait {
            name: _,
            lifetimes: _,
            methods: _,
            is_send: _,
            is_sync: _,
            docs: _,
            attrs: _,
        } = self;
    }
}

impl Trait {
    /// A copy, which is equal to the trait.
    pub fn try_clone(&self, alloc: Global) -> Result<Trait, NoMemory>
        ensures { IfOk result (λ copy. copy ≡ self.now) }
    {
        let (name, lifetimes) = clone_head(alloc, &self.name, &self.lifetimes)?;
        let methods = clone_items(alloc, &self.methods, TraitMethod::try_clone)?;
        let (docs, attrs) = clone_notes(alloc, &self.docs, &self.attrs)?;
        Ok(Trait {
            name,
            lifetimes,
            methods,
            is_send: self.is_send,
            is_sync: self.is_sync,
            docs,
            attrs,
        })
    }
}

/// A method of a trait.
pub struct TraitMethod {
    /// The name.
    pub name: Text,
    /// The lifetimes of the signature.
    pub lifetimes: LifetimeEnv,
    /// The receiver, where there is one.
    pub self_param: Option<TraitSelfParam>,
    /// The parameters after the receiver.
    pub params: Items<Param>,
    /// What is returned; none is `()`.
    pub output_type: Option<TypeName>,
    /// The documentation.
    pub docs: Docs,
    /// The attributes.
    pub attrs: Attrs,
}

/// By hand, so that where one is let go the proof has one call.
impl Drop for TraitMethod {
    fn drop(self) {
        let TraitMethod {
            name: _,
            lifetimes: _,
            self_param: _,
            params: _,
            output_type: _,
            docs: _,
            attrs: _,
        } = self;
    }
}

impl TraitMethod {
    /// A copy, which is equal to the method.
    pub fn try_clone(&self, alloc: Global) -> Result<TraitMethod, NoMemory>
        ensures { IfOk result (λ copy. copy ≡ self.now) }
    {
        let (name, lifetimes) = clone_head(alloc, &self.name, &self.lifetimes)?;
        let params = clone_items(alloc, &self.params, Param::try_clone)?;
        let self_param = clone_option(alloc, &self.self_param, TraitSelfParam::try_clone)?;
        let (docs, attrs, output_type) = clone_tail(
            alloc,
            &self.docs,
            &self.attrs,
            &self.output_type,
        )?;
        Ok(TraitMethod {
            name,
            lifetimes,
            self_param,
            params,
            output_type,
            docs,
            attrs,
        })
    }
}

/// The receiver of a trait's method.
pub struct TraitSelfParam {
    /// The borrow of `&self` or `&mut self`; none is `self`.
    pub reference: Option<(Lifetime, Mutability)>,
    /// The trait.
    pub path_trait: PathType,
}

/// By hand, so that where one is let go the proof has one call.
impl Drop for TraitSelfParam {
    fn drop(self) {
        let TraitSelfParam {
            reference: _,
            path_trait: _,
        } = self;
    }
}

impl TraitSelfParam {
    /// A copy, which is equal to the receiver.
    pub fn try_clone(&self, alloc: Global) -> Result<TraitSelfParam, NoMemory>
        ensures { IfOk result (λ copy. copy ≡ self.now) }
    {
        let path_trait = self.path_trait.try_clone(alloc)?;
        let reference = clone_option(alloc, &self.reference, clone_borrow)?;
        Ok(TraitSelfParam {
            reference,
            path_trait,
        })
    }
}

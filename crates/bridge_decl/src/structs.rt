//! Structs, passed by their fields, and opaques, passed by pointer.

ghost use Rattle.std.specs.Prelude.{◌≡◌, IfOk};

use crate::attrs::Attrs;
use crate::docs::{Docs, clone_notes};
use crate::lifetimes::{LifetimeEnv, clone_head};
use crate::methods::Method;
use crate::types::{Mutability, TypeName};
use bridge_text::{NoMemory, Text, clone_items};
use sqlite_items::Items;
use std::alloc::Global;

/// A struct.
pub struct Struct {
    /// The name.
    pub name: Text,
    /// The lifetimes that it is generic in.
    pub lifetimes: LifetimeEnv,
    /// The fields, in order.
    pub fields: Items<Field>,
    /// The methods, in order.
    pub methods: Items<Method>,
    /// Whether it can only be returned.
    pub output_only: bool,
    /// The documentation.
    pub docs: Docs,
    /// The attributes.
    pub attrs: Attrs,
}

/// By hand, so that where one is let go the proof has one call.
impl Drop for Struct {
    fn drop(self) {
        let Struct {
            name: _,
            lifetimes: _,
            fields: _,
            methods: _,
            output_only: _,
            docs: _,
            attrs: _,
        } = self;
    }
}

impl Struct {
    /// A copy, which is equal to the struct.
    pub fn try_clone(&self, alloc: Global) -> Result<Struct, NoMemory>
        ensures { IfOk result (λ copy. copy ≡ self.now) }
    {
        let (name, lifetimes) = clone_head(alloc, &self.name, &self.lifetimes)?;
        let fields = clone_items(alloc, &self.fields, Field::try_clone)?;
        let methods = clone_items(alloc, &self.methods, Method::try_clone)?;
        let (docs, attrs) = clone_notes(alloc, &self.docs, &self.attrs)?;
        Ok(Struct {
            name,
            lifetimes,
            fields,
            methods,
            output_only: self.output_only,
            docs,
            attrs,
        })
    }
}

/// A field of a struct.
pub struct Field {
    /// The name.
    pub name: Text,
    /// The type.
    pub ty: TypeName,
    /// The documentation.
    pub docs: Docs,
    /// The attributes.
    pub attrs: Attrs,
}

/// By hand, so that where one is let go the proof has one call.
impl Drop for Field {
    fn drop(self) {
        let Field {
            name: _,
            ty: _,
            docs: _,
            attrs: _,
        } = self;
    }
}

impl Field {
    /// A copy, which is equal to the field.
    pub fn try_clone(&self, alloc: Global) -> Result<Field, NoMemory>
        ensures { IfOk result (λ copy. copy ≡ self.now) }
    {
        let name = self.name.try_clone(alloc)?;
        let (docs, attrs) = clone_notes(alloc, &self.docs, &self.attrs)?;
        let ty = self.ty.try_clone(alloc)?;
        Ok(Field {
            name,
            ty,
            docs,
            attrs,
        })
    }
}

/// A type whose fields stay on Rust's side.
pub struct OpaqueType {
    /// The name.
    pub name: Text,
    /// The lifetimes that it is generic in.
    pub lifetimes: LifetimeEnv,
    /// Whether it may be passed by `&mut`.
    pub mutability: Mutability,
    /// The methods, in order.
    pub methods: Items<Method>,
    /// The name of the exported destructor.
    pub dtor_abi_name: Text,
    /// The documentation.
    pub docs: Docs,
    /// The attributes.
    pub attrs: Attrs,
}

/// By hand, so that where one is let go the proof has one call.
impl Drop for OpaqueType {
    fn drop(self) {
        let OpaqueType {
            name: _,
            lifetimes: _,
            mutability: _,
            methods: _,
            dtor_abi_name: _,
            docs: _,
            attrs: _,
        } = self;
    }
}

impl OpaqueType {
    /// A copy, which is equal to the opaque.
    pub fn try_clone(&self, alloc: Global) -> Result<OpaqueType, NoMemory>
        ensures { IfOk result (λ copy. copy ≡ self.now) }
    {
        let (name, lifetimes) = clone_head(alloc, &self.name, &self.lifetimes)?;
        let methods = clone_items(alloc, &self.methods, Method::try_clone)?;
        let dtor_abi_name = self.dtor_abi_name.try_clone(alloc)?;
        let (docs, attrs) = clone_notes(alloc, &self.docs, &self.attrs)?;
        Ok(OpaqueType {
            name,
            lifetimes,
            mutability: self.mutability,
            methods,
            dtor_abi_name,
            docs,
            attrs,
        })
    }
}

//! Enums without fields.

ghost use Rattle.std.specs.Prelude.{◌≡◌, IfOk};

use crate::attrs::Attrs;
use crate::docs::{Docs, clone_notes};
use crate::methods::Method;
use bridge_text::{NoMemory, Text, clone_items};
use sqlite_items::Items;
use std::alloc::Global;

/// An enum.
pub struct Enum {
    /// The name.
    pub name: Text,
    /// The variants, in order.
    pub variants: Items<Variant>,
    /// The methods, in order.
    pub methods: Items<Method>,
    /// The documentation.
    pub docs: Docs,
    /// The attributes.
    pub attrs: Attrs,
}

/// By hand, so that where one is let go the proof has one call.
impl Drop for Enum {
    fn drop(self) {
        let Enum {
            name: _,
            variants: _,
            methods: _,
            docs: _,
            attrs: _,
        } = self;
    }
}

impl Enum {
    /// A copy, which is equal to the enum.
    pub fn try_clone(&self, alloc: Global) -> Result<Enum, NoMemory>
        ensures { IfOk result (λ copy. copy ≡ self.now) }
    {
        let name = self.name.try_clone(alloc)?;
        let variants = clone_items(alloc, &self.variants, Variant::try_clone)?;
        let methods = clone_items(alloc, &self.methods, Method::try_clone)?;
        let (docs, attrs) = clone_notes(alloc, &self.docs, &self.attrs)?;
        Ok(Enum {
            name,
            variants,
            methods,
            docs,
            attrs,
        })
    }
}

/// A variant of an enum.
pub struct Variant {
    /// The name.
    pub name: Text,
    /// The number that stands for the variant.
    pub discriminant: i64,
    /// The documentation.
    pub docs: Docs,
    /// The attributes.
    pub attrs: Attrs,
}

/// By hand, so that where one is let go the proof has one call.
impl Drop for Variant {
    fn drop(self) {
        let Variant {
            name: _,
            discriminant: _,
            docs: _,
            attrs: _,
        } = self;
    }
}

impl Variant {
    /// A copy, which is equal to the variant.
    pub fn try_clone(&self, alloc: Global) -> Result<Variant, NoMemory>
        ensures { IfOk result (λ copy. copy ≡ self.now) }
    {
        let name = self.name.try_clone(alloc)?;
        let (docs, attrs) = clone_notes(alloc, &self.docs, &self.attrs)?;
        Ok(Variant {
            name,
            discriminant: self.discriminant,
            docs,
            attrs,
        })
    }
}

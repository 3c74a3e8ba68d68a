//! Free functions.

ghost use Rattle.std.specs.Prelude.{◌≡◌, IfOk};

use crate::attrs::Attrs;
use crate::docs::Docs;
use crate::lifetimes::{LifetimeEnv, clone_head};
use crate::methods::{Param, clone_tail};
use crate::types::TypeName;
use bridge_text::{NoMemory, Text, clone_items};
use sqlite_items::Items;
use std::alloc::Global;

/// A function of a module.
pub struct Function {
    /// The name.
    pub name: Text,
    /// The name of the exported symbol.
    pub abi_name: Text,
    /// The lifetimes of the signature.
    pub lifetimes: LifetimeEnv,
    /// The parameters.
    pub params: Items<Param>,
    /// What is returned; none is `()`.
    pub output_type: Option<TypeName>,
    /// The documentation.
    pub docs: Docs,
    /// The attributes.
    pub attrs: Attrs,
}

/// By hand, so that where one is let go the proof has one call.
impl Drop for Function {
    fn drop(self) {
        let Function {
            name: _,
            abi_name: _,
            lifetimes: _,
            params: _,
            output_type: _,
            docs: _,
            attrs: _,
        } = self;
    }
}

impl Function {
    /// A copy, which is equal to the function.
    pub fn try_clone(&self, alloc: Global) -> Result<Function, NoMemory>
        ensures { IfOk result (λ copy. copy ≡ self.now) }
    {
        let (name, lifetimes) = clone_head(alloc, &self.name, &self.lifetimes)?;
        let abi_name = self.abi_name.try_clone(alloc)?;
        let params = clone_items(alloc, &self.params, Param::try_clone)?;
        let (docs, attrs, output_type) = clone_tail(
            alloc,
            &self.docs,
            &self.attrs,
            &self.output_type,
        )?;
        Ok(Function {
            name,
            abi_name,
            lifetimes,
            params,
            output_type,
            docs,
            attrs,
        })
    }
}

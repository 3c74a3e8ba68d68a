//! Methods and functions.

ghost use Rattle.std.specs.Prelude.{◌≡◌, IfOk, option_copied};
ghost use Rattle.hir_life.specs.Substitution.{identity};
ghost use Rattle.hir_definitions.specs.Receivers.{receiver_mutability};

use bridge_decl::{IdentBuf, Items, Mutability, NoMemory};
use hir_attrs::{Attrs, DefaultArgValue};
use hir_docs::Docs;
use hir_ids::{Ident, MaybeOwn};
use hir_life::{LifetimeEnv, Lifetimes};
use hir_types::{HirType, InputOnly, OutputOnly, ReturnType, SelfType};
use std::alloc::Global;

/// A method of a type, or a function.
pub struct Method {
    /// What is documented.
    pub docs: Docs,
    /// Its name.
    pub name: Ident,
    /// The name of its exported symbol.
    pub abi_name: IdentBuf,
    /// The lifetimes of its signature.
    pub lifetime_env: LifetimeEnv,
    /// Its receiver. None for a function, and for a method without one.
    pub param_self: Option<ParamSelf>,
    /// What it takes besides, without a trailing writer.
    pub params: Items<Param>,
    /// What it returns.
    pub output: ReturnType<OutputOnly>,
    /// Its marks.
    pub attrs: Attrs,
}

/// By hand, so that where one is let go the proof has one call.
impl Drop for Method {
    fn drop(self) {
        let Method {
            docs: _,
            name: _,
            abi_name: _,
            lifetime_env: _,
            param_self: _,
            params: _,
            output: _,
            attrs: _,
        } = self;
    }
}

impl Method {
    /// All lifetimes of the signature in ascending order, named and anonymous ones.
    pub fn method_lifetimes(&self, alloc: Global) -> Result<Lifetimes, NoMemory>
        ensures { IfOk result (λ list. list ≡ identity self.now.lifetime_env.count) }
    {
        self.lifetime_env.lifetimes(alloc)
    }
}

/// A receiver.
pub struct ParamSelf {
    /// Its type.
    pub ty: SelfType,
    /// Its marks.
    pub attrs: Attrs,
}

/// By hand, so that where one is let go the proof has one call.
impl Drop for ParamSelf {
    fn drop(self) {
        let ParamSelf { ty: _, attrs: _ } = self;
    }
}

impl ParamSelf {
    /// Whether the method may write through the receiver: as its borrow says; a struct that the
    /// method takes itself may be written, and an enum is never.
    pub fn get_mutability(&self) -> Mutability
        ensures { result ≡ receiver_mutability self.now.ty }
    {
        match &self.ty {
            SelfType::Opaque(path) => path.owner.mutability,
            SelfType::Struct(path) => MaybeOwn::mutability(&path.owner),
            SelfType::Enum(_) => Mutability::Immutable,
        }
    }
}

/// A parameter.
pub struct Param {
    /// Its name.
    pub name: IdentBuf,
    /// Its type.
    pub ty: HirType<InputOnly>,
    /// Its marks.
    pub attrs: Attrs,
}

/// By hand, so that where one is let go the proof has one call.
impl Drop for Param {
    fn drop(self) {
        let Param {
            name: _,
            ty: _,
            attrs: _,
        } = self;
    }
}

impl Param {
    /// The value that it has where none is passed, if a mark gives one.
    pub fn default_value(&self) -> Option<&DefaultArgValue>
        ensures { option_copied result ≡ self.now.attrs.default_value }
    {
        self.attrs.default_value.as_ref()
    }
}

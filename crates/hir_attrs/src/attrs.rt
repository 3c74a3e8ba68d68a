//! The set of marks of a declaration.

ghost use Rattle.std.specs.Prelude.{◌≡◌, IfOk, None};
ghost use Rattle.hir_attrs.specs.Attrs.{empty_attrs, inherited, kept_disable, kept_namespace};

use crate::includes::{IncludeLocation, IncludeSource};
use crate::special::SpecialMethod;
use crate::values::DefaultArgValue;
use bridge_decl::{
    AttrInheritContext, Items, NoMemory, RenameAttr, Text, clone_items, clone_option,
};
use std::alloc::Global;

/// What the marks of a declaration come to for a backend. As `diplomat_core::hir::Attrs`.
pub struct Attrs {
    /// The declaration is left out.
    pub disable: bool,
    /// Its interface may still change.
    pub unstable: bool,
    /// The note of a deprecated declaration.
    pub deprecated: Option<Text>,
    /// The namespace that it stands in.
    pub namespace: Option<Text>,
    /// What it is called, as a pattern around its name.
    pub rename: RenameAttr,
    /// What its exported symbol is called, as a pattern around its name.
    pub abi_rename: RenameAttr,
    /// What a method is beside an ordinary one.
    pub special_method: Option<SpecialMethod>,
    /// A type is an error.
    pub custom_errors: bool,
    /// A type has a default value, or a variant is the default one.
    pub default: bool,
    /// An interface for mocks is generated.
    pub generate_mocking_interface: bool,
    /// A value may be disposed of by hand.
    pub manually_disposable: bool,
    /// A type is laid out as in Rust.
    pub abi_compatible: bool,
    /// A variant or a field tells an error of the interface itself.
    pub ffi_error: bool,
    /// A struct may be passed by `&mut`.
    pub mut_struct_ref: bool,
    /// A struct is a tuple.
    pub tuple: bool,
    /// A violated precondition is told in a way of its own.
    pub precondition_violation: bool,
    /// Code that is written by hand and included, each with its place.
    pub custom_extra_code: Items<(IncludeLocation, IncludeSource)>,
    /// The value that a parameter has where none is passed.
    pub default_value: Option<DefaultArgValue>,
}

/// By hand, so that where one is let go the proof has one call.
impl Drop for Attrs {
    fn drop(self) {
        let Attrs {
            disable: _,
            unstable: _,
            deprecated: _,
            namespace: _,
            rename: _,
            abi_rename: _,
            special_method: _,
            custom_errors: _,
            default: _,
            generate_mocking_interface: _,
            manually_disposable: _,
            abi_compatible: _,
            ffi_error: _,
            mut_struct_ref: _,
            tuple: _,
            precondition_violation: _,
            custom_extra_code: _,
            default_value: _,
        } = self;
    }
}

/// A copy of an included code and its place.
fn clone_include(
    include: &(IncludeLocation, IncludeSource),
    alloc: Global,
) -> Result<(IncludeLocation, IncludeSource), NoMemory>
    ensures { IfOk result (λ copy. copy ≡ include.now) }
{
    let code = include.1.try_clone(alloc)?;
    Ok((include.0, code))
}

/// A copy of a text, where it is handed on.
fn kept_namespace(
    alloc: Global,
    namespace: &Option<Text>,
    context: AttrInheritContext,
) -> Result<Option<Text>, NoMemory>
    ensures { IfOk result (λ kept. kept ≡ kept_namespace namespace.now context) }
{
    match context {
        AttrInheritContext::Module | AttrInheritContext::OfType => {
            clone_option(alloc, namespace, Text::try_clone)
        }
        AttrInheritContext::Variant | AttrInheritContext::MethodOrImplFromModule => Ok(None),
    }
}

/// Whether what is disabled disables what stands in it: all but the variants of an enum, which have no existence of their own.
fn kept_disable(disable: bool, context: AttrInheritContext) -> bool
    ensures { result ≡ kept_disable disable context }
{
    match context {
        AttrInheritContext::Variant => false,
        _ => disable,
    }
}

impl Attrs {
    /// No marks. It takes no memory.
    pub fn empty(alloc: Global) -> Attrs
        ensures { result ≡ empty_attrs }
    {
        Attrs {
            disable: false,
            unstable: false,
            deprecated: None,
            namespace: None,
            rename: RenameAttr::empty(),
            abi_rename: RenameAttr::empty(),
            special_method: None,
            custom_errors: false,
            default: false,
            generate_mocking_interface: false,
            manually_disposable: false,
            abi_compatible: false,
            ffi_error: false,
            mut_struct_ref: false,
            tuple: false,
            precondition_violation: false,
            custom_extra_code: Items::new(alloc),
            default_value: None,
        }
    }

    /// What is taken over from the declaration that one stands in: `disable`, but not by a variant; `unstable`; the namespace, by
    /// submodules and by types, traits and functions; the name as `RenameAttr::attrs_for_inheritance` hands it on; and nothing else.
    pub fn for_inheritance(
        &self,
        alloc: Global,
        context: AttrInheritContext,
    ) -> Result<Attrs, NoMemory>
        ensures { IfOk result (λ attrs. attrs ≡ inherited self.now context) }
    {
        let namespace = kept_namespace(alloc, &self.namespace, context)?;
        let rename = self.rename.attrs_for_inheritance(alloc, context)?;
        let mut attrs = Attrs::empty(alloc);
        attrs.disable = kept_disable(self.disable, context);
        attrs.unstable = self.unstable;
        attrs.namespace = namespace;
        attrs.rename = rename;
        Ok(attrs)
    }

    /// A copy, which is equal to the set.
    pub fn try_clone(&self, alloc: Global) -> Result<Attrs, NoMemory>
        ensures { IfOk result (λ copy. copy ≡ self.now) }
    {
        Ok(Attrs {
            disable: self.disable,
            unstable: self.unstable,
            deprecated: clone_option(alloc, &self.deprecated, Text::try_clone)?,
            namespace: clone_option(alloc, &self.namespace, Text::try_clone)?,
            rename: self.rename.try_clone(alloc)?,
            abi_rename: self.abi_rename.try_clone(alloc)?,
            special_method: clone_option(alloc, &self.special_method, SpecialMethod::try_clone)?,
            custom_errors: self.custom_errors,
            default: self.default,
            generate_mocking_interface: self.generate_mocking_interface,
            manually_disposable: self.manually_disposable,
            abi_compatible: self.abi_compatible,
            ffi_error: self.ffi_error,
            mut_struct_ref: self.mut_struct_ref,
            tuple: self.tuple,
            precondition_violation: self.precondition_violation,
            custom_extra_code: clone_items(alloc, &self.custom_extra_code, clone_include)?,
            default_value: self.default_value,
        })
    }
}

//! Structs, opaques, enums and traits.

use crate::methods::Method;
use crate::special::SpecialMethodPresence;
use crate::usage::TypingUseInfo;
use bridge_decl::{IdentBuf, Items};
use hir_attrs::Attrs;
use hir_docs::Docs;
use hir_ids::Ident;
use hir_life::LifetimeEnv;
use hir_types::{Callback, HirType, OutputOnly, TyPosition};

/// A struct, by the position of its fields' types.
pub struct StructDef<P: TyPosition> {
    /// What is documented.
    pub docs: Docs,
    /// Its name.
    pub name: Ident,
    /// Its fields, in order.
    pub fields: Items<StructField<P>>,
    /// Its methods, in order.
    pub methods: Items<Method>,
    /// Its marks.
    pub attrs: Attrs,
    /// Its lifetimes.
    pub lifetimes: LifetimeEnv,
    /// Which of its methods are more than methods.
    pub special_method_presence: SpecialMethodPresence,
    /// How it is used elsewhere.
    pub usage: TypingUseInfo,
}

/// By hand, so that where one is let go the proof has one call.
impl<P: TyPosition + Drop> Drop for StructDef<P> {
    fn drop(self) {
        let StructDef {
            docs: _,
            name: _,
            fields: _,
            methods: _,
            attrs: _,
            lifetimes: _,
            special_method_presence: _,
            usage: _,
        } = self;
    }
}

/// A struct that is only returned.
pub type OutStructDef = StructDef<OutputOnly>;

/// A field.
pub struct StructField<P: TyPosition> {
    /// What is documented.
    pub docs: Docs,
    /// Its name.
    pub name: IdentBuf,
    /// Its type.
    pub ty: HirType<P>,
    /// Its marks.
    pub attrs: Attrs,
}

/// By hand, so that where one is let go the proof has one call.
impl<P: TyPosition + Drop> Drop for StructField<P> {
    fn drop(self) {
        let StructField {
            docs: _,
            name: _,
            ty: _,
            attrs: _,
        } = self;
    }
}

/// A field of a struct that is only returned.
pub type OutStructField = StructField<OutputOnly>;

/// An opaque: a type that other languages hold behind a pointer alone.
pub struct OpaqueDef {
    /// What is documented.
    pub docs: Docs,
    /// Its name.
    pub name: Ident,
    /// Its methods, in order.
    pub methods: Items<Method>,
    /// Its marks.
    pub attrs: Attrs,
    /// Its lifetimes.
    pub lifetimes: LifetimeEnv,
    /// Which of its methods are more than methods.
    pub special_method_presence: SpecialMethodPresence,
    /// The name of the exported symbol that frees it.
    pub dtor_abi_name: IdentBuf,
    /// How it is used elsewhere.
    pub usage: TypingUseInfo,
}

/// By hand, so that where one is let go the proof has one call.
impl Drop for OpaqueDef {
    fn drop(self) {
        let OpaqueDef {
            docs: _,
            name: _,
            methods: _,
            attrs: _,
            lifetimes: _,
            special_method_presence: _,
            dtor_abi_name: _,
            usage: _,
        } = self;
    }
}

/// An enum of variants without fields.
pub struct EnumDef {
    /// What is documented.
    pub docs: Docs,
    /// Its name.
    pub name: Ident,
    /// Its variants, in order.
    pub variants: Items<EnumVariant>,
    /// Its methods, in order.
    pub methods: Items<Method>,
    /// Its marks.
    pub attrs: Attrs,
    /// Which of its methods are more than methods.
    pub special_method_presence: SpecialMethodPresence,
    /// How it is used elsewhere.
    pub usage: TypingUseInfo,
}

/// By hand, so that where one is let go the proof has one call.
impl Drop for EnumDef {
    fn drop(self) {
        let EnumDef {
            docs: _,
            name: _,
            variants: _,
            methods: _,
            attrs: _,
            special_method_presence: _,
            usage: _,
        } = self;
    }
}

/// A variant.
pub struct EnumVariant {
    /// What is documented.
    pub docs: Docs,
    /// Its name.
    pub name: IdentBuf,
    /// The number that stands for it.
    pub discriminant: i64,
    /// Its marks.
    pub attrs: Attrs,
}

/// By hand, so that where one is let go the proof has one call.
impl Drop for EnumVariant {
    fn drop(self) {
        let EnumVariant {
            docs: _,
            name: _,
            discriminant: _,
            attrs: _,
        } = self;
    }
}

/// A trait that other languages implement.
pub struct TraitDef {
    /// What is documented.
    pub docs: Docs,
    /// Its name.
    pub name: Ident,
    /// Its methods, in order.
    pub methods: Items<Callback>,
    /// Its marks.
    pub attrs: Attrs,
    /// Its lifetimes.
    pub lifetimes: LifetimeEnv,
    /// How it is used elsewhere.
    pub usage: TypingUseInfo,
}

/// By hand, so that where one is let go the proof has one call.
impl Drop for TraitDef {
    fn drop(self) {
        let TraitDef {
            docs: _,
            name: _,
            methods: _,
            attrs: _,
            lifetimes: _,
            usage: _,
        } = self;
    }
}

//! Definitions of types, lent.

ghost use Rattle.std.specs.Prelude.{◌≡◌};
ghost use Rattle.hir_definitions.specs.TypeDefs.{defined_attrs, defined_docs, defined_methods, defined_name, defined_specials};

use crate::definitions::{EnumDef, OpaqueDef, OutStructDef, StructDef};
use crate::methods::Method;
use crate::special::SpecialMethodPresence;
use bridge_decl::IdentBuf;
use hir_attrs::Attrs;
use hir_docs::Docs;
use hir_types::Everywhere;

/// The definition of a type, lent.
#[derive(Clone, Copy)]
pub enum TypeDef<'tcx> {
    /// A struct.
    Struct(&'tcx StructDef<Everywhere>),
    /// A struct that is only returned.
    OutStruct(&'tcx OutStructDef),
    /// An opaque.
    Opaque(&'tcx OpaqueDef),
    /// An enum.
    Enum(&'tcx EnumDef),
}

impl<'tcx> TypeDef<'tcx> {
    /// The name of the type.
    pub fn name(&self) -> &'tcx IdentBuf
        ensures { result.now ≡ defined_name self.now }
    {
        match *self {
            TypeDef::Struct(def) => def.name.ident(),
            TypeDef::OutStruct(def) => def.name.ident(),
            TypeDef::Opaque(def) => def.name.ident(),
            TypeDef::Enum(def) => def.name.ident(),
        }
    }

    /// What is documented.
    pub fn docs(&self) -> &'tcx Docs
        ensures { result.now ≡ defined_docs self.now }
    {
        match *self {
            TypeDef::Struct(def) => &def.docs,
            TypeDef::OutStruct(def) => &def.docs,
            TypeDef::Opaque(def) => &def.docs,
            TypeDef::Enum(def) => &def.docs,
        }
    }

    /// The methods, in order.
    pub fn methods(&self) -> &'tcx [Method]
        ensures { result.now ≡ defined_methods self.now }
    {
        match *self {
            TypeDef::Struct(def) => def.methods.as_slice(),
            TypeDef::OutStruct(def) => def.methods.as_slice(),
            TypeDef::Opaque(def) => def.methods.as_slice(),
            TypeDef::Enum(def) => def.methods.as_slice(),
        }
    }

    /// The marks.
    pub fn attrs(&self) -> &'tcx Attrs
        ensures { result.now ≡ defined_attrs self.now }
    {
        match *self {
            TypeDef::Struct(def) => &def.attrs,
            TypeDef::OutStruct(def) => &def.attrs,
            TypeDef::Opaque(def) => &def.attrs,
            TypeDef::Enum(def) => &def.attrs,
        }
    }

    /// Which methods are more than methods.
    pub fn special_method_presence(&self) -> &'tcx SpecialMethodPresence
        ensures { result.now ≡ defined_specials self.now }
    {
        match *self {
            TypeDef::Struct(def) => &def.special_method_presence,
            TypeDef::OutStruct(def) => &def.special_method_presence,
            TypeDef::Opaque(def) => &def.special_method_presence,
            TypeDef::Enum(def) => &def.special_method_presence,
        }
    }
}

impl<'tcx> From<&'tcx OpaqueDef> for TypeDef<'tcx> {
    ghost use Rattle.hir_definitions.specs.declared.type_defs.TypeDef.{TypeDef};

    ghost from_gives = { λ def made. made ≡ TypeDef.Opaque def };

    fn from(def: &'tcx OpaqueDef) -> TypeDef<'tcx> {
        TypeDef::Opaque(def)
    }
}

impl<'tcx> From<&'tcx EnumDef> for TypeDef<'tcx> {
    ghost use Rattle.hir_definitions.specs.declared.type_defs.TypeDef.{TypeDef};

    ghost from_gives = { λ def made. made ≡ TypeDef.Enum def };

    fn from(def: &'tcx EnumDef) -> TypeDef<'tcx> {
        TypeDef::Enum(def)
    }
}

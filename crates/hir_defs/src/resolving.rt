//! Paths to definitions.

ghost use Rattle.std.specs.Prelude.{◌≡◌, Some};
ghost use Rattle.hir_context.specs.Lookups.{IsIn, defined_at};
ghost use Rattle.hir_ids.specs.declared.ids.SymbolId.TheVariants as symbol;

use hir_context::TypeContext;
use hir_definitions::{EnumDef, OpaqueDef, OutStructDef, StructDef};
use hir_types::{
    EnumPath, Everywhere, OpaquePath, OutStructPath, ReturnableStructPath, StructPath,
};

/// A path, by which a context lends the definition that it names.
pub trait ResolvePath<'tcx> {
    ghost use Rattle.hir_context.specs.Lookups.{DefinedType};
    ghost use Rattle.hir_ids.specs.declared.ids.TypeId.{TypeId};

    /// The definition, lent.
    type Definition;

    /// The id that stands in the path.
    ghost named: { Self → TypeId };

    /// The type that such a definition defines.
    ghost defined: { Self.Definition → DefinedType };

    /// The definition that the path names, which is there.
    fn resolve(&self, tcx: &'tcx TypeContext) -> Self::Definition
        requires { IsIn tcx.now.definitions (symbol.TypeId (named self.now)) }
        ensures { defined_at tcx.now.definitions (named self.now) ≡ Some (defined result) };
}

impl<'tcx, Opt, Owner> ResolvePath<'tcx> for OpaquePath<Opt, Owner> {
    ghost use Rattle.hir_context.specs.Lookups.{Opaque};
    ghost use Rattle.hir_ids.specs.declared.ids.TypeId.TheVariants as type;

    type Definition = &'tcx OpaqueDef;

    ghost named = { λ path. type.Opaque path.tcx_id };

    ghost defined = { λ def. Opaque def.now };

    fn resolve(&self, tcx: &'tcx TypeContext) -> &'tcx OpaqueDef {
        tcx.resolve_opaque(self.tcx_id)
    }
}

impl<'tcx> ResolvePath<'tcx> for StructPath {
    ghost use Rattle.hir_context.specs.Lookups.{Struct};
    ghost use Rattle.hir_ids.specs.declared.ids.TypeId.TheVariants as type;

    type Definition = &'tcx StructDef<Everywhere>;

    ghost named = { λ path. type.Struct path.tcx_id };

    ghost defined = { λ def. Struct def.now };

    fn resolve(&self, tcx: &'tcx TypeContext) -> &'tcx StructDef<Everywhere> {
        tcx.resolve_struct(self.tcx_id)
    }
}

impl<'tcx> ResolvePath<'tcx> for OutStructPath {
    ghost use Rattle.hir_context.specs.Lookups.{OutStruct};
    ghost use Rattle.hir_ids.specs.declared.ids.TypeId.TheVariants as type;

    type Definition = &'tcx OutStructDef;

    ghost named = { λ path. type.OutStruct path.tcx_id };

    ghost defined = { λ def. OutStruct def.now };

    fn resolve(&self, tcx: &'tcx TypeContext) -> &'tcx OutStructDef {
        tcx.resolve_out_struct(self.tcx_id)
    }
}

/// A struct of either kind, lent.
#[derive(Clone, Copy)]
pub enum ReturnableStructDef<'tcx> {
    /// One that may stand in inputs too.
    Struct(&'tcx StructDef<Everywhere>),
    /// One that is only returned.
    OutStruct(&'tcx OutStructDef),
}

impl<'tcx> ResolvePath<'tcx> for ReturnableStructPath {
    ghost use Rattle.hir_types.specs.Paths.{returnable_id};
    ghost use Rattle.hir_defs.specs.Defined.{returnable_type};

    type Definition = ReturnableStructDef<'tcx>;

    ghost named = { returnable_id };

    ghost defined = { returnable_type };

    fn resolve(&self, tcx: &'tcx TypeContext) -> ReturnableStructDef<'tcx> {
        match self {
            ReturnableStructPath::Struct(path) => ReturnableStructDef::Struct(path.resolve(tcx)),
            ReturnableStructPath::OutStruct(path) => {
                ReturnableStructDef::OutStruct(path.resolve(tcx))
            }
        }
    }
}

impl<'tcx> ResolvePath<'tcx> for EnumPath {
    ghost use Rattle.hir_context.specs.Lookups.{Enum};
    ghost use Rattle.hir_ids.specs.declared.ids.TypeId.TheVariants as type;

    type Definition = &'tcx EnumDef;

    ghost named = { λ path. type.Enum path.tcx_id };

    ghost defined = { λ def. Enum def.now };

    fn resolve(&self, tcx: &'tcx TypeContext) -> &'tcx EnumDef {
        tcx.resolve_enum(self.tcx_id)
    }
}

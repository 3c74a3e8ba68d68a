//! What depends on the position of a type among definitions.

ghost use Rattle.std.specs.Prelude.{◌≡◌, IfSome, Some, None, is_some, option_map};
ghost use Rattle.hir_context.specs.Lookups.{IsIn, defined_at, lent_type};
ghost use Rattle.hir_defs.specs.Defined.{defines_structs};
ghost use Rattle.hir_defs.specs.Linking.{IsLinkable, link_to};
ghost use Rattle.hir_ids.specs.declared.ids.SymbolId.TheVariants as symbol;

use crate::linking::LinkedPath;
use hir_context::TypeContext;
use hir_definitions::{StructDef, StructField, TypeDef};
use hir_ids::{OutStructId, StructId};
use hir_links::LinkedLifetimes;
use hir_types::{
    CallbackReturn, Everywhere, InputOnly, OutputOnly, PositionTypes, ReturnableStructPath,
    StructPath,
};

/// A position of types, with what can be done there with definitions: see the table at the head of
/// the crate.
pub trait PositionDefs: PositionTypes {
    ghost use Rattle.std.specs.Prelude.{Option};
    ghost use Rattle.hir_context.specs.Lookups.{DefinedType};
    ghost use Rattle.hir_definitions.specs.declared.definitions.StructDef.{StructDef};
    ghost use Rattle.hir_ids.specs.declared.ids.TypeId.{TypeId};

    /// The struct of this id.
    ghost struct_of: { Self.StructId → TypeId };

    /// The type that a struct defines here, where the position has structs of its own.
    ghost type_of_struct: { StructDef Self Self.CallbackInstantiation Self.OpaqueOwnership
        Self.StructId Self.StructPath Self.TraitPath → Option DefinedType };

    /// The lifetimes of the struct that a path names, beside those of the path. The struct is there
    /// and has as many.
    fn link_lifetimes<'def, 'tcx>(
        path: &'def Self::StructPath,
        tcx: &'tcx TypeContext,
    ) -> LinkedLifetimes<'def, 'tcx>
        requires { IsLinkable tcx.now.definitions (Self.StructPath.id_of path.now)
            (Self.StructPath.lifetimes_of path.now) }
        ensures { link_to tcx.now.definitions (Self.StructPath.id_of path.now) None
            (Self.StructPath.lifetimes_of path.now) ≡ Some result };

    /// The type that a struct defines here, lent. None exactly where the position is one of inputs
    /// alone, which has no structs of its own.
    fn wrap_struct_def<'tcx>(def: &'tcx StructDef<Self>) -> Option<TypeDef<'tcx>>
        ensures some { is_some result ≡ defines_structs Self.IN_OUT_STATUS }
        ensures lent { option_map lent_type result ≡ type_of_struct def.now };

    /// The struct of this id, which is there, as one of the position's own. None exactly where the
    /// position is one of inputs alone.
    fn resolve_struct(tcx: &TypeContext, id: Self::StructId) -> Option<&StructDef<Self>>
        requires { IsIn tcx.now.definitions (symbol.TypeId (struct_of id)) }
        ensures some { is_some result ≡ defines_structs Self.IN_OUT_STATUS }
        ensures found { IfSome result
            (λ def. type_of_struct def.now ≡ defined_at tcx.now.definitions (struct_of id)) };

    /// The fields of a struct.
    fn get_fields(def: &StructDef<Self>) -> &[StructField<Self>]
        ensures { result.now ≡ def.now.fields };
}

impl PositionDefs for Everywhere {
    ghost use Rattle.hir_context.specs.Lookups.{Struct};
    ghost use Rattle.hir_ids.specs.declared.ids.TypeId.TheVariants as type;

    ghost struct_of = { λ id. type.Struct id };

    ghost type_of_struct = { λ def. Some (Struct def) };

    fn link_lifetimes<'def, 'tcx>(
        path: &'def StructPath,
        tcx: &'tcx TypeContext,
    ) -> LinkedLifetimes<'def, 'tcx> {
        path.link_lifetimes(tcx)
    }

    fn wrap_struct_def<'tcx>(def: &'tcx StructDef<Everywhere>) -> Option<TypeDef<'tcx>> {
        Some(TypeDef::Struct(def))
    }

    fn resolve_struct(tcx: &TypeContext, id: StructId) -> Option<&StructDef<Everywhere>> {
        Some(tcx.resolve_struct(id))
    }

    fn get_fields(def: &StructDef<Everywhere>) -> &[StructField<Everywhere>] {
        def.fields.as_slice()
    }
}

impl PositionDefs for InputOnly {
    ghost use Rattle.hir_ids.specs.declared.ids.TypeId.TheVariants as type;

    ghost struct_of = { λ id. type.Struct id };

    ghost type_of_struct = { λ _. None };

    fn link_lifetimes<'def, 'tcx>(
        path: &'def StructPath,
        tcx: &'tcx TypeContext,
    ) -> LinkedLifetimes<'def, 'tcx> {
        path.link_lifetimes(tcx)
    }

    fn wrap_struct_def<'tcx>(_def: &'tcx StructDef<InputOnly>) -> Option<TypeDef<'tcx>> {
        None
    }

    fn resolve_struct(_tcx: &TypeContext, _id: StructId) -> Option<&StructDef<InputOnly>> {
        None
    }

    fn get_fields(def: &StructDef<InputOnly>) -> &[StructField<InputOnly>] {
        def.fields.as_slice()
    }
}

impl PositionDefs for OutputOnly {
    ghost use Rattle.hir_context.specs.Lookups.{OutStruct};
    ghost use Rattle.hir_ids.specs.declared.ids.TypeId.TheVariants as type;

    ghost struct_of = { λ id. type.OutStruct id };

    ghost type_of_struct = { λ def. Some (OutStruct def) };

    fn link_lifetimes<'def, 'tcx>(
        path: &'def ReturnableStructPath,
        tcx: &'tcx TypeContext,
    ) -> LinkedLifetimes<'def, 'tcx> {
        path.link_lifetimes(tcx)
    }

    fn wrap_struct_def<'tcx>(def: &'tcx StructDef<OutputOnly>) -> Option<TypeDef<'tcx>> {
        Some(TypeDef::OutStruct(def))
    }

    fn resolve_struct(tcx: &TypeContext, id: OutStructId) -> Option<&StructDef<OutputOnly>> {
        Some(tcx.resolve_out_struct(id))
    }

    fn get_fields(def: &StructDef<OutputOnly>) -> &[StructField<OutputOnly>] {
        def.fields.as_slice()
    }
}

impl PositionDefs for CallbackReturn {
    ghost use Rattle.hir_ids.specs.declared.ids.TypeId.TheVariants as type;

    ghost struct_of = { λ id. type.Struct id };

    ghost type_of_struct = { λ _. None };

    fn link_lifetimes<'def, 'tcx>(
        path: &'def StructPath,
        tcx: &'tcx TypeContext,
    ) -> LinkedLifetimes<'def, 'tcx> {
        path.link_lifetimes(tcx)
    }

    fn wrap_struct_def<'tcx>(_def: &'tcx StructDef<CallbackReturn>) -> Option<TypeDef<'tcx>> {
        None
    }

    fn resolve_struct(_tcx: &TypeContext, _id: StructId) -> Option<&StructDef<CallbackReturn>> {
        None
    }

    fn get_fields(def: &StructDef<CallbackReturn>) -> &[StructField<CallbackReturn>] {
        def.fields.as_slice()
    }
}

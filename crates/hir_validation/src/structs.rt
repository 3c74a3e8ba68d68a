//! Structs at themselves: how they are laid out, and their fields.

ghost use Rattle.std.specs.Prelude.{◌≡◌, OnOk};
ghost use Rattle.std.specs.List.{flat_map, list_any};
ghost use Rattle.hir_context.specs.Lookups as defined;
ghost use Rattle.hir_context.specs.Lookups.{defined_at, lent_type};
ghost use Rattle.hir_reports.specs.Store.{added};
ghost use Rattle.hir_validation.specs.Structs.{breaks_layout, field_errors, is_compatible, is_lent_struct, has_broken_layout, keeps_layout, layout_errors, type_errors};
ghost use Rattle.hir_validation.specs.Tests.{is_some_such};
ghost use Rattle.hir_validation.specs.WholeTypes.{whole_type};

use crate::validation::{Validation, definition_of, tell_named};
use crate::visited::is_borrowed;
use crate::whole::{WholeType, whole_type};
use bridge_decl::NoMemory;
use hir_context::TypeContext;
use hir_definitions::{StructDef, StructField, TypeDef};
use hir_ids::TypeId;
use hir_life::Lifetime;
use hir_reports::{ErrorStore, Rule};
use hir_types::{Everywhere, HirType, PositionTypes};
use std::alloc::Global;

/// Whether it is a struct that is marked as laid out as in Rust.
fn is_compatible(def: &TypeDef<'_>) -> bool
    ensures { result ≡ is_compatible (lent_type def.now) }
{
    match def {
        TypeDef::Struct(def) => def.attrs.abi_compatible,
        TypeDef::OutStruct(_) | TypeDef::Opaque(_) | TypeDef::Enum(_) => false,
    }
}

/// The same of what has this id.
fn has_compatible(tcx: &TypeContext, id: &TypeId) -> bool
    ensures { result ≡ is_some_such is_compatible (defined_at tcx.now.definitions id.now) }
{
    match &definition_of(tcx, id) {
        Some(def) => is_compatible(def),
        None => false,
    }
}

/// Whether a struct with a field of this type can be laid out so.
fn keeps_layout<P: PositionTypes>(tcx: &TypeContext, ty: &HirType<P>) -> bool
    ensures { result ≡ keeps_layout tcx.now.definitions
        (whole_type P.OpaqueOwnership.borrow_of P.StructPath.id_of
        P.StructPath.lifetimes_of P.StructPath.held_of P.callback_of ty.now) }
{
    match &whole_type(ty) {
        WholeType::Primitive | WholeType::Enum(_) => true,
        WholeType::Struct(id, _, _) => has_compatible(tcx, id),
        WholeType::Opaque(_, _, _)
        | WholeType::Slice(_)
        | WholeType::Callback(_)
        | WholeType::Other => false,
    }
}

/// Whether there is a field that can't be in such a struct.
fn has_misfit(tcx: &TypeContext, fields: &[StructField<Everywhere>]) -> bool
    ensures { result ≡ list_any (breaks_layout tcx.now.definitions) fields.now }
{
    for field in fields {
        if !keeps_layout(tcx, &field.ty) {
            return true;
        }
    }
    false
}

/// Whether the struct is marked so and can't be.
fn has_broken_layout(tcx: &TypeContext, def: &StructDef<Everywhere>) -> bool
    ensures { result ≡ has_broken_layout tcx.now.definitions def.now }
{
    def.attrs.abi_compatible
        && (def.lifetimes.get_bounds(Lifetime::new(0)).is_some()
            || has_misfit(tcx, def.fields.as_slice()))
}

/// Whether the type is a reference to a struct.
fn is_lent_struct<P: PositionTypes>(ty: &HirType<P>) -> bool
    ensures { result ≡ is_lent_struct
        (whole_type P.OpaqueOwnership.borrow_of P.StructPath.id_of
        P.StructPath.lifetimes_of P.StructPath.held_of P.callback_of ty.now) }
{
    match &whole_type(ty) {
        WholeType::Struct(_, held, _) => is_borrowed(held),
        WholeType::Primitive
        | WholeType::Enum(_)
        | WholeType::Opaque(_, _, _)
        | WholeType::Slice(_)
        | WholeType::Callback(_)
        | WholeType::Other => false,
    }
}

impl Validation<'_> {
    /// Tells that a struct can't be laid out as its mark says, where it can't (rule `AbiLayout`).
    fn tell_layout(
        &self,
        alloc: Global,
        def: &StructDef<Everywhere>,
        errors: &mut ErrorStore<'_>,
    ) -> Result<(), NoMemory>
        ensures { OnOk result (errors.new ≡ added errors.old
            (layout_errors self.now.tcx.now.definitions def.now)) }
    {
        let is_broken = has_broken_layout(self.tcx, def);
        tell_named(alloc, is_broken, Rule::AbiLayout, def.name.as_str(), errors)
    }

    /// Tells of a field: of its type as one that is visited, and that it is a reference to a struct (rule `FieldBorrow`).
    #[tactic(auto, using(hir_reports::proofs::StoreLaws::added_more))]
    fn tell_field(
        &self,
        alloc: Global,
        field: &StructField<Everywhere>,
        errors: &mut ErrorStore<'_>,
    ) -> Result<(), NoMemory>
        ensures { OnOk result (errors.new ≡ added errors.old (field_errors
            self.now.callbacks_must_fail self.now.tcx.now.definitions field.now)) }
    {
        self.tell_visited(alloc, &field.ty, errors)?;
        let is_broken = is_lent_struct(&field.ty);
        tell_named(
            alloc,
            is_broken,
            Rule::FieldBorrow,
            field.name.as_str(),
            errors,
        )
    }

    /// Tells of each field.
    fn tell_fields(
        &self,
        alloc: Global,
        fields: &[StructField<Everywhere>],
        errors: &mut ErrorStore<'_>,
    ) -> Result<(), NoMemory>
        ensures { OnOk result (errors.new ≡ added errors.old (flat_map (field_errors
            self.now.callbacks_must_fail self.now.tcx.now.definitions) fields.now)) }
    {
        for field in fields {
            self.tell_field(alloc, field, errors)?;
        }
        Ok(())
    }

    /// Tells of a struct.
    #[tactic(auto, using(hir_reports::proofs::StoreLaws::added_more), unfolding(crate::specs::Structs::type_errors))]
    fn tell_struct(
        &self,
        alloc: Global,
        def: &StructDef<Everywhere>,
        errors: &mut ErrorStore<'_>,
    ) -> Result<(), NoMemory>
        ensures { OnOk result (errors.new ≡ added errors.old (type_errors
            self.now.callbacks_must_fail self.now.tcx.now.definitions
            (defined.Struct def.now))) }
    {
        self.tell_layout(alloc, def, errors)?;
        self.tell_fields(alloc, def.fields.as_slice(), errors)
    }

    /// Tells of a type what it breaks at itself: how a struct is laid out (rule `AbiLayout`), and of each field what visited types
    /// break and that it is a reference to a struct (`FieldBorrow`). `NoMemory` where there is none for the reports.
    #[tactic(auto, unfolding(crate::specs::Structs::type_errors))]
    pub fn validate_type(
        &self,
        alloc: Global,
        def: &TypeDef<'_>,
        errors: &mut ErrorStore<'_>,
    ) -> Result<(), NoMemory>
        ensures { OnOk result (errors.new ≡ added errors.old (type_errors
            self.now.callbacks_must_fail self.now.tcx.now.definitions (lent_type def.now))) }
    {
        match def {
            TypeDef::Struct(def) => self.tell_struct(alloc, def, errors),
            TypeDef::OutStruct(_) | TypeDef::Opaque(_) | TypeDef::Enum(_) => Ok(()),
        }
    }
}

//! Types that backends visit: those of fields, of parameters and of what is returned, as a whole.

ghost use Rattle.std.specs.Prelude.{◌≡◌, OnOk};
ghost use Rattle.hir_context.specs.Lookups.{Struct, defined_at, lent_type};
ghost use Rattle.hir_mentions.specs.Mentions.{where_any};
ghost use Rattle.hir_reports.specs.Store.{added};
ghost use Rattle.hir_validation.specs.Visited.{held_errors, is_borrowed, is_borrowed_mutably, lent_errors, slice_errors, visited_errors};
ghost use Rattle.hir_validation.specs.WholeTypes.{whole_type};

use crate::validation::{Validation, definition_of, tell_if, tell_named};
use crate::whole::{WholeType, whole_type};
use bridge_decl::{Mutability, NoMemory};
use hir_definitions::{StructDef, TypeDef};
use hir_ids::{MaybeOwn, TypeId};
use hir_reports::{ErrorStore, Rule};
use hir_types::{Everywhere, HirType, PositionTypes};
use std::alloc::Global;

/// Tells of a slice of these: of structs or enums without their mark (rule `AbiUnmarked`), and of structs that only go out
/// (`OutStructSlice`).
fn tell_slice(alloc: Global, def: &TypeDef<'_>, errors: &mut ErrorStore<'_>) -> Result<(), NoMemory>
    ensures { OnOk result
        (errors.new ≡ added errors.old (slice_errors (lent_type def.now))) }
{
    match def {
        TypeDef::Struct(def) => {
            let is_unmarked = !def.attrs.abi_compatible;
            tell_named(
                alloc,
                is_unmarked,
                Rule::AbiUnmarked,
                def.name.as_str(),
                errors,
            )
        }
        TypeDef::Enum(def) => {
            let is_unmarked = !def.attrs.abi_compatible;
            tell_named(
                alloc,
                is_unmarked,
                Rule::AbiUnmarked,
                def.name.as_str(),
                errors,
            )
        }
        TypeDef::OutStruct(_) => tell_if(alloc, true, Rule::OutStructSlice, errors),
        TypeDef::Opaque(_) => Ok(()),
    }
}

/// Whether it is behind a reference.
pub(crate) fn is_borrowed(held: &MaybeOwn) -> bool
    ensures { result ≡ is_borrowed held.now }
{
    match held {
        MaybeOwn::Own => false,
        MaybeOwn::Borrow(_) => true,
    }
}

/// Whether it is behind one that may be written through.
fn is_borrowed_mutably(held: &MaybeOwn) -> bool
    ensures { result ≡ is_borrowed_mutably held.now }
{
    match held {
        MaybeOwn::Own => false,
        MaybeOwn::Borrow(borrow) => match borrow.mutability {
            Mutability::Mutable => true,
            Mutability::Immutable => false,
        },
    }
}

/// Tells of a struct that is held so: that it may be written and isn't marked so (rule `MutStructRef`), and that it is a tuple
/// (`TupleReference`).
#[tactic(auto, using(hir_reports::proofs::StoreLaws::added_more))]
pub(crate) fn tell_struct_held(
    alloc: Global,
    held: &MaybeOwn,
    def: &StructDef<Everywhere>,
    errors: &mut ErrorStore<'_>,
) -> Result<(), NoMemory>
    ensures { OnOk result
        (errors.new ≡ added errors.old (held_errors held.now (Struct def.now))) }
{
    let is_unmarked = is_borrowed_mutably(held) && !def.attrs.mut_struct_ref;
    tell_named(
        alloc,
        is_unmarked,
        Rule::MutStructRef,
        def.name.as_str(),
        errors,
    )?;
    tell_if(alloc, def.attrs.tuple, Rule::TupleReference, errors)
}

/// The same of any type: only structs are held so.
fn tell_held(
    alloc: Global,
    held: &MaybeOwn,
    def: &TypeDef<'_>,
    errors: &mut ErrorStore<'_>,
) -> Result<(), NoMemory>
    ensures { OnOk result
        (errors.new ≡ added errors.old (held_errors held.now (lent_type def.now))) }
{
    match def {
        TypeDef::Struct(def) => tell_struct_held(alloc, held, def, errors),
        TypeDef::OutStruct(_) | TypeDef::Opaque(_) | TypeDef::Enum(_) => Ok(()),
    }
}

impl Validation<'_> {
    /// Tells of a slice of what has this id.
    fn tell_element(
        &self,
        alloc: Global,
        element: &TypeId,
        errors: &mut ErrorStore<'_>,
    ) -> Result<(), NoMemory>
        ensures { OnOk result (errors.new ≡ added errors.old (where_any slice_errors
            (defined_at self.now.tcx.now.definitions element.now))) }
    {
        match &definition_of(self.tcx, element) {
            Some(def) => tell_slice(alloc, def, errors),
            None => Ok(()),
        }
    }

    /// Tells of what has this id and is held so.
    fn tell_defined(
        &self,
        alloc: Global,
        held: &MaybeOwn,
        id: &TypeId,
        errors: &mut ErrorStore<'_>,
    ) -> Result<(), NoMemory>
        ensures { OnOk result (errors.new ≡ added errors.old (where_any (held_errors held.now)
            (defined_at self.now.tcx.now.definitions id.now))) }
    {
        match &definition_of(self.tcx, id) {
            Some(def) => tell_held(alloc, held, def, errors),
            None => Ok(()),
        }
    }

    /// The same, where it is behind a reference.
    fn tell_lent(
        &self,
        alloc: Global,
        held: &MaybeOwn,
        id: &TypeId,
        errors: &mut ErrorStore<'_>,
    ) -> Result<(), NoMemory>
        ensures { OnOk result (errors.new ≡ added errors.old (lent_errors held.now
            (defined_at self.now.tcx.now.definitions id.now))) }
    {
        if is_borrowed(held) {
            return self.tell_defined(alloc, held, id, errors);
        }
        Ok(())
    }

    /// Tells of a type that is visited.
    #[tactic(auto, unfolding(crate::specs::Visited::visited_errors))]
    pub(crate) fn tell_visited<P: PositionTypes>(
        &self,
        alloc: Global,
        ty: &HirType<P>,
        errors: &mut ErrorStore<'_>,
    ) -> Result<(), NoMemory>
        ensures { OnOk result (errors.new ≡ added errors.old (visited_errors
            self.now.callbacks_must_fail self.now.tcx.now.definitions
            (whole_type P.OpaqueOwnership.borrow_of P.StructPath.id_of
            P.StructPath.lifetimes_of P.StructPath.held_of P.callback_of ty.now))) }
    {
        match &whole_type(ty) {
            WholeType::Struct(id, held, _) => self.tell_lent(alloc, held, id, errors),
            WholeType::Slice(Some(element)) => self.tell_element(alloc, element, errors),
            WholeType::Callback(output) => self.tell_callback(alloc, output, errors),
            WholeType::Slice(None)
            | WholeType::Primitive
            | WholeType::Enum(_)
            | WholeType::Opaque(_, _, _)
            | WholeType::Other => Ok(()),
        }
    }
}

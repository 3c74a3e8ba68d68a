//! Bounds that the types of a method imply.

ghost use Rattle.std.specs.Prelude.{◌≡◌, OnOk, option_copied, slice_get};
ghost use Rattle.std.specs.List.{flat_map};
ghost use Rattle.hir_context.specs.Lookups.{environment_at};
ghost use Rattle.hir_life.specs.declared.maybe_static.MaybeStatic.{MaybeStatic};
ghost use Rattle.hir_mentions.specs.Mentions.{where_any};
ghost use Rattle.hir_reports.specs.Store.{added};
ghost use Rattle.hir_types.specs.Named.{contained, if_any};
ghost use Rattle.hir_validation.specs.ImpliedBounds.{behind_errors, definition_errors, implied_errors, method_bound_errors, named_behind_errors, named_written_errors, opaque_bound_errors, param_bound_errors, returned_bound_errors, written_errors, written_longer_errors};
ghost use Rattle.hir_validation.specs.WholeTypes.{whole_type};

use crate::direct::DirectBounds;
use crate::shorter::{Shorter, shorter_of};
use crate::whole::{WholeType, whole_type};
use bridge_decl::{NoMemory, Text};
use hir_context::TypeContext;
use hir_definitions::{Method, Param};
use hir_ids::{OpaqueId, TypeId};
use hir_life::{BoundedLifetime, Lifetime, LifetimeEnv, MaybeStatic};
use hir_reports::ErrorStore;
use hir_types::{HirType, OutType, OutputOnly, PositionTypes, ReturnType};
use std::alloc::Global;

/// The lifetimes of a definition, where the type has them.
fn environment_of<'tcx>(tcx: &'tcx TypeContext, id: &TypeId) -> Option<&'tcx LifetimeEnv>
    ensures { option_copied result ≡ environment_at tcx.now.definitions id.now }
{
    match id {
        TypeId::Struct(id) => match tcx.structs().get(id.index()) {
            Some(def) => Some(&def.lifetimes),
            None => None,
        },
        TypeId::OutStruct(id) => match tcx.out_structs().get(id.index()) {
            Some(def) => Some(&def.lifetimes),
            None => None,
        },
        TypeId::Opaque(id) => match tcx.opaques().get(id.index()) {
            Some(def) => Some(&def.lifetimes),
            None => None,
        },
        TypeId::Enum(_) => None,
    }
}

/// A definition whose lifetimes are given, where a type of a method names it.
#[derive(Drop)]
struct Given<'m> {
    direct: &'m DirectBounds<'m>,
    source: &'m str,
    definition: &'m LifetimeEnv,
    given: &'m [MaybeStatic<Lifetime>],
}

impl Given<'_> {
    /// The lifetime that stands for that of this number.
    fn standing_for(&self, number: usize) -> Option<&MaybeStatic<Lifetime>>
        ensures { option_copied result ≡ slice_get self.now.given.now number }
    {
        self.given.get(number)
    }

    /// Tells of one that is written to outlive another.
    fn tell_longer(
        &self,
        alloc: Global,
        shorter: &Shorter<'_>,
        written: &BoundedLifetime,
        number: &Lifetime,
        errors: &mut ErrorStore<'_>,
    ) -> Result<(), NoMemory>
        ensures { OnOk result (errors.new ≡ added errors.old (written_longer_errors
            shorter.now.env shorter.now.source self.now.definition.now self.now.given.now
            written.now shorter.now.number shorter.now.bounds number.now)) }
    {
        match self.definition.get_bounds(*number) {
            Some(longer) => match self.standing_for(number.index()) {
                Some(lifetime) => shorter.tell_written(alloc, longer, written, lifetime, errors),
                None => Ok(()),
            },
            None => Ok(()),
        }
    }

    /// Tells of all that are.
    fn tell_all_longer(
        &self,
        alloc: Global,
        shorter: &Shorter<'_>,
        written: &BoundedLifetime,
        errors: &mut ErrorStore<'_>,
    ) -> Result<(), NoMemory>
        ensures { OnOk result (errors.new ≡ added errors.old (flat_map (written_longer_errors
            shorter.now.env shorter.now.source self.now.definition.now self.now.given.now
            written.now shorter.now.number shorter.now.bounds) written.now.longer)) }
    {
        for number in written.longer.as_slice() {
            self.tell_longer(alloc, shorter, written, number, errors)?;
        }
        Ok(())
    }

    /// Tells of what has to outlive the lifetime that stands for one of the definition's.
    fn tell_named(
        &self,
        alloc: Global,
        written: &BoundedLifetime,
        lifetime: Lifetime,
        errors: &mut ErrorStore<'_>,
    ) -> Result<(), NoMemory>
        ensures { OnOk result (errors.new ≡ added errors.old (named_written_errors
            self.now.direct.now self.now.source.now self.now.definition.now self.now.given.now
            written.now lifetime)) }
    {
        match shorter_of(self.direct, self.source, lifetime) {
            Some(shorter) => self.tell_all_longer(alloc, &shorter, written, errors),
            None => Ok(()),
        }
    }

    /// Tells of a lifetime of the definition, by its number.
    fn tell_written(
        &self,
        alloc: Global,
        number: usize,
        written: &BoundedLifetime,
        errors: &mut ErrorStore<'_>,
    ) -> Result<(), NoMemory>
        ensures { OnOk result (errors.new ≡ added errors.old (written_errors self.now.direct.now
            self.now.source.now self.now.definition.now self.now.given.now
            (number, written.now))) }
    {
        match self.standing_for(number) {
            Some(MaybeStatic::NonStatic(lifetime)) => {
                self.tell_named(alloc, written, *lifetime, errors)
            }
            Some(MaybeStatic::Static) | None => Ok(()),
        }
    }

    /// The same, where there is one.
    fn tell_number(
        &self,
        alloc: Global,
        number: usize,
        errors: &mut ErrorStore<'_>,
    ) -> Result<(), NoMemory>
        ensures { OnOk result (errors.new ≡ added errors.old (where_any (λ written.
            written_errors self.now.direct.now self.now.source.now self.now.definition.now
            self.now.given.now (number, written))
            (slice_get self.now.definition.now.bounds number))) }
    {
        match self.definition.get_bounds(Lifetime::new(number)) {
            Some(written) => self.tell_written(alloc, number, written, errors),
            None => Ok(()),
        }
    }

    /// Tells of all that the definition writes.
    fn tell_all(&self, alloc: Global, errors: &mut ErrorStore<'_>) -> Result<(), NoMemory>
        ensures { OnOk result (errors.new ≡ added errors.old (definition_errors
            self.now.direct.now self.now.source.now self.now.given.now
            self.now.definition.now)) }
    {
        for number in 0..self.definition.num_lifetimes() {
            self.tell_number(alloc, number, errors)?;
        }
        Ok(())
    }
}

/// A type of a method: its lifetimes, and where it stands.
#[derive(Clone, Copy)]
struct Where<'m> {
    direct: &'m DirectBounds<'m>,
    source: &'m str,
}

/// Tells of the bounds that a definition writes, where its lifetimes are given.
fn tell_definition(
    alloc: Global,
    tcx: &TypeContext,
    at: &Where<'_>,
    id: &TypeId,
    given: &[MaybeStatic<Lifetime>],
    errors: &mut ErrorStore<'_>,
) -> Result<(), NoMemory>
    ensures { OnOk result (errors.new ≡ added errors.old (where_any
        (definition_errors at.now.direct.now at.now.source.now given.now)
        (environment_at tcx.now.definitions id.now))) }
{
    match environment_of(tcx, id) {
        Some(definition) => {
            let all = Given {
                direct: at.direct,
                source: at.source,
                definition,
                given,
            };
            all.tell_all(alloc, errors)
        }
        None => Ok(()),
    }
}

/// Tells of what has to outlive a reference of that lifetime.
fn tell_behind(
    alloc: Global,
    at: &Where<'_>,
    borrow: Lifetime,
    given: &[MaybeStatic<Lifetime>],
    errors: &mut ErrorStore<'_>,
) -> Result<(), NoMemory>
    ensures { OnOk result (errors.new ≡ added errors.old
        (named_behind_errors at.now.direct.now at.now.source.now given.now borrow)) }
{
    match shorter_of(at.direct, at.source, borrow) {
        Some(shorter) => shorter.tell_each_behind(alloc, given, errors),
        None => Ok(()),
    }
}

/// The same of an opaque, where it is behind one.
fn tell_borrow(
    alloc: Global,
    at: &Where<'_>,
    borrow: &Option<MaybeStatic<Lifetime>>,
    given: &[MaybeStatic<Lifetime>],
    errors: &mut ErrorStore<'_>,
) -> Result<(), NoMemory>
    ensures { OnOk result (errors.new ≡ added errors.old
        (where_any (behind_errors at.now.direct.now at.now.source.now given.now) borrow.now)) }
{
    match borrow {
        Some(MaybeStatic::NonStatic(borrow)) => tell_behind(alloc, at, *borrow, given, errors),
        Some(MaybeStatic::Static) | None => Ok(()),
    }
}

/// Tells of an opaque.
#[tactic(auto, using(hir_reports::proofs::StoreLaws::added_more))]
fn tell_opaque(
    alloc: Global,
    tcx: &TypeContext,
    at: &Where<'_>,
    id: OpaqueId,
    borrow: &Option<MaybeStatic<Lifetime>>,
    given: &[MaybeStatic<Lifetime>],
    errors: &mut ErrorStore<'_>,
) -> Result<(), NoMemory>
    ensures { OnOk result (errors.new ≡ added errors.old (opaque_bound_errors at.now.direct.now
        at.now.source.now tcx.now.definitions id borrow.now given.now)) }
{
    tell_definition(alloc, tcx, at, &TypeId::Opaque(id), given, errors)?;
    tell_borrow(alloc, at, borrow, given, errors)
}

/// Tells of a type of a method: of the bounds that its definition writes, and of those that a reference implies.
#[tactic(auto, unfolding(crate::specs::ImpliedBounds::implied_errors))]
fn tell_implied<P: PositionTypes>(
    alloc: Global,
    tcx: &TypeContext,
    at: &Where<'_>,
    ty: &HirType<P>,
    errors: &mut ErrorStore<'_>,
) -> Result<(), NoMemory>
    ensures { OnOk result (errors.new ≡ added errors.old (implied_errors at.now.direct.now
        at.now.source.now tcx.now.definitions (whole_type P.OpaqueOwnership.borrow_of
        P.StructPath.id_of P.StructPath.lifetimes_of P.StructPath.held_of P.callback_of ty.now))) }
{
    match &whole_type(ty) {
        WholeType::Opaque(id, borrow, given) => {
            tell_opaque(alloc, tcx, at, *id, borrow, given, errors)
        }
        WholeType::Struct(id, _, given) => tell_definition(alloc, tcx, at, id, given, errors),
        WholeType::Primitive
        | WholeType::Enum(_)
        | WholeType::Slice(_)
        | WholeType::Callback(_)
        | WholeType::Other => Ok(()),
    }
}

/// Tells of a parameter.
fn tell_param(
    alloc: Global,
    tcx: &TypeContext,
    direct: &DirectBounds<'_>,
    param: &Param,
    errors: &mut ErrorStore<'_>,
) -> Result<(), NoMemory>
    ensures { OnOk result (errors.new ≡ added errors.old
        (param_bound_errors tcx.now.definitions direct.now param.now)) }
{
    let name = param.name.as_str();
    let source = Text::from(format!(in alloc; "param {name}")?);
    let at = Where {
        direct,
        source: source.as_str(),
    };
    tell_implied(alloc, tcx, &at, &param.ty, errors)
}

/// Tells of each parameter.
fn tell_params(
    alloc: Global,
    tcx: &TypeContext,
    direct: &DirectBounds<'_>,
    params: &[Param],
    errors: &mut ErrorStore<'_>,
) -> Result<(), NoMemory>
    ensures { OnOk result (errors.new ≡ added errors.old
        (flat_map (param_bound_errors tcx.now.definitions direct.now) params.now)) }
{
    for param in params {
        tell_param(alloc, tcx, direct, param, errors)?;
    }
    Ok(())
}

/// Tells of a type that is returned, where there is one.
fn tell_returned(
    alloc: Global,
    tcx: &TypeContext,
    direct: &DirectBounds<'_>,
    ty: Option<&OutType>,
    errors: &mut ErrorStore<'_>,
) -> Result<(), NoMemory>
    ensures { OnOk result (errors.new ≡ added errors.old
        (flat_map (returned_bound_errors tcx.now.definitions direct.now)
        (if_any (option_copied ty.entry)))) }
{
    match ty {
        Some(ty) => {
            let at = Where {
                direct,
                source: "return type",
            };
            tell_implied(alloc, tcx, &at, ty, errors)
        }
        None => Ok(()),
    }
}

/// Tells of the types that are returned.
fn tell_output(
    alloc: Global,
    tcx: &TypeContext,
    direct: &DirectBounds<'_>,
    output: &ReturnType<OutputOnly>,
    errors: &mut ErrorStore<'_>,
) -> Result<(), NoMemory>
    ensures { OnOk result (errors.new ≡ added errors.old
        (flat_map (returned_bound_errors tcx.now.definitions direct.now) (contained output.now))) }
{
    tell_returned(alloc, tcx, direct, output.success_type().as_type(), errors)?;
    tell_returned(alloc, tcx, direct, output.error_type(), errors)
}

/// Tells of the bounds that the types of a method of a type imply, and that it doesn't declare.
#[tactic(auto, using(hir_reports::proofs::StoreLaws::added_more), unfolding(crate::specs::ImpliedBounds::method_bound_errors))]
pub(crate) fn tell_bounds(
    alloc: Global,
    tcx: &TypeContext,
    method: &Method,
    errors: &mut ErrorStore<'_>,
) -> Result<(), NoMemory>
    ensures { OnOk result (errors.new
        ≡ added errors.old (method_bound_errors tcx.now.definitions method.now)) }
{
    let direct = DirectBounds::of(alloc, &method.lifetime_env)?;
    tell_params(alloc, tcx, &direct, method.params.as_slice(), errors)?;
    tell_output(alloc, tcx, &direct, &method.output, errors)
}

//! The walk over structs, from field to field.

ghost use Rattle.std.specs.Prelude.{◌≡◌, ◌<◌, [], length, map, Some, IsTrue, OnOk};
ghost use Rattle.std.specs.List.{All};
ghost use Rattle.hir_ids.specs.declared.ids.TypeId.{TypeId};
ghost use Rattle.hir_ids.specs.declared.ids.TypeId.TheVariants as type;
ghost use Rattle.hir_life.specs.Substitution.{AreBelow, subst_each};
ghost use Rattle.hir_skeleton.specs.Skeletons.{Struct};
ghost use Rattle.hir_skeleton.specs.Lowered.{carrier_of, field_skeleton};
ghost use Rattle.hir_borrowing_fields.specs.inside.InputFits.{SkeletonFits, TakesSoMany};
ghost use Rattle.hir_borrowing_fields.specs.inside.Findings.{FindsMore};
ghost use Rattle.hir_borrowing_fields.specs.inside.Places.{IsPlaceIn, steps_at, steps_to};
ghost use Rattle.hir_borrowing_fields.specs.inside.TypeParts.{carrier_lifetimes, part_skeleton};
ghost use Rattle.hir_borrowing_fields.specs.inside.Walks.{AreBare, GoesOn, IsBare, behind, leaves_from, leaves_of_type, named_field, named_fields_in, walked_struct, walked_type};

use crate::carried::{carried_under, carrier_lifetimes};
use crate::found::FoundLeaves;
use crate::parts::{TypePart, type_part};
use crate::places::Place;
use bridge_decl::NoMemory;
use hir_context::TypeContext;
use hir_definitions::StructField;
use hir_life::{Lifetime, Lifetimes, MaybeStatic};
use hir_types::{Everywhere, StructPath};
use std::alloc::Global;
use std::collections::BTreeSet;

/// Visits of structs: the place of each struct, and how many levels are looked into.
type Visits = BTreeSet<(usize, usize)>;

/// A walk on its way.
#[derive(Drop)]
pub(crate) struct LeafWalk<'m> {
    /// What was found.
    pub(crate) found: FoundLeaves<'m>,
    /// Visits that are known to find nothing, so that none is made twice.
    pub(crate) bare: Visits,
}

/// Whether a visit is known to find nothing.
fn is_bare(tcx: &TypeContext, bare: &Visits, visit: (usize, usize)) -> bool
    requires { AreBare tcx.now.definitions bare.now }
    ensures { IsTrue result → IsBare tcx.now.definitions visit }
{
    bare.contains(&visit)
}

/// Notes that a visit finds nothing.
fn note_bare(tcx: &TypeContext, bare: &mut Visits, visit: (usize, usize)) -> Result<(), NoMemory>
    requires known { AreBare tcx.now.definitions bare.old }
    requires bare { IsBare tcx.now.definitions visit }
    ensures { OnOk result (AreBare tcx.now.definitions bare.new) }
{
    bare.insert(visit)?;
    Ok(())
}

/// Adds the leaf of a carrier of these lifetimes. Without any it isn't one.
fn add_leaf<'m>(
    alloc: Global,
    found: &mut FoundLeaves<'m>,
    place: &Place<'m>,
    lifetimes: &Lifetimes,
    args: &Lifetimes,
) -> Result<(), NoMemory>
    requires within { IsPlaceIn found.old.places place.now.parent }
    requires below { AreBelow (length args.now) lifetimes.now }
    ensures { OnOk result (FindsMore found.old found.new (map (behind
        (steps_to found.old.places place.now))
        (leaves_of_type {K = TypeId} (λ _ _. []) args.now (carrier_of lifetimes.now)))) }
{
    if lifetimes.len() == 0 {
        return Ok(());
    }
    let carried = carried_under(alloc, lifetimes, args)?;
    found.add_leaf(place, carried)
}

/// Adds the leaf of a carrier with its own lifetime, that of its elements, and those that these
/// give their definition.
fn add_carrier<'m>(
    alloc: Global,
    found: &mut FoundLeaves<'m>,
    place: &Place<'m>,
    own: Option<MaybeStatic<Lifetime>>,
    element: Option<MaybeStatic<Lifetime>>,
    given: &[MaybeStatic<Lifetime>],
    args: &Lifetimes,
) -> Result<(), NoMemory>
    requires within { IsPlaceIn found.old.places place.now.parent }
    requires below { AreBelow (length args.now) (carrier_lifetimes own element given.now) }
    ensures { OnOk result (FindsMore found.old found.new (map (behind
        (steps_to found.old.places place.now))
        (leaves_of_type {K = TypeId} (λ _ _. []) args.now
        (carrier_of (carrier_lifetimes own element given.now))))) }
{
    let lifetimes = carrier_lifetimes(alloc, own, element, given)?;
    add_leaf(alloc, found, place, &lifetimes, args)
}

/// Adds the leaves of a part of a type at a place, under arguments, so many levels deep.
#[cycle(leaves)]
pub(crate) fn add_part<'m>(
    alloc: Global,
    tcx: &'m TypeContext,
    walk: &mut LeafWalk<'m>,
    place: &Place<'m>,
    part: &TypePart<'m>,
    args: &Lifetimes,
    levels: usize,
) -> Result<(), NoMemory>
    requires within { IsPlaceIn walk.old.found.places place.now.parent }
    requires fits { SkeletonFits tcx.now.definitions (length args.now) (part_skeleton part.now) }
    requires bare { AreBare tcx.now.definitions walk.old.bare }
    ensures { OnOk result (GoesOn tcx.now.definitions walk.old walk.new (map (behind
        (steps_to walk.old.found.places place.now))
        (walked_type tcx.now.definitions levels args.now (part_skeleton part.now)))) }
{
    match part {
        TypePart::Nothing => Ok(()),
        TypePart::Carrier(own, element, given) => add_carrier(
            alloc,
            &mut walk.found,
            place,
            *own,
            *element,
            given,
            args,
        ),
        TypePart::Struct(path) => add_struct(alloc, tcx, walk, place, path, args, levels),
    }
}

/// Adds the leaves of a struct at a place, unless it is known that there are none.
#[cycle(leaves)]
fn add_struct<'m>(
    alloc: Global,
    tcx: &'m TypeContext,
    walk: &mut LeafWalk<'m>,
    place: &Place<'m>,
    path: &'m StructPath,
    args: &Lifetimes,
    levels: usize,
) -> Result<(), NoMemory>
    requires within { IsPlaceIn walk.old.found.places place.now.parent }
    requires fits { SkeletonFits tcx.now.definitions (length args.now)
        (Struct (type.Struct path.now.tcx_id) path.now.lifetimes) }
    requires bare { AreBare tcx.now.definitions walk.old.bare }
    ensures { OnOk result (GoesOn tcx.now.definitions walk.old walk.new (map (behind
        (steps_to walk.old.found.places place.now))
        (walked_struct tcx.now.definitions levels (type.Struct path.now.tcx_id)
        (subst_each path.now.lifetimes args.now)))) }
{
    if is_bare(tcx, &walk.bare, (path.tcx_id.index(), levels)) {
        return Ok(());
    }
    let given = path.lifetimes.as_method_lifetimes(alloc, args)?;
    add_struct_given(alloc, tcx, walk, place, path, &given, levels)
}

/// Adds the leaves of a struct at a place, where these stand for its lifetimes.
#[cycle(leaves)]
fn add_struct_given<'m>(
    alloc: Global,
    tcx: &'m TypeContext,
    walk: &mut LeafWalk<'m>,
    place: &Place<'m>,
    path: &'m StructPath,
    args: &Lifetimes,
    levels: usize,
) -> Result<(), NoMemory>
    requires within { IsPlaceIn walk.old.found.places place.now.parent }
    requires takes { TakesSoMany tcx.now.definitions (type.Struct path.now.tcx_id)
        (length args.now) }
    requires bare { AreBare tcx.now.definitions walk.old.bare }
    ensures { OnOk result (GoesOn tcx.now.definitions walk.old walk.new (map (behind
        (steps_to walk.old.found.places place.now))
        (walked_struct tcx.now.definitions levels (type.Struct path.now.tcx_id) args.now))) }
{
    if levels == 0 {
        return Ok(());
    }
    let before = walk.found.len();
    let at = walk.found.add_place(place)?;
    add_fields_of(alloc, tcx, walk, at, path, args, levels - 1)?;
    if walk.found.len() > before {
        return Ok(());
    }
    note_bare(tcx, &mut walk.bare, (path.tcx_id.index(), levels))?;
    Ok(())
}

/// Adds the leaves of the fields of a struct behind a place. One that is disabled has none.
#[cycle(leaves)]
fn add_fields_of<'m>(
    alloc: Global,
    tcx: &'m TypeContext,
    walk: &mut LeafWalk<'m>,
    at: usize,
    path: &'m StructPath,
    args: &Lifetimes,
    levels: usize,
) -> Result<(), NoMemory>
    requires within { at < length walk.old.found.places }
    requires takes { TakesSoMany tcx.now.definitions (type.Struct path.now.tcx_id)
        (length args.now) }
    requires bare { AreBare tcx.now.definitions walk.old.bare }
    ensures { OnOk result (GoesOn tcx.now.definitions walk.old walk.new (map (behind
        (steps_at walk.old.found.places (Some at)))
        (leaves_from 0 (walked_type tcx.now.definitions levels args.now)
        (named_fields_in tcx.now.definitions (type.Struct path.now.tcx_id))))) }
{
    let def = tcx.resolve_struct(path.tcx_id);
    if def.attrs.disable {
        return Ok(());
    }
    add_fields(alloc, tcx, walk, at, def.fields.as_slice(), args, levels)
}

/// Adds the leaves of fields behind a place.
#[cycle(leaves)]
fn add_fields<'m>(
    alloc: Global,
    tcx: &'m TypeContext,
    walk: &mut LeafWalk<'m>,
    at: usize,
    fields: &'m [StructField<Everywhere>],
    args: &Lifetimes,
    levels: usize,
) -> Result<(), NoMemory>
    requires within { at < length walk.old.found.places }
    requires fit { All (λ f. SkeletonFits tcx.now.definitions (length args.now)
        (field_skeleton f.ty)) fields.now }
    requires bare { AreBare tcx.now.definitions walk.old.bare }
    ensures { OnOk result (GoesOn tcx.now.definitions walk.old walk.new (map (behind
        (steps_at walk.old.found.places (Some at)))
        (leaves_from 0 (walked_type tcx.now.definitions levels args.now)
        (map named_field fields.now)))) }
{
    for (number, field) in fields.iter().enumerate() {
        let place = Place {
            parent: Some(at),
            number,
            name: &field.name,
        };
        add_part(
            alloc,
            tcx,
            walk,
            &place,
            &type_part(&field.ty),
            args,
            levels,
        )?;
    }
    Ok(())
}

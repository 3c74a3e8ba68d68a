//! The search for the lifetimes of slices.
//!
//! Of each struct there is one set: its own lifetimes that slices in it have. It is found once,
//! from the sets of the structs in its fields, however often the struct stands in others.

ghost use Rattle.std.specs.Prelude.{◌≡◌, ◌≤◌, ℕ, ◌||◌, [], IsSome, IfOk, OnOk};
ghost use Rattle.std.specs.List.{All, list_any};
ghost use Rattle.std.specs.Ordering.{nat_cmp};
ghost use Rattle.std.specs.BTreeMap as by_key;
ghost use Rattle.hir_ids.specs.declared.ids.TypeId.TheVariants as type;
ghost use Rattle.hir_types.specs.Slices.{at_most_one};
ghost use Rattle.hir_skeleton.specs.Leaves.{number_passes, through};
ghost use Rattle.hir_skeleton.specs.Skeletons.{Struct};
ghost use Rattle.hir_borrowing_params.specs.Edges.{is_in};
ghost use Rattle.hir_borrowing_params.specs.Slices.{field_slices};
ghost use Rattle.hir_borrowing_params.specs.inside.Searching.{AreKnown, AreSlicesOf, NestsAt, is_number, part_slices, slice_passes};

use crate::slices::{SlicePart, fields_of, slice_part};
use bridge_decl::NoMemory;
use hir_context::TypeContext;
use hir_definitions::StructField;
use hir_ids::StructId;
use hir_life::{Lifetime, MaybeStatic};
use hir_types::{Everywhere, StructPath};
use std::alloc::Global;
use std::collections::{BTreeMap, BTreeSet};

/// The lifetimes of structs that slices in them have, by the places of the structs.
pub(crate) type KnownSlices = BTreeMap<usize, BTreeSet<Lifetime>>;

/// Adds the lifetime, where it is a number.
fn add_number(
    set: &mut BTreeSet<Lifetime>,
    lifetime: &MaybeStatic<Lifetime>,
) -> Result<(), NoMemory>
    ensures { OnOk result ((d : ℕ) → is_in set.new d
        ≡ (is_in set.old d || number_passes (is_number d) lifetime.now)) }
{
    match lifetime {
        MaybeStatic::Static => Ok(()),
        MaybeStatic::NonStatic(lifetime) => {
            set.insert(*lifetime)?;
            Ok(())
        }
    }
}

/// Adds the lifetime, where there is one and it is a number.
fn add_any(
    set: &mut BTreeSet<Lifetime>,
    lifetime: &Option<MaybeStatic<Lifetime>>,
) -> Result<(), NoMemory>
    ensures { OnOk result ((d : ℕ) → is_in set.new d ≡ (is_in set.old d
        || list_any (number_passes (is_number d)) (at_most_one lifetime.now))) }
{
    match lifetime {
        Some(lifetime) => add_number(set, lifetime),
        None => Ok(()),
    }
}

/// Adds the argument that stands for a lifetime of a struct.
fn add_argument(
    set: &mut BTreeSet<Lifetime>,
    args: &[MaybeStatic<Lifetime>],
    lifetime: Lifetime,
) -> Result<(), NoMemory>
    ensures { OnOk result ((d : ℕ) → is_in set.new d
        ≡ (is_in set.old d || through (is_number d) args.now lifetime)) }
{
    match args.get(lifetime.index()) {
        Some(arg) => add_number(set, arg),
        None => Ok(()),
    }
}

/// Adds the arguments that stand for lifetimes of a struct.
fn add_arguments(
    set: &mut BTreeSet<Lifetime>,
    args: &[MaybeStatic<Lifetime>],
    own: &BTreeSet<Lifetime>,
) -> Result<(), NoMemory>
    ensures { OnOk result ((d : ℕ) → is_in set.new d
        ≡ (is_in set.old d || list_any (through (is_number d) args.now) own.now.keys)) }
{
    for lifetime in own.iter() {
        add_argument(set, args, *lifetime)?;
    }
    Ok(())
}

/// Adds the lifetimes of slices in a struct that is known.
fn add_known(
    tcx: &TypeContext,
    known: &KnownSlices,
    set: &mut BTreeSet<Lifetime>,
    path: &StructPath,
) -> Result<(), NoMemory>
    requires known { AreKnown tcx.now.definitions known.now }
    requires there { IsSome (by_key.get nat_cmp known.now path.now.tcx_id) }
    ensures { OnOk result ((d : ℕ) → is_in set.new d ≡ (is_in set.old d
        || slice_passes tcx.now.definitions (is_number d)
        (Struct (type.Struct path.now.tcx_id) path.now.lifetimes))) }
{
    match known.get(&path.tcx_id.index()) {
        Some(own) => add_arguments(set, path.lifetimes.as_slice(), own),
        None => unreachable!(),
    }
}

/// Notes what was found of a struct.
fn note(
    tcx: &TypeContext,
    known: &mut KnownSlices,
    id: StructId,
    own: BTreeSet<Lifetime>,
) -> Result<(), NoMemory>
    requires known { AreKnown tcx.now.definitions known.old }
    requires right { AreSlicesOf tcx.now.definitions id own }
    ensures known { OnOk result (AreKnown tcx.now.definitions known.new) }
    ensures there { OnOk result (IsSome (by_key.get nat_cmp known.new id)) }
{
    known.insert(id.index(), own)?;
    Ok(())
}

/// Adds the lifetimes of slices in a part of a type.
#[cycle(slices)]
pub(crate) fn add_slices(
    alloc: Global,
    tcx: &TypeContext,
    known: &mut KnownSlices,
    set: &mut BTreeSet<Lifetime>,
    part: &SlicePart<'_>,
    levels: usize,
) -> Result<(), NoMemory>
    requires few { levels ≤ 256 }
    requires known { AreKnown tcx.now.definitions known.old }
    requires nests { NestsAt tcx.now.definitions levels (part_slices part.now) }
    ensures known { OnOk result (AreKnown tcx.now.definitions known.new) }
    ensures found { OnOk result ((d : ℕ) → is_in set.new d ≡ (is_in set.old d
        || slice_passes tcx.now.definitions (is_number d) (part_slices part.now))) }
{
    match part {
        SlicePart::Slice(lifetime) => add_any(set, lifetime),
        SlicePart::Struct(path) => add_struct(alloc, tcx, known, set, path, levels),
    }
}

/// Adds the lifetimes of slices in a struct.
#[cycle(slices)]
fn add_struct(
    alloc: Global,
    tcx: &TypeContext,
    known: &mut KnownSlices,
    set: &mut BTreeSet<Lifetime>,
    path: &StructPath,
    levels: usize,
) -> Result<(), NoMemory>
    requires few { levels ≤ 256 }
    requires known { AreKnown tcx.now.definitions known.old }
    requires nests { NestsAt tcx.now.definitions levels
        (Struct (type.Struct path.now.tcx_id) path.now.lifetimes) }
    ensures known { OnOk result (AreKnown tcx.now.definitions known.new) }
    ensures found { OnOk result ((d : ℕ) → is_in set.new d ≡ (is_in set.old d
        || slice_passes tcx.now.definitions (is_number d)
        (Struct (type.Struct path.now.tcx_id) path.now.lifetimes))) }
{
    know_struct(alloc, tcx, known, path.tcx_id, levels)?;
    add_known(tcx, known, set, path)
}

/// Finds the lifetimes of a struct that slices in it have, unless they are known.
#[cycle(slices)]
fn know_struct(
    alloc: Global,
    tcx: &TypeContext,
    known: &mut KnownSlices,
    id: StructId,
    levels: usize,
) -> Result<(), NoMemory>
    requires few { levels ≤ 256 }
    requires known { AreKnown tcx.now.definitions known.old }
    requires nests { NestsAt tcx.now.definitions levels (Struct (type.Struct id) []) }
    ensures known { OnOk result (AreKnown tcx.now.definitions known.new) }
    ensures there { OnOk result (IsSome (by_key.get nat_cmp known.new id)) }
{
    if known.contains_key(&id.index()) {
        return Ok(());
    }
    let own = slices_of_struct(alloc, tcx, known, id, levels)?;
    note(tcx, known, id, own)
}

/// The lifetimes of a struct that slices in it have.
#[cycle(slices)]
fn slices_of_struct(
    alloc: Global,
    tcx: &TypeContext,
    known: &mut KnownSlices,
    id: StructId,
    levels: usize,
) -> Result<BTreeSet<Lifetime>, NoMemory>
    requires few { levels ≤ 256 }
    requires known { AreKnown tcx.now.definitions known.old }
    requires nests { NestsAt tcx.now.definitions levels (Struct (type.Struct id) []) }
    ensures known { OnOk result (AreKnown tcx.now.definitions known.new) }
    ensures found { IfOk result (AreSlicesOf tcx.now.definitions id) }
{
    let mut own = BTreeSet::new(alloc);
    if levels == 0 {
        return Ok(own);
    }
    add_fields(alloc, tcx, known, &mut own, fields_of(tcx, id), levels - 1)?;
    Ok(own)
}

/// Adds the lifetimes of slices in fields.
#[cycle(slices)]
fn add_fields(
    alloc: Global,
    tcx: &TypeContext,
    known: &mut KnownSlices,
    set: &mut BTreeSet<Lifetime>,
    fields: &[StructField<Everywhere>],
    levels: usize,
) -> Result<(), NoMemory>
    requires few { levels ≤ 256 }
    requires known { AreKnown tcx.now.definitions known.old }
    requires nest { All (λ field. NestsAt tcx.now.definitions levels (field_slices field.ty))
        fields.now }
    ensures known { OnOk result (AreKnown tcx.now.definitions known.new) }
    ensures found { OnOk result ((d : ℕ) → is_in set.new d ≡ (is_in set.old d
        || list_any (λ field. slice_passes tcx.now.definitions (is_number d)
        (field_slices field.ty)) fields.now)) }
{
    for field in fields {
        add_slices(alloc, tcx, known, set, &slice_part(&field.ty), levels)?;
    }
    Ok(())
}

//! Which lifetimes are kept where slices are included.

ghost use Rattle.std.specs.Prelude.{◌≡◌, ◌<◌, ◌↔◌, ◌⊎◌, ℕ, [], ◌∷◌, ◌&&◌, ◌||◌, IsTrue, length, nat_lt, option_copied, IfOk, OnOk};
ghost use Rattle.std.specs.List.{All, Contains, list_any};
ghost use Rattle.hir_mentions.specs.Mentions.{where_any};
ghost use Rattle.hir_context.specs.Fitness.{MethodFits};
ghost use Rattle.hir_borrowing_params.specs.Edges.{is_in};
ghost use Rattle.hir_borrowing_params.specs.Slices.{IsKept, NamesSlice, param_slices, receiver_slices, slice_inputs};
ghost use Rattle.hir_borrowing_params.specs.inside.Searching.{AreKnown, is_number, path_slices, slice_passes};

use crate::searching::{KnownSlices, add_slices};
use crate::slices::{SlicePart, slice_part};
use bridge_decl::NoMemory;
use hir_context::TypeContext;
use hir_definitions::{Method, Param, ParamSelf};
use hir_life::{Lifetime, LifetimeEnv};
use hir_types::{SelfType, StructPath};
use std::alloc::Global;
use std::collections::{BTreeMap, BTreeSet};

/// How deep structs nest at most.
const MOST_LEVELS: usize = 256;

/// The struct that a receiver is, where it is one.
fn struct_in(ty: &SelfType) -> Option<&StructPath>
    ensures { receiver_slices ty.now ≡ path_slices (option_copied result) }
{
    match ty {
        SelfType::Struct(path) => Some(path),
        SelfType::Opaque(_) | SelfType::Enum(_) => None,
    }
}

/// Adds the lifetimes of slices in a receiver of this type.
fn add_self(
    alloc: Global,
    tcx: &TypeContext,
    known: &mut KnownSlices,
    set: &mut BTreeSet<Lifetime>,
    ty: &SelfType,
) -> Result<(), NoMemory>
    requires { AreKnown tcx.now.definitions known.old }
    ensures known { OnOk result (AreKnown tcx.now.definitions known.new) }
    ensures found { OnOk result ((d : ℕ) → is_in set.new d ≡ (is_in set.old d
        || slice_passes tcx.now.definitions (is_number d) (receiver_slices ty.now))) }
{
    match struct_in(ty) {
        Some(path) => {
            let part = SlicePart::Struct(path);
            add_slices(alloc, tcx, known, set, &part, MOST_LEVELS)
        }
        None => Ok(()),
    }
}

/// Adds the lifetimes of slices in a receiver, where there is one.
fn add_receiver(
    alloc: Global,
    tcx: &TypeContext,
    known: &mut KnownSlices,
    set: &mut BTreeSet<Lifetime>,
    receiver: &Option<ParamSelf>,
) -> Result<(), NoMemory>
    requires { AreKnown tcx.now.definitions known.old }
    ensures known { OnOk result (AreKnown tcx.now.definitions known.new) }
    ensures found { OnOk result ((d : ℕ) → is_in set.new d ≡ (is_in set.old d
        || list_any (slice_passes tcx.now.definitions (is_number d))
        (where_any (λ r. receiver_slices r.ty ∷ []) receiver.now))) }
{
    match receiver {
        Some(receiver) => add_self(alloc, tcx, known, set, &receiver.ty),
        None => Ok(()),
    }
}

/// Adds the lifetimes of slices in parameters.
fn add_params(
    alloc: Global,
    tcx: &TypeContext,
    known: &mut KnownSlices,
    set: &mut BTreeSet<Lifetime>,
    params: &[Param],
) -> Result<(), NoMemory>
    requires { AreKnown tcx.now.definitions known.old }
    ensures known { OnOk result (AreKnown tcx.now.definitions known.new) }
    ensures found { OnOk result ((d : ℕ) → is_in set.new d ≡ (is_in set.old d
        || list_any (λ param. slice_passes tcx.now.definitions (is_number d)
        (param_slices param.ty)) params.now)) }
{
    for param in params {
        add_slices(alloc, tcx, known, set, &slice_part(&param.ty), MOST_LEVELS)?;
    }
    Ok(())
}

/// The lifetimes of a method that slices among its inputs have, at any depth.
fn lifetimes_of_slices(
    alloc: Global,
    method: &Method,
    tcx: &TypeContext,
) -> Result<BTreeSet<Lifetime>, NoMemory>
    ensures { IfOk result (λ set. (d : ℕ) → is_in set d
        ≡ list_any (slice_passes tcx.now.definitions (is_number d)) (slice_inputs method.now)) }
{
    let mut known = BTreeMap::new(alloc);
    let mut set = BTreeSet::new(alloc);
    add_receiver(alloc, tcx, &mut known, &mut set, &method.param_self)?;
    add_params(alloc, tcx, &mut known, &mut set, method.params.as_slice())?;
    Ok(set)
}

/// Whether the lifetime has a name in its environment.
fn is_named(env: &LifetimeEnv, lifetime: Lifetime) -> bool
    ensures { result ≡ nat_lt lifetime (length env.now.bounds) }
{
    env.get_bounds(lifetime).is_some()
}

/// Adds the lifetime, where it has a name.
fn add_if_named(
    keys: &mut BTreeSet<Lifetime>,
    env: &LifetimeEnv,
    lifetime: Lifetime,
) -> Result<(), NoMemory>
    ensures { OnOk result ((t : ℕ) → is_in keys.new t ≡ (is_in keys.old t
        || is_number t lifetime && nat_lt lifetime (length env.now.bounds))) }
{
    if is_named(env, lifetime) {
        keys.insert(lifetime)?;
    }
    Ok(())
}

/// Adds those of a set that have a name.
fn add_named(
    keys: &mut BTreeSet<Lifetime>,
    env: &LifetimeEnv,
    set: &BTreeSet<Lifetime>,
) -> Result<(), NoMemory>
    ensures { OnOk result ((t : ℕ) → is_in keys.new t ≡ (is_in keys.old t
        || list_any (λ l. is_number t l && nat_lt l (length env.now.bounds)) set.now.keys)) }
{
    for lifetime in set.iter() {
        add_if_named(keys, env, *lifetime)?;
    }
    Ok(())
}

/// Adds the lifetimes that name a slice among the inputs of a method, where slices are included.
fn add_included(
    alloc: Global,
    keys: &mut BTreeSet<Lifetime>,
    method: &Method,
    tcx: &TypeContext,
    force_include_slices: bool,
) -> Result<(), NoMemory>
    ensures { OnOk result ((t : ℕ) → (IsTrue (is_in keys.new t) ↔ (IsTrue (is_in keys.old t)
        ⊎ (IsTrue force_include_slices × NamesSlice tcx.now.definitions method.now t)))) }
{
    if !force_include_slices {
        return Ok(());
    }
    // An environment is sound, as its number of lifetimes says.
    let _count = method.lifetime_env.num_lifetimes();
    let set = lifetimes_of_slices(alloc, method, tcx)?;
    add_named(keys, &method.lifetime_env, &set)
}

/// The lifetimes of which something is kept: those that the return names, and where slices are
/// included those that name a slice.
pub(crate) fn kept_lifetimes(
    alloc: Global,
    method: &Method,
    tcx: &TypeContext,
    force_include_slices: bool,
) -> Result<BTreeSet<Lifetime>, NoMemory>
    requires { MethodFits tcx.now.definitions method.now }
    ensures below { IfOk result (λ set. All (λ t. t < method.now.lifetime_env.count) set.keys) }
    ensures kept { IfOk result (λ set. (t : ℕ) → (Contains set.keys t
        ↔ IsKept tcx.now.definitions method.now force_include_slices t)) }
{
    // An environment is sound, as its number of lifetimes says.
    let _count = method.lifetime_env.num_lifetimes();
    let mut set = method.output.used_method_lifetimes(alloc)?;
    add_included(alloc, &mut set, method, tcx, force_include_slices)?;
    Ok(set)
}

//! Bounds between lifetimes, which have to stand at both of their ends.

ghost use Rattle.std.specs.Prelude.{◌≡◌, ℕ, List, [], ◌∷◌, ◌++◌, ◌<◌, length, nat_lt, nat_le, ◌||◌, ◌&&◌, not, None};
ghost use Rattle.std.specs.Prelude.{slice_index_or, slice_set, IfOk, OnOk};
ghost use Rattle.std.specs.List.{list_all};
ghost use Rattle.std.specs.List.Sorted.{IsNonDecreasing};
ghost use Rattle.bridge_decl.specs.declared.lifetimes.LifetimeNode.{LifetimeNode};
ghost use Rattle.bridge_ast.specs.declared.bounds.Side.TheVariants.{Longer, Shorter};
ghost use Rattle.bridge_ast.specs.Bounds.{listed, in_range, answered, has_number};
ghost use Rattle.bridge_ast.specs.inside.BoundLists.{AddsToEach, AreListers, HasBounds};
ghost use Rattle.bridge_ast.specs.EnvFaults.{Tells, bound_faults, where_so};

use crate::fault::{EnvFault, EnvFaultKind, EnvPlace};
use bridge_decl::{LifetimeNode, NoMemory};
use sqlite_items::Items;
use std::alloc::Global;

/// A side of a lifetime on which it lists its bounds.
#[derive(Clone, Copy)]
pub enum Side {
    /// The lifetimes that outlive it.
    Longer,
    /// The lifetimes that it outlives.
    Shorter,
}

impl Side {
    /// The numbers that the lifetime lists on this side.
    fn of(self, node: &LifetimeNode) -> &[usize]
        ensures { result.now ≡ listed self node.now }
    {
        match self {
            Side::Longer => node.longer.as_slice(),
            Side::Shorter => node.shorter.as_slice(),
        }
    }
}

/// As many empty lists as the count.
fn empty_lists(alloc: Global, count: usize) -> Result<Vec<Items<usize>>, NoMemory>
    ensures count { IfOk result (λ lists. length lists.items ≡ count) }
    ensures empty { IfOk result (λ lists. (at : ℕ) → slice_index_or lists.items at [] ≡ []) }
{
    let mut lists = Vec::new(alloc);
    for _ in 0..count {
        lists.push(Items::new(alloc))?;
    }
    Ok(lists)
}

/// Adds a number to the end of one of the lists. A place from their count on is that of no list.
fn add_to(lists: &mut [Items<usize>], place: usize, number: usize) -> Result<(), NoMemory>
    ensures { OnOk result (lists.new
        ≡ slice_set lists.old place (slice_index_or lists.old place [] ++ number ∷ [])) }
{
    if place < lists.len() {
        lists[place].push(number)?;
    }
    Ok(())
}

/// Adds a number to the end of each of the lists that stand at the places.
fn add_to_each(lists: &mut [Items<usize>], places: &[usize], number: usize) -> Result<(), NoMemory>
    ensures { OnOk result (AddsToEach lists.old lists.new places.now number) }
{
    for place in places {
        add_to(lists, *place, number)?;
    }
    Ok(())
}

/// Adds the number of each lifetime to the lists of those that it lists on the side.
fn add_listers(
    lists: &mut [Items<usize>],
    side: Side,
    nodes: &[LifetimeNode],
) -> Result<(), NoMemory>
    requires count { length lists.old ≡ length nodes.now }
    requires empty { (at : ℕ) → slice_index_or lists.old at [] ≡ [] }
    ensures { OnOk result (AreListers side nodes.now lists.new) }
{
    for (from, node) in nodes.iter().enumerate() {
        add_to_each(lists, side.of(node), from)?;
    }
    Ok(())
}

/// For each lifetime the numbers of those that list it on the side, in ascending order.
fn listers_of(
    alloc: Global,
    side: Side,
    nodes: &[LifetimeNode],
) -> Result<Vec<Items<usize>>, NoMemory>
    ensures { IfOk result (λ listers. AreListers side nodes.now listers.items) }
{
    let mut listers = empty_lists(alloc, nodes.len())?;
    add_listers(listers.as_mut_slice(), side, nodes)?;
    Ok(listers)
}

/// The bounds of an environment of lifetimes, to be looked up.
#[derive(Drop)]
pub struct BoundLists {
    count: usize,
    longer: Items<Items<usize>>,
    shorter: Items<Items<usize>>,
}

/// The bounds that the lifetimes list.
pub fn bound_lists(alloc: Global, nodes: &[LifetimeNode]) -> Result<BoundLists, NoMemory>
    ensures { IfOk result (λ bounds. HasBounds bounds nodes.now) }
{
    Ok(BoundLists {
        count: nodes.len(),
        longer: Items::from_vec(listers_of(alloc, Side::Longer, nodes)?),
        shorter: Items::from_vec(listers_of(alloc, Side::Shorter, nodes)?),
    })
}

/// Whether each number is below the count.
fn are_below(count: usize, numbers: &[usize]) -> bool
    ensures { result ≡ list_all (λ number. nat_lt number count) numbers.now }
{
    numbers.iter().all(|number| *number < count)
}

/// Whether the numbers, which ascend, have this one.
fn ascending_has(numbers: &[usize], number: usize) -> bool
    ensures { IsNonDecreasing numbers.now → result ≡ has_number number numbers.now }
{
    numbers.binary_search(&number).is_ok()
}

/// Whether each of the listed lifetimes is among the listers, which ascend. A number from the count on is no lifetime.
fn are_answered(listers: &[usize], count: usize, listed: &[usize]) -> bool
    ensures { IsNonDecreasing listers.now
        → result ≡ list_all (λ to. nat_le count to || has_number to listers.now) listed.now }
{
    for to in listed {
        if *to < count && !ascending_has(listers, *to) {
            return false;
        }
    }
    true
}

/// The list of a number; an empty one where there is none.
fn list_at(lists: &Items<Items<usize>>, number: usize) -> &[usize]
    ensures { result.now ≡ slice_index_or lists.now number [] }
{
    let lists = lists.as_slice();
    if number < lists.len() {
        return lists[number].as_slice();
    }
    &[]
}

/// The fault of a kind at a place, where something isn't so.
fn needed(is_so: bool, kind: EnvFaultKind, at: EnvPlace) -> Result<(), EnvFault>
    ensures { Tells result (where_so (not is_so) (EnvFault.Bad kind at None)) }
{
    if is_so {
        return Ok(());
    }
    Err(EnvFault::Bad {
        kind,
        at,
        other: None,
    })
}

/// Whether each number that the lifetime lists is below the count.
fn is_in_range(count: usize, node: &LifetimeNode) -> bool
    ensures { (nodes : List LifetimeNode) → count ≡ length nodes
        → result ≡ (in_range Longer nodes node.now && in_range Shorter nodes node.now) }
{
    are_below(count, node.longer.as_slice()) && are_below(count, node.shorter.as_slice())
}

/// Whether each bound that the lifetime of a number lists stands at its other end too.
fn is_answered(bounds: &BoundLists, number: usize, node: &LifetimeNode) -> bool
    ensures { (nodes : List LifetimeNode) → HasBounds bounds.now nodes → number < length nodes
        → result ≡ (answered Longer nodes number node.now
        && answered Shorter nodes number node.now) }
{
    let count = bounds.count;
    let longer = list_at(&bounds.longer, number);
    let shorter = list_at(&bounds.shorter, number);
    are_answered(shorter, count, node.longer.as_slice())
        && are_answered(longer, count, node.shorter.as_slice())
}

/// Tests the bounds of the lifetime of a number, which stands at the place.
pub fn test_bounds(
    bounds: &BoundLists,
    at: EnvPlace,
    number: usize,
    node: &LifetimeNode,
) -> Result<(), EnvFault>
    ensures { (nodes : List LifetimeNode) → HasBounds bounds.now nodes → number < length nodes
        → Tells result (bound_faults at nodes number node.now) }
{
    let in_range = is_in_range(bounds.count, node);
    needed(in_range, EnvFaultKind::BoundOutOfRange, at)?;
    let answered = is_answered(bounds, number, node);
    needed(answered, EnvFaultKind::BoundOneSided, at)
}

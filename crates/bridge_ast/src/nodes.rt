//! The lifetimes that a declaration has of its own, by their names and bounds.

ghost use Rattle.std.specs.Prelude.{◌≡◌, ℕ, List, [], ◌∷◌, ◌++◌, ◌<◌, length, true, Option, OnOk};
ghost use Rattle.bridge_decl.specs.declared.lifetimes.LifetimeNode.{LifetimeNode};
ghost use Rattle.bridge_ast.specs.declared.fault.EnvPart.TheVariants as part;
ghost use Rattle.bridge_ast.specs.inside.BoundLists.{HasBounds};
ghost use Rattle.bridge_ast.specs.EnvFaults.{Named, Tells, place, repeats_name, bound_faults, lifetime_faults};
ghost use Rattle.bridge_text.specs.NameIndex.{HasMeanings};

use crate::bounds::{BoundLists, bound_lists, test_bounds};
use crate::fault::{EnvFault, EnvFaultKind, EnvPart, EnvPlace};
use crate::names::{PartIndex, claim};
use bridge_decl::LifetimeNode;
use std::alloc::Global;
use std::collections::BTreeMap;

/// The declaration that lifetimes belong to: an item, or the method of an item.
#[derive(Clone, Copy)]
pub struct Owner {
    /// The number of the module.
    pub module: usize,
    /// The number of the item.
    pub item: usize,
    /// The number of the method; none for the item itself.
    pub method: Option<usize>,
}

impl Owner {
    /// The place of its lifetime of a number.
    fn place_of(self, node: usize) -> EnvPlace
        ensures { result ≡ place self.«module» (part.Node self.item self.method node) }
    {
        EnvPlace {
            module: self.module,
            part: EnvPart::Node {
                item: self.item,
                method: self.method,
                node,
            },
        }
    }
}

/// Tests the lifetime of a number, which stands at the place, by its name and its bounds.
fn test_node(
    alloc: Global,
    names: &mut PartIndex,
    bounds: &BoundLists,
    at: EnvPlace,
    number: usize,
    node: &LifetimeNode,
) -> Result<(), EnvFault>
    ensures told { (before : List Named) (nodes : List LifetimeNode)
        → HasMeanings names.old before
        → HasBounds bounds.now nodes → number < length nodes
        → Tells result (repeats_name EnvFaultKind.DuplicateLifetime at.«module» before
        node.now.name at.part ++ bound_faults at nodes number node.now) }
    ensures kept { (before : List Named) → HasMeanings names.old before
        → OnOk result (HasMeanings names.new (before ++ (node.now.name, at.part) ∷ [])) }
{
    claim(
        alloc,
        names,
        EnvFaultKind::DuplicateLifetime,
        &node.name,
        at,
    )?;
    test_bounds(bounds, at, number, node)
}

/// Whether nothing can be wrong with lifetimes: there is none, or one that lists no bounds.
fn need_no_test(nodes: &[LifetimeNode]) -> bool
    ensures { (number item : ℕ) (method : Option ℕ) → result ≡ true
        → lifetime_faults number item method nodes.now ≡ [] }
{
    match nodes {
        [] => true,
        [node] => node.longer.as_slice().is_empty() && node.shorter.as_slice().is_empty(),
        _ => false,
    }
}

/// Tests each lifetime, by the names of those before it and by all bounds.
fn test_each(alloc: Global, owner: Owner, nodes: &[LifetimeNode]) -> Result<(), EnvFault>
    ensures { Tells result (lifetime_faults owner.«module» owner.item owner.method nodes.now) }
{
    let bounds = bound_lists(alloc, nodes)?;
    let mut names = BTreeMap::new(alloc);
    for (number, node) in nodes.iter().enumerate() {
        test_node(
            alloc,
            &mut names,
            &bounds,
            owner.place_of(number),
            number,
            node,
        )?;
    }
    Ok(())
}

/// Tests lifetimes: their names are distinct, and their bounds are in range and stand at both ends. It takes no memory where there is
/// none, or one without bounds, as in most signatures.
pub fn test_lifetimes(alloc: Global, owner: Owner, nodes: &[LifetimeNode]) -> Result<(), EnvFault>
    ensures { Tells result (lifetime_faults owner.«module» owner.item owner.method nodes.now) }
{
    if need_no_test(nodes) {
        return Ok(());
    }
    test_each(alloc, owner, nodes)
}

//! The order in which modules are gone through.

ghost use Rattle.std.specs.Prelude.{◌≡◌, ◌++◌, IfOk, OnOk};
ghost use Rattle.bridge_order.specs.Order.{at_depth, deepest, module_order, where_there};

use bridge_ast::{Module, NoMemory};
use std::alloc::Global;

/// The most segments that a path of the modules has.
#[tactic(auto, using(crate::proofs::OrderLemmas::deepest_next))]
fn deepest(modules: &[Module]) -> usize
    ensures { result ≡ deepest modules.now }
{
    let mut most = 0usize;
    for module in modules {
        most = most.max(module.path.len());
    }
    most
}

fn add_where(order: &mut Vec<usize>, number: usize, is_there: bool) -> Result<(), NoMemory>
    ensures { OnOk result (order.new.items ≡ order.old.items ++ where_there is_there number) }
{
    if is_there {
        order.push(number)?;
    }
    Ok(())
}

/// Adds the numbers of the modules whose paths have so many segments.
fn add_at_depth(order: &mut Vec<usize>, modules: &[Module], depth: usize) -> Result<(), NoMemory>
    ensures { OnOk result (order.new.items ≡ order.old.items ++ at_depth depth 0 modules.now) }
{
    for (number, module) in modules.iter().enumerate() {
        add_where(order, number, module.path.len() == depth)?;
    }
    Ok(())
}

/// The numbers of the modules by the number of the segments of their paths, and then by their places.
pub fn module_order(alloc: Global, modules: &[Module]) -> Result<Vec<usize>, NoMemory>
    ensures { IfOk result (λ order. order.items ≡ module_order modules.now) }
{
    let mut order = Vec::new(alloc);
    let most = deepest(modules);
    for depth in 0..most {
        add_at_depth(&mut order, modules, depth)?;
    }
    add_at_depth(&mut order, modules, most)?;
    Ok(order)
}

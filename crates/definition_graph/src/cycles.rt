//! Which nodes reach themselves.

ghost use Rattle.std.specs.Prelude.{◌+◌, ◌<◌, ◌≤◌, ◌↔◌, length, IfOk, OnOk, IsTrue};
ghost use Rattle.definition_graph.specs.inside.Components.{AreComponents};
ghost use Rattle.definition_graph.specs.Reaching.{ReachesByEdges, edge_count, successors};
ghost use Rattle.definition_graph.specs.Surveying.{FlagsReachingItself};

use crate::graph::Graph;
use crate::search::Components;
use crate::step_counter::StepCounter;
use std::alloc::{AllocError, Global};
use std::sync::ledger::Ledger;

/// Whether an edge leads from a node into its own component.
fn is_on_cycle<L: Ledger>(
    graph: &Graph,
    components: &Components,
    node: usize,
    steps: &mut StepCounter<L>,
) -> bool
    requires components { AreComponents graph.now
        components.now.number.items components.now.order.items }
    requires within { node < length graph.now }
    ensures cycle { IsTrue result ↔ ReachesByEdges graph.now node node }
    ensures steps { steps.new ≤ steps.old + length (successors graph.now node) }
{
    for place in 0..graph.out_degree(node) {
        steps.tick();
        let target = graph.successor(node, place);
        if components.number[target] == components.number[node] {
            return true;
        }
    }
    false
}

/// Of each node, whether it reaches itself.
pub(crate) fn cycle_flags<L: Ledger>(
    alloc: Global,
    graph: &Graph,
    components: &Components,
    steps: &mut StepCounter<L>,
) -> Result<Vec<bool>, AllocError>
    requires { AreComponents graph.now components.now.number.items components.now.order.items }
    ensures flags { IfOk result (λ flags. FlagsReachingItself graph.now flags.items) }
    ensures steps { OnOk result
        (steps.new ≤ steps.old + length graph.now + edge_count graph.now) }
{
    let mut flags = Vec::new(alloc);
    for node in 0..graph.len() {
        steps.tick();
        flags.push(is_on_cycle(graph, components, node, steps))?;
    }
    Ok(flags)
}

//! How deep nodes nest.

ghost use Rattle.std.specs.Prelude.{◌≡◌, ℕ, ◌+◌, ◌<◌, ◌≤◌, None, length, slice_index_or, IfOk, OnOk};
ghost use Rattle.definition_graph.specs.Reaching.{Edge, edge_count, successors};
ghost use Rattle.definition_graph.specs.Surveying.{AreDepths, FlagsReachingItself, IsDepth, IsReverseTopological};

use crate::graph::Graph;
use crate::step_counter::StepCounter;
use std::alloc::{AllocError, Global};
use std::sync::ledger::Ledger;

/// Depths are counted up to this one, which stands for all that are deeper too.
const DEEPEST: usize = 257;

/// The depth of a node that was seen to.
fn depth_at(depths: &[Option<usize>], node: usize) -> Option<usize>
    requires { node < length depths.now }
    ensures { result ≡ slice_index_or depths.now node None }
{
    depths[node]
}

/// The depth of a node, from those of its successors.
fn depth_of<L: Ledger>(
    graph: &Graph,
    depths: &[Option<usize>],
    node: usize,
    steps: &mut StepCounter<L>,
) -> Option<usize>
    requires within { node < length graph.now }
    requires each { length depths.now ≡ length graph.now }
    requires named { (b : ℕ) → Edge graph.now node b
        → IsDepth graph.now b (slice_index_or depths.now b None) }
    ensures depth { IsDepth graph.now node result }
    ensures steps { steps.new ≤ steps.old + length (successors graph.now node) }
{
    let mut most = 1;
    for place in 0..graph.out_degree(node) {
        steps.tick();
        let target = graph.successor(node, place);
        match depth_at(depths, target) {
            None => return None,
            Some(depth) => most = most.max((depth + 1).min(DEEPEST)),
        }
    }
    Some(most)
}

/// The depths of all nodes, in an order in which those of the successors are known first.
pub(crate) fn node_depths<L: Ledger>(
    alloc: Global,
    graph: &Graph,
    order: &[usize],
    reaches_itself: &[bool],
    steps: &mut StepCounter<L>,
) -> Result<Vec<Option<usize>>, AllocError>
    requires order { IsReverseTopological graph.now order.now }
    requires flags { FlagsReachingItself graph.now reaches_itself.now }
    ensures depths { IfOk result (λ depths. AreDepths graph.now depths.items) }
    ensures steps { OnOk result
        (steps.new ≤ steps.old + length graph.now + edge_count graph.now) }
{
    let mut depths = vec![in alloc; None; graph.len()]?;
    for node in order {
        steps.tick();
        if !reaches_itself[*node] {
            depths[*node] = depth_of(graph, &depths, *node, steps);
        }
    }
    Ok(depths)
}

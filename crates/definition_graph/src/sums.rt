//! Sums over all that a node holds.

ghost use Rattle.std.specs.Prelude.{◌≡◌, ◌+◌, ◌<◌, min, sum_by, length, slice_index, IfOk};
ghost use Rattle.definition_graph.specs.Reaching.{successors};
ghost use Rattle.definition_graph.specs.Surveying.{AreDepths, IsReverseTopological};
ghost use Rattle.definition_graph.specs.Totals.{AreTotals};

use crate::graph::Graph;
use std::alloc::{AllocError, Global};

/// What a node holds, from what its successors hold.
fn held_by(graph: &Graph, totals: &[usize], own: usize, limit: usize, node: usize) -> usize
    requires within { node < length graph.now }
    requires each { length totals.now ≡ length graph.now }
    ensures { result
        ≡ min limit (own + sum_by (slice_index totals.now) (successors graph.now node)) }
{
    let mut total = own.min(limit);
    for place in 0..graph.out_degree(node) {
        let held = totals[graph.successor(node, place)];
        total = total.saturating_add(held).min(limit);
    }
    total
}

/// What each node holds that leads to no cycle: its own, and what each of its successors holds, as often as it is one. A sum that
/// reaches the limit stays there. Nothing is said of the other nodes.
pub fn totals(
    alloc: Global,
    graph: &Graph,
    order: &[usize],
    depths: &[Option<usize>],
    own: &[usize],
    limit: usize,
) -> Result<Vec<usize>, AllocError>
    requires order { IsReverseTopological graph.now order.now }
    requires depths { AreDepths graph.now depths.now }
    requires own { length own.now ≡ length graph.now }
    ensures { IfOk result (λ totals. AreTotals graph.now own.now limit totals.items) }
{
    let mut totals = vec![in alloc; 0; graph.len()]?;
    for node in order {
        if depths[*node].is_some() {
            totals[*node] = held_by(graph, &totals, own[*node], limit, *node);
        }
    }
    Ok(totals)
}

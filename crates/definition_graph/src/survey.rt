//! What is known of each node: whether it reaches itself, how deep it nests, and an order in which each stands after its successors.

ghost use Rattle.std.specs.Prelude.{◌+◌, ◌*◌, ◌≤◌, length, IfOk, OnOk};
ghost use Rattle.definition_graph.specs.Reaching.{edge_count};
ghost use Rattle.definition_graph.specs.Surveying.{AreDepths, FlagsReachingItself, IsReverseTopological};

use crate::cycles::cycle_flags;
use crate::depths::node_depths;
use crate::graph::Graph;
use crate::search::Components;
use crate::step_counter::StepCounter;
use std::alloc::{AllocError, Global};
use std::sync::ledger::Ledger;

/// What is known of each node of a graph. Each list has one entry a node.
#[derive(Drop)]
pub struct Survey {
    /// Whether it reaches itself.
    pub reaches_itself: Vec<bool>,
    /// How many nodes its longest chain has, or 257 for more; none where it leads to one that reaches itself.
    pub depth: Vec<Option<usize>>,
    /// All nodes, in an order in which each that doesn't reach itself stands after its successors.
    pub order: Vec<usize>,
}

impl Survey {
    /// The survey of a graph.
    ///
    /// It takes at most 6 steps for each node and for each edge, and doesn't recurse.
    pub fn of<L: Ledger>(
        alloc: Global,
        graph: &Graph,
        steps: &mut StepCounter<L>,
    ) -> Result<Survey, AllocError>
        ensures flags { IfOk result (λ s. FlagsReachingItself graph.now s.reaches_itself.items) }
        ensures depths { IfOk result (λ s. AreDepths graph.now s.depth.items) }
        ensures order { IfOk result (λ s. IsReverseTopological graph.now s.order.items) }
        ensures steps { OnOk result
            (steps.new ≤ steps.old + 6 * length graph.now + 6 * edge_count graph.now) }
    {
        let components = Components::of(alloc, graph, steps)?;
        let reaches_itself = cycle_flags(alloc, graph, &components, steps)?;
        let depth = node_depths(alloc, graph, &components.order, &reaches_itself, steps)?;
        let Components { number: _, order } = components;
        Ok(Survey {
            reaches_itself,
            depth,
            order,
        })
    }
}

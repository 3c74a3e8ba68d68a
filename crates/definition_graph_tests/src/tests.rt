//! Worked examples.

ghost use Rattle.std.specs.Prelude.{◌≡◌, ◌<◌, IfOk};
ghost use Rattle.definition_graph.specs.Surveying.{AreDepths, IsReverseTopological};

use definition_graph::{Graph, StepCounter, Survey, totals};
use std::alloc::{AllocError, Global};
use std::marker::Brand;
use std::process::Abort;
use std::sync::ledger::{Blank, Ledger};
use std::test::Fail;

/// An edge more, where both of its ends are nodes.
fn link(graph: &mut Graph, from: usize, to: usize) -> Result<(), Fail> {
    let count = graph.len();
    if from >= count || to >= count {
        return Err(Fail::from("there is no such node"));
    }
    graph.add_edge(from, to)?;
    Ok(())
}

/// The graph of so many nodes with these edges.
fn graph_of(alloc: Global, count: usize, edges: &[(usize, usize)]) -> Result<Graph, Fail> {
    let mut graph = Graph::new(alloc, count)?;
    for (from, to) in edges {
        link(&mut graph, *from, *to)?;
    }
    Ok(graph)
}

/// A chain of so many nodes, in which each but the last names the next.
fn chain(alloc: Global, count: usize) -> Result<Graph, Fail> {
    let mut graph = Graph::new(alloc, count)?;
    for to in 1..count {
        link(&mut graph, to - 1, to)?;
    }
    Ok(graph)
}

/// The survey of a graph, in a ledger of its own.
fn in_ledger<L: Ledger>(alloc: Global, graph: &Graph, blank: Blank) -> Result<Survey, AllocError>
    requires name { blank.name ≡ L.name }
    requires parts { blank.parts ≡ L.parts }
    requires some { 0 < blank.parts }
    ensures order { IfOk result (λ s. IsReverseTopological graph.now s.order.items) }
    ensures depths { IfOk result (λ s. AreDepths graph.now s.depth.items) }
{
    let mut steps = StepCounter::<L>::new(blank);
    Survey::of(alloc, graph, &mut steps)
}

/// The survey of a graph.
fn surveyed(alloc: Global, graph: &Graph) -> Result<Survey, AllocError>
    ensures order { IfOk result (λ s. IsReverseTopological graph.now s.order.items) }
    ensures depths { IfOk result (λ s. AreDepths graph.now s.depth.items) }
{
    in_ledger::<Brand>(alloc, graph, Blank::new(1))
}

/// The successors of a node.
fn successors_of(alloc: Global, graph: &Graph, node: usize) -> Result<Vec<usize>, Fail> {
    if node >= graph.len() {
        return Err(Fail::from("there is no such node"));
    }
    let mut found = Vec::new(alloc);
    for place in 0..graph.out_degree(node) {
        found.push(graph.successor(node, place))?;
    }
    Ok(found)
}

/// Edges are kept in the order in which they were added, with repetitions.
#[test]
fn edges(rt: HostRuntime) -> Result<(), Fail> {
    let alloc = rt.alloc();
    let graph = graph_of(alloc, 3, &[(0, 1), (0, 2), (2, 0), (0, 1)])?;
    assert!(rt; graph.len() == 3);
    assert!(rt; successors_of(alloc, &graph, 0)?.as_slice() == [1, 2, 1].as_slice());
    assert!(rt; successors_of(alloc, &graph, 1)?.is_empty());
    assert!(rt; successors_of(alloc, &graph, 2)?.as_slice() == [0].as_slice());
    Ok(())
}

/// How many nodes, the edges, which nodes reach themselves, and their depths.
type SurveyRow = (
    usize,
    &'static [(usize, usize)],
    &'static [bool],
    &'static [Option<usize>],
);

const CYCLIC: [SurveyRow; 8] = [
    // a node that names itself, beside one that names none
    (2, &[(0, 0)], &[true, false], &[None, Some(1)]),
    // a ring
    (
        3,
        &[(0, 1), (1, 2), (2, 0)],
        &[true, true, true],
        &[None, None, None],
    ),
    // two rings that meet in 2
    (
        5,
        &[(0, 1), (1, 2), (2, 0), (2, 3), (3, 4), (4, 2)],
        &[true, true, true, true, true],
        &[None, None, None, None, None],
    ),
    // a ring that leads to a ring
    (
        4,
        &[(0, 1), (1, 0), (1, 2), (2, 3), (3, 2)],
        &[true, true, true, true],
        &[None, None, None, None],
    ),
    // 0 leads to a ring, and isn't in it
    (
        4,
        &[(0, 1), (0, 3), (1, 2), (2, 1)],
        &[false, true, true, false],
        &[None, None, None, Some(1)],
    ),
    // a ring leads to 2, which isn't in it
    (
        3,
        &[(0, 1), (1, 0), (1, 2)],
        &[true, true, false],
        &[None, None, Some(1)],
    ),
    // 0 leads to a ring, and to a node of its middle
    (
        4,
        &[(0, 1), (1, 2), (2, 3), (3, 1), (0, 3)],
        &[false, true, true, true],
        &[None, None, None, None],
    ),
    // between two rings, which 2 connects
    (
        5,
        &[(0, 1), (1, 0), (1, 2), (2, 3), (3, 4), (4, 3)],
        &[true, true, false, true, true],
        &[None, None, None, None, None],
    ),
];

const ACYCLIC: [SurveyRow; 6] = [
    // no nodes
    (0, &[], &[], &[]),
    // one without edges
    (1, &[], &[false], &[Some(1)]),
    // a chain
    (
        4,
        &[(0, 1), (1, 2), (2, 3)],
        &[false, false, false, false],
        &[Some(4), Some(3), Some(2), Some(1)],
    ),
    // a diamond
    (
        4,
        &[(0, 1), (0, 2), (1, 3), (2, 3)],
        &[false, false, false, false],
        &[Some(3), Some(2), Some(2), Some(1)],
    ),
    // one with a short and a long side
    (
        4,
        &[(0, 3), (0, 1), (1, 2), (2, 3)],
        &[false, false, false, false],
        &[Some(4), Some(3), Some(2), Some(1)],
    ),
    // one edge twice
    (2, &[(0, 1), (0, 1)], &[false, false], &[Some(2), Some(1)]),
];

fn survey_row(rt: &impl Abort, alloc: Global, row: &SurveyRow) -> Result<(), Fail> {
    let (count, edges, flags, depths) = row;
    let graph = graph_of(alloc, *count, edges)?;
    let survey = surveyed(alloc, &graph)?;
    assert!(rt; survey.reaches_itself.as_slice() == *flags);
    assert!(rt; survey.depth.as_slice() == *depths);
    Ok(())
}

/// Reaching a cycle isn't reaching oneself.
#[test]
fn cyclic(rt: HostRuntime) -> Result<(), Fail> {
    for row in &CYCLIC {
        survey_row(&rt, rt.alloc(), row)?;
    }
    Ok(())
}

/// The depth is the number of nodes of the longest chain.
#[test]
fn acyclic(rt: HostRuntime) -> Result<(), Fail> {
    for row in &ACYCLIC {
        survey_row(&rt, rt.alloc(), row)?;
    }
    Ok(())
}

/// How many nodes, the edges, and the one order that fits.
type OrderRow = (usize, &'static [(usize, usize)], &'static [usize]);

const ORDERS: [OrderRow; 4] = [
    (4, &[(0, 1), (1, 2), (2, 3)], &[3, 2, 1, 0]),
    (3, &[(2, 0), (0, 1)], &[1, 0, 2]),
    (4, &[(0, 3), (0, 1), (1, 2), (2, 3)], &[3, 2, 1, 0]),
    (2, &[(1, 0), (1, 0)], &[0, 1]),
];

/// Each node stands after its successors.
#[test]
fn orders(rt: HostRuntime) -> Result<(), Fail> {
    let alloc = rt.alloc();
    for (count, edges, order) in &ORDERS {
        let graph = graph_of(alloc, *count, edges)?;
        let survey = surveyed(alloc, &graph)?;
        assert!(rt; survey.order.as_slice() == *order);
    }
    Ok(())
}

/// How many nodes a chain has, and the depths of the first and of the second of them.
const DEEP: [(usize, usize, usize); 4] = [
    (256, 256, 255),
    (257, 257, 256),
    (258, 257, 257),
    (259, 257, 257),
];

/// A chain of 255 edges has the depth 256, one of 256 the depth 257, and so have all that are longer.
#[test]
fn limit_of_depth(rt: HostRuntime) -> Result<(), Fail> {
    let alloc = rt.alloc();
    for (count, first, second) in &DEEP {
        let graph = chain(alloc, *count)?;
        let survey = surveyed(alloc, &graph)?;
        assert!(rt; survey.depth.get(0) == Some(&Some(*first)));
        assert!(rt; survey.depth.get(1) == Some(&Some(*second)));
    }
    Ok(())
}

/// How many nodes, the edges, what each has of its own, the limit, and what each holds.
type TotalRow = (
    usize,
    &'static [(usize, usize)],
    &'static [usize],
    usize,
    &'static [usize],
);

const TOTALS: [TotalRow; 6] = [
    // the lowest of a diamond is held twice
    (
        4,
        &[(0, 1), (0, 2), (1, 3), (2, 3)],
        &[1, 1, 1, 1],
        100,
        &[5, 2, 2, 1],
    ),
    // one edge twice
    (2, &[(0, 1), (0, 1)], &[1, 1], 100, &[3, 1]),
    // each twice: 1, 1 + 2, 1 + 6, 1 + 14
    (
        4,
        &[(0, 1), (0, 1), (1, 2), (1, 2), (2, 3), (2, 3)],
        &[1, 1, 1, 1],
        100,
        &[15, 7, 3, 1],
    ),
    // the same up to a limit
    (
        4,
        &[(0, 1), (0, 1), (1, 2), (1, 2), (2, 3), (2, 3)],
        &[1, 1, 1, 1],
        14,
        &[14, 7, 3, 1],
    ),
    // what is more by itself
    (2, &[(0, 1)], &[0, 9], 8, &[8, 8]),
    (0, &[], &[], 8, &[]),
];

/// What each node holds.
fn totalled(alloc: Global, graph: &Graph, own: &[usize], limit: usize) -> Result<Vec<usize>, Fail> {
    if own.len() != graph.len() {
        return Err(Fail::from("not one for each node"));
    }
    let survey = surveyed(alloc, graph)?;
    let held = totals(alloc, graph, &survey.order, &survey.depth, own, limit)?;
    Ok(held)
}

/// A node holds its own and what its successors hold.
#[test]
fn totals_of_graphs(rt: HostRuntime) -> Result<(), Fail> {
    let alloc = rt.alloc();
    for (count, edges, own, limit, expected) in &TOTALS {
        let graph = graph_of(alloc, *count, edges)?;
        assert!(rt; totalled(alloc, &graph, own, *limit)?.as_slice() == *expected);
    }
    Ok(())
}

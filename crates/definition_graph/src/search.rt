//! A search for the strongly connected components of a graph: the groups of nodes that lead to one another.
//!
//! It is a search by depth with a path of open nodes (Gabow's), in one pass. `path` has the nodes that were seen and aren't done;
//! `bounds` has the places in it where a group begins, whose nodes are known to lead to one another; `work` has the places of the nodes
//! that the search came by, and `left` how many edges of each node were not followed. An edge to an open node joins the groups from
//! there to the end. A node without edges left, which begins a group, ends that group: its nodes are a component.

ghost use Rattle.std.specs.Prelude.{◌+◌, ◌*◌, ◌≡◌, ℕ, ◌<◌, ◌≤◌, length, slice_index, map, IfOk, OnOk, IsTrue, ◌↔◌};
ghost use Rattle.definition_graph.specs.declared.search.Mark.TheVariants.{Unseen};
ghost use Rattle.definition_graph.specs.Reaching.{Edge, IsGraph, edge_count};
ghost use Rattle.definition_graph.specs.inside.SearchState.{Rising};
ghost use Rattle.definition_graph.specs.inside.SearchSteps.{Holds, IsTop, OpensNode, Joins, Emits, VisitsEdge, Proceeds, SearchStarts, SearchEnds, potential, search_mark, component_of_mark};
ghost use Rattle.definition_graph.specs.inside.Components.{AreComponents};

use crate::graph::Graph;
use crate::step_counter::StepCounter;
use std::alloc::{AllocError, Global};
use std::sync::ledger::Ledger;

/// What the search knows of a node.
#[derive(Clone, Copy)]
pub(crate) enum Mark {
    /// It was not seen.
    Unseen,
    /// It stands at this place of the path.
    Open(usize),
    /// It belongs to this component.
    Done(usize),
}

/// A search on its way.
#[derive(Drop)]
pub(crate) struct Search {
    marks: Vec<Mark>,
    left: Vec<usize>,
    path: Vec<usize>,
    bounds: Vec<usize>,
    work: Vec<usize>,
    order: Vec<usize>,
}

impl Mark {
    /// The number of the component.
    fn number(&self) -> usize
        ensures { result ≡ component_of_mark self.now }
    {
        match *self {
            Mark::Done(component) => component,
            _ => 0,
        }
    }
}

/// Whether the places end with this one.
fn is_last(places: &[usize], place: usize) -> bool
    ensures { IsTrue result ↔ IsTop places.now place }
{
    match places.last() {
        Some(last) => *last == place,
        None => false,
    }
}

impl Search {
    /// A node goes to the end of the path, as a group of its own.
    fn open(&mut self, node: usize) -> Result<(), AllocError>
        requires { node < length self.old.marks.items }
        ensures { OnOk result (OpensNode self.old node self.new) }
    {
        let place = self.path.len();
        self.path.push(node)?;
        self.bounds.push(place)?;
        self.work.push(place)?;
        self.marks[node] = Mark::Open(place);
        Ok(())
    }

    /// The groups down to the one of this place become one.
    fn join<L: Ledger>(&mut self, place: usize, steps: &mut StepCounter<L>)
        requires { Rising self.old.bounds.items }
        ensures bounds { Joins self.old.bounds.items place self.new.bounds.items }
        ensures marks { self.new.marks ≡ self.old.marks }
        ensures left { self.new.left ≡ self.old.left }
        ensures path { self.new.path ≡ self.old.path }
        ensures work { self.new.work ≡ self.old.work }
        ensures order { self.new.order ≡ self.old.order }
        ensures steps { steps.new + length self.new.bounds.items
            ≡ steps.old + length self.old.bounds.items }
    {
        let mut keep = self.bounds.len();
        while keep > 0 && self.bounds[keep - 1] > place {
            steps.tick();
            keep -= 1;
        }
        self.bounds.truncate(keep);
    }

    /// The group that begins at this place is done.
    fn emit<L: Ledger>(
        &mut self,
        start: usize,
        steps: &mut StepCounter<L>,
    ) -> Result<(), AllocError>
        requires start { start ≤ length self.old.path.items }
        requires within { (i : ℕ) → i < length self.old.path.items
            → slice_index self.old.path.items i < length self.old.marks.items }
        ensures emits { OnOk result (Emits self.old start self.new) }
        ensures steps { OnOk result (steps.new + start ≡ steps.old + length self.old.path.items) }
    {
        let component = self.order.len();
        for place in start..self.path.len() {
            steps.tick();
            let node = self.path[place];
            self.marks[node] = Mark::Done(component);
            self.order.push(node)?;
        }
        self.path.truncate(start);
        Ok(())
    }

    /// Looks at what an edge from the top of the work leads to.
    fn visit<L: Ledger>(
        &mut self,
        graph: &Graph,
        at: usize,
        target: usize,
        steps: &mut StepCounter<L>,
    ) -> Result<(), AllocError>
        requires holds { Holds graph.now self.old }
        requires top { IsTop self.old.work.items at }
        requires within { target < length graph.now }
        requires edge { Edge graph.now (slice_index self.old.path.items at) target }
        ensures visits { OnOk result (VisitsEdge graph.now self.old at target self.new) }
        ensures steps { OnOk result
            (steps.new + potential self.new ≤ steps.old + potential self.old + 3) }
    {
        match self.marks[target] {
            Mark::Unseen => {
                self.open(target)?;
                Ok(())
            }
            Mark::Open(place) => {
                self.join(place, steps);
                Ok(())
            }
            Mark::Done(_) => Ok(()),
        }
    }

    /// Follows an edge from the top of the work.
    fn explore<L: Ledger>(
        &mut self,
        graph: &Graph,
        at: usize,
        steps: &mut StepCounter<L>,
    ) -> Result<(), AllocError>
        requires holds { Holds graph.now self.old }
        requires top { IsTop self.old.work.items at }
        requires some { 0 < slice_index self.old.left.items (slice_index self.old.path.items at) }
        ensures proceeds { OnOk result (Proceeds graph.now self.old self.new) }
        ensures steps { OnOk result
            (steps.new + potential self.new ≤ steps.old + potential self.old) }
    {
        steps.tick();
        let node = self.path[at];
        let edge = self.left[node] - 1;
        let target = graph.successor(node, edge);
        self.visit(graph, at, target, steps)?;
        self.left[node] = edge;
        Ok(())
    }

    /// Leaves the top of the work, which has no edges left.
    fn finish<L: Ledger>(
        &mut self,
        graph: &Graph,
        at: usize,
        steps: &mut StepCounter<L>,
    ) -> Result<(), AllocError>
        requires holds { Holds graph.now self.old }
        requires top { IsTop self.old.work.items at }
        requires none { slice_index self.old.left.items (slice_index self.old.path.items at) ≡ 0 }
        ensures proceeds { OnOk result (Proceeds graph.now self.old self.new) }
        ensures steps { OnOk result
            (steps.new + potential self.new ≤ steps.old + potential self.old) }
    {
        steps.tick();
        let _ = self.work.pop();
        if is_last(&self.bounds, at) {
            let _ = self.bounds.pop();
            self.emit(at, steps)?;
        }
        Ok(())
    }

    /// Goes on until no work is left.
    fn run<L: Ledger>(
        &mut self,
        graph: &Graph,
        steps: &mut StepCounter<L>,
    ) -> Result<(), AllocError>
        requires { Holds graph.now self.old }
        ensures holds { OnOk result (Holds graph.now self.new) }
        ensures steps { OnOk result
            (steps.new + potential self.new ≤ steps.old + potential self.old) }
        ensures over { OnOk result (length self.new.work.items ≡ 0) }
        ensures seen { OnOk result
            ((v : ℕ) → search_mark self.new v ≡ Unseen
            → search_mark self.old v ≡ Unseen) }
    {
        while let Some(at) = self.work.last().copied() {
            let node = self.path[at];
            if self.left[node] == 0 {
                self.finish(graph, at, steps)?;
            } else {
                self.explore(graph, at, steps)?;
            }
        }
        Ok(())
    }

    /// A search that has seen nothing.
    fn new(alloc: Global, graph: &Graph) -> Result<Search, AllocError>
        ensures starts { IfOk result (λ search. SearchStarts graph.now search) }
        ensures sound { IsGraph graph.now }
    {
        let mut left = Vec::new(alloc);
        for node in 0..graph.len() {
            left.push(graph.out_degree(node))?;
        }
        Ok(Search {
            marks: vec![in alloc; Mark::Unseen; graph.len()]?,
            left,
            path: Vec::new(alloc),
            bounds: Vec::new(alloc),
            work: Vec::new(alloc),
            order: Vec::new(alloc),
        })
    }

    /// Sees all nodes.
    fn search<L: Ledger>(
        &mut self,
        graph: &Graph,
        steps: &mut StepCounter<L>,
    ) -> Result<(), AllocError>
        requires { SearchStarts graph.now self.old }
        ensures ends { OnOk result (SearchEnds graph.now self.new) }
        ensures steps { OnOk result
            (steps.new ≤ steps.old + 4 * length graph.now + 4 * edge_count graph.now) }
    {
        for root in 0..graph.len() {
            steps.tick();
            if let Mark::Unseen = self.marks[root] {
                self.open(root)?;
                self.run(graph, steps)?;
            }
        }
        Ok(())
    }

    /// The number of each node's component.
    fn numbers(&self, alloc: Global) -> Result<Vec<usize>, AllocError>
        ensures { IfOk result (λ numbers.
            numbers.items ≡ map component_of_mark self.now.marks.items) }
    {
        self.marks.iter().map(|mark| mark.number()).collect(alloc)
    }
}

/// The strongly connected components of a graph.
#[derive(Drop)]
pub(crate) struct Components {
    /// Of each node the number of its component, which never rises along an edge.
    pub(crate) number: Vec<usize>,
    /// The nodes by these numbers.
    pub(crate) order: Vec<usize>,
}

impl Components {
    /// Those of this graph.
    pub(crate) fn of<L: Ledger>(
        alloc: Global,
        graph: &Graph,
        steps: &mut StepCounter<L>,
    ) -> Result<Components, AllocError>
        ensures components { IfOk result (λ c.
            AreComponents graph.now c.number.items c.order.items) }
        ensures steps { OnOk result
            (steps.new ≤ steps.old + 4 * length graph.now + 4 * edge_count graph.now) }
    {
        let mut search = Search::new(alloc, graph)?;
        search.search(graph, steps)?;
        let number = search.numbers(alloc)?;
        let Search {
            marks: _,
            left: _,
            path: _,
            bounds: _,
            work: _,
            order,
        } = search;
        Ok(Components { number, order })
    }
}

//! A graph: nodes as numbers, each with its successors.

ghost use Rattle.std.specs.Prelude.{◌≡◌, ◌<◌, ◌++◌, [], ◌∷◌, length, slice_index, slice_set, replicate, IfOk, OnOk, OnErr};

use std::alloc::{AllocError, Global};
use std::marker::Model;

/// A graph: its nodes are numbered from 0, and from each edges lead to others or to itself, in an order and with repetitions.
///
/// A contract speaks of it as the list that has, for each node, the list of its successors.
#[derive(Drop)]
pub struct Graph {
    rows: Vec<Vec<usize>>,
}

impl Model for Graph {
    ghost use Rattle.std.specs.Prelude.{List, ℕ};
    ghost use Rattle.definition_graph.specs.Reaching.{IsGraph};
    ghost use Rattle.definition_graph.specs.inside.Rows.{rows_of};

    ghost Value = { List (List ℕ) };

    ghost view = { λ it. rows_of it.rows };

    ghost invariant = { λ it. IsGraph (rows_of it.rows) };
}

impl Graph {
    ghost use Rattle.definition_graph.specs.Reaching.{IsGraph, successors};

    /// So many nodes, and no edges.
    pub fn new(alloc: Global, count: usize) -> Result<Graph, AllocError>
        ensures { IfOk result (λ g. g ≡ replicate count []) }
    {
        let mut rows = Vec::with_capacity(alloc, count)?;
        for _ in 0..count {
            rows.push(Vec::new(alloc))?;
        }
        Ok(Graph { rows })
    }

    /// An edge more: `to` is the last of the successors of `from`. Without memory the graph stays as it was.
    pub fn add_edge(&mut self, from: usize, to: usize) -> Result<(), AllocError>
        requires from { from < length self.old }
        requires to { to < length self.old }
        ensures ok { OnOk result
            (self.new ≡ slice_set self.old from (successors self.old from ++ to ∷ [])) }
        ensures err { OnErr result (self.new ≡ self.old) }
    {
        self.rows[from].push(to)?;
        Ok(())
    }

    /// How many nodes there are. Each edge leads to one of them.
    pub fn len(&self) -> usize
        ensures count { result ≡ length self.now }
        ensures sound { IsGraph self.now }
    {
        self.rows.len()
    }

    /// How many edges lead from a node.
    pub fn out_degree(&self, node: usize) -> usize
        requires { node < length self.now }
        ensures { result ≡ length (successors self.now node) }
    {
        self.rows[node].len()
    }

    /// The successor of a node at this place.
    pub fn successor(&self, node: usize, place: usize) -> usize
        requires node { node < length self.now }
        requires place { place < length (successors self.now node) }
        ensures value { result ≡ slice_index (successors self.now node) place }
        ensures within { result < length self.now }
    {
        self.rows[node][place]
    }
}

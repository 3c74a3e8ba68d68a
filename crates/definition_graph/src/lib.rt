//! Definitions as a graph: which of them contain themselves, how deep they nest, and in which order they can be worked through.
//!
//! # Definitions and what they name
//!
//! A definition may name others, and these others again:
//!
//! ```text
//! struct Menu { first: Entry, size: Size }
//! struct Entry { rest: Chain }
//! struct Chain { entry: Entry }
//! struct Size { wide: i32, high: i32 }
//! ```
//!
//! This crate knows nothing of declarations. To it a definition is a *node*, a number counted from 0, and an *edge* leads from it to
//! each definition that it names, its *successors*, in an order and with repetitions. The example is the graph
//!
//! | node | definition | successors |
//! |---|---|---|
//! | 0 | `Menu` | 1, 3 |
//! | 1 | `Entry` | 2 |
//! | 2 | `Chain` | 1 |
//! | 3 | `Size` | |
//!
//! [`Graph::new`] makes one of so many nodes without edges, and [`Graph::add_edge`] adds an edge.
//!
//! # What is asked of it
//!
//! A node *reaches* another where a chain of at least one edge leads there. A node that reaches itself is on a *cycle*: 1 and 2 are. That
//! 0 leads to a cycle is another matter: `Menu` is as impossible to lay out as `Entry`, but doesn't contain itself.
//!
//! [`Survey::of`] tells of each node
//! - whether it reaches itself: 1 and 2 do;
//! - its depth, which is how many nodes the longest chain from it has, where it leads to no cycle: 3 has the depth 1, and the others
//!   have none. Depths are exact up to 256, and 257 stands for all that are deeper;
//!
//! and gives the nodes in an order in which each that doesn't reach itself stands after its successors: 3, 2, 1, 0 is one. So
//! whoever goes through them in that order has seen to all that a definition names before it comes to the definition.
//!
//! [`totals`] goes through them so, and sums for each node that leads to no cycle what it holds, down to the last level.
//!
//! # How it is found
//!
//! One search finds the strongly connected components, in one pass and without recursion, and takes at most 6 steps for each node
//! and each edge: a contract says so, over a [`StepCounter`]. A node reaches itself exactly where an edge leads from it into its own
//! component. The definitions in `specs/` speak of chains of edges, and not of components.
#![tactic(auto)]

mod cycles;
mod depths;
mod graph;
mod search;
mod step_counter;
mod sums;
mod survey;

pub use graph::Graph;
pub use step_counter::StepCounter;
pub use sums::totals;
pub use survey::Survey;

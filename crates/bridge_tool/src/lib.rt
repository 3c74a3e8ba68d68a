//! What the value that a method or a function returns may borrow, for all methods and functions of the declarations of a foreign interface.
//!
//! ```rust
//! impl O {
//!     fn pick<'a, 'b: 'a>(&'a self, y: &'b O) -> &'a O;
//! }
//! ```
//!
//! What `pick` returns lives for `'a`, the lifetime number 0 of the method. It may be a part of whatever lives at least as long:
//! of the receiver, which is borrowed for `'a`, and of `y`, which is borrowed for `'b`, since by the bound `'b: 'a` the lifetime `'b`
//! outlives `'a`. A caller in a language without lifetimes has to keep both alive as long as the returned value, so a wrapper of it gets
//! an edge to each. `run` reads the declaration as JSON (`read_input`, docs/INPUT.md) and prints its page:
//!
//! ```text
//! callable O::pick
//!   lifetime 0 a: this, y
//!   edges: opaque this, opaque y
//! ok 1
//! ```
//!
//! `run` goes from bytes to text in three steps:
//!
//! 1. **The input** (`read_input`): the bytes spell declarations, a backend and a configuration, or they have a first fault. Then one line is
//!    printed (`decline`), and the status is 2.
//! 2. **The report** (`bridge_lowering::lower_and_borrow`): all declarations are lowered for the backend, and the rules of docs/REPORTS.md and
//!    docs/DECLARATIONS.md are tested on the way. Were `y` a `&'b Q`, the path `Q` would break the rule `UnresolvedPath` at the place `O::pick`. What
//!    is broken is told, with a report at each broken place at least (`lines`): status 1. Where nothing is, the leaves of the inputs of each method
//!    and function are found, here `this` and `y`, each with the lifetimes that it carries. Under each lifetime that the return names, here `'a`,
//!    those are listed that carry it or one that outlives it, and the edges that a wrapper holds.
//! 3. **The page** (`bridge_page::print_page`) is printed: status 0. The report stands before its first byte is written.
//!
//! Asked for `links` (`command`), it prints a line for each link of the declarations to documentation in place of steps 2 and 3, and tests no rule
//! (`docs`).
//!
//! For `gen` nothing is read: declarations are made from a number, and it is told how much their callables list (`bridge_measure`).
//!
//! What a run promises is the contract of `run`, in six clauses: the headline (0 exactly where no rule is broken, with exactly the
//! page; else 1 with the reports), completeness (the bytes settle the status, but for want of memory), what each status says, and that it
//! reads nothing where the words ask for nothing that reads, never reads past what it needs, and leaves the end of the source as it was.
//! `what_statuses_say` states what follows from the third, status by status.
#![tactic(auto)]

mod command;
mod decline;
mod docs;
mod program;
mod status;
mod text;

pub use bridge_lowering::{LowerFault, lower_and_borrow};
pub use bridge_outside::{
    Failed, MemSink, MemSource, PlainSink, PlainSource, Sink, SinkFault, Source, StdSink, StdSource,
};
pub use bridge_read::{Input, InputFault, InputKind, read_input};
pub use bridge_report::{
    BridgeReport, CallableId, CallableReport, InputPlace, LeafPath, ReportEdge, ReportEdgeKind,
    ReturnedLifetime,
};
pub use program::{run, what_statuses_say};
pub use status::Status;

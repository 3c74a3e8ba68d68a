//! Printing of reports.
//!
//! A report says which rule is broken and where. It has two lines: the place, and the rule with its text, into which its arguments are
//! woven. After all reports a line says how many they are.
//!
//! ```text
//! Lowering error in O::pick
//!   UnresolvedPath: Q names nothing
//! refused 1
//! ```
//!
//! A place is the path of the module, the item and the method, with `::` between each two. What is left out has no name: a report on a
//! module has no item, and one on an item no method. The root module, which has no segment at all, is called `root module`.
//!
//! The texts are those that `hir_reports` makes by `Display`. Here they are printed piece by piece as they are lent, so that a program
//! which ran out of memory can still say why it refuses. Where callables are declared is printed in the same way, by `put_place`.
#![tactic(auto)]

mod errors;
mod places;
mod reports;

pub use places::put_place;
pub use reports::print_reports;

//! What an explanation is.

use hir_life::LifetimeList;

/// Why a leaf is listed under a lifetime `t`, or why it isn't.
#[derive(Drop)]
pub enum Explanation {
    /// The leaf is listed: a chain of declared bounds from a lifetime that it carries to `t`, each of which is declared to
    /// outlive its successor.
    Chain(LifetimeList),
    /// The leaf isn't listed: the long lifetimes of a way to tell long from short ones that agrees with all declared bounds. `t`
    /// is long, and nothing that the leaf carries is.
    Separating(LifetimeList),
}

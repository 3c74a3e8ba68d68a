//! Whether declared lifetimes are named by identifiers.

ghost use Rattle.std.specs.Prelude.{◌≡◌, ◌≢◌, [], MatchBool};
ghost use Rattle.hir_heads.specs.Heads.{lifetime_errors};
ghost use Rattle.hir_life.specs.Declarations.{HasIdents};

use bridge_decl::LifetimeEnv;
use bridge_text::is_ident;

/// Whether each name of a declared lifetime is an identifier, so that none is told.
#[tactic(auto, using(crate::proofs::NamedLemmas::told_unnamed))]
pub fn are_named(declared: &LifetimeEnv) -> bool
    ensures idents { MatchBool result (HasIdents declared.now) (¬ (HasIdents declared.now)) }
    ensures told { MatchBool result (lifetime_errors declared.now ≡ [])
        (lifetime_errors declared.now ≢ []) }
{
    all_named(declared)
}

fn all_named(declared: &LifetimeEnv) -> bool
    ensures { MatchBool result (HasIdents declared.now) (¬ (HasIdents declared.now)) }
{
    for node in declared.nodes.as_slice() {
        if !is_ident(node.name.as_str()) {
            return false;
        }
    }
    true
}

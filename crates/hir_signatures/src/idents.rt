//! Whether the names of declared lifetimes are identifiers.

ghost use Rattle.std.specs.Prelude.{MatchBool};
ghost use Rattle.hir_life.specs.Declarations.{HasIdents};

use bridge_decl::LifetimeEnv;
use bridge_text::is_ident;

/// Whether each name of a declared lifetime is an identifier.
pub fn have_idents(declared: &LifetimeEnv) -> bool
    ensures { MatchBool result (HasIdents declared.now) (¬ (HasIdents declared.now)) }
{
    for node in declared.nodes.as_slice() {
        if !is_ident(node.name.as_str()) {
            return false;
        }
    }
    true
}

//! Laws that callers may rely on: each is the contract of a function without a body.

ghost use Rattle.std.specs.Prelude.{◌↔◌, ℕ, List, IsTrue};
ghost use Rattle.bridge_text.specs.Ident.{IsIdent};
ghost use Rattle.hir_heads.specs.Names.{is_ident};

/// The test by which names are told and the relation that says which are identifiers agree.
pub fn identifiers_are_tested()
    ensures { (name : List ℕ) → IsTrue (is_ident name) ↔ IsIdent name }
{}

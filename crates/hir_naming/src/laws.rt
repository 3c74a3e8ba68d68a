//! What paths mean: each law is the contract of a function without a body.

ghost use Rattle.std.specs.Prelude.{◌≡◌, ◌<◌, ℕ, List, length};
ghost use Rattle.bridge_decl.specs.declared.modules.Module.{Module};
ghost use Rattle.bridge_ast.specs.Sound.{AreSound};
ghost use Rattle.hir_naming.specs.Meaning.{naming_of};
ghost use Rattle.hir_number.specs.Naming.{IsNaming, Naming};

/// In modules that fit together, as those of each environment do, the function of `specs/Meaning`
/// says of each path of each module exactly what it names by the cases of the Rust Reference, and
/// says nothing where it names nothing.
pub fn every_path_has_a_meaning()
    ensures { (modules : List Module) → AreSound modules → (number : ℕ)
        → number < length modules → IsNaming modules number (naming_of modules number) }
{}

/// Two namings of a module say the same of each path, so what holds of one holds of all.
pub fn namings_agree()
    ensures types { (modules : List Module) (number : ℕ) (one other : Naming)
        (path : List (List ℕ)) → IsNaming modules number one → IsNaming modules number other
        → one.type_at path ≡ other.type_at path }
    ensures traits { (modules : List Module) (number : ℕ) (one other : Naming)
        (path : List (List ℕ)) → IsNaming modules number one → IsNaming modules number other
        → one.trait_at path ≡ other.trait_at path }
{}

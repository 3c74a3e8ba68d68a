//! A law that callers may rely on: the contract of a function without a body.

ghost use Rattle.std.specs.Prelude.{◌⊎◌, ◌++◌, List, Bool, IsTrue};
ghost use Rattle.std.specs.List.{Contains, flat_map};
ghost use Rattle.bridge_telling.specs.Telling.{TellsExactly};

/// Of two lists that tell exactly what passes a test, one behind the other, all that is told is
/// what passes either; and where each thing in a list has such a list, all that is told is what
/// passes the test of one of them.
pub fn lists_tell_what_parts_do<X, E>()
    ensures both { (xs ys : List E) (p q : E → Bool) → TellsExactly xs (λ e. IsTrue (p e))
        → TellsExactly ys (λ e. IsTrue (q e))
        → TellsExactly (xs ++ ys) (λ e. IsTrue (p e) ⊎ IsTrue (q e)) }
    ensures each { (told : X → List E) (p : X → E → Bool) (xs : List X)
        → ((x : X) → TellsExactly (told x) (λ e. IsTrue (p x e)))
        → TellsExactly (flat_map told xs) (λ e. (x : X) × (Contains xs x × IsTrue (p x e))) }
{}

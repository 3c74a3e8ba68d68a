//! What lowers lifetimes, in whatever place they are used.

ghost use Rattle.std.specs.Prelude.{◌≡◌, ◌∷◌, [], ◌≤◌, IfOk, OnOk, IsErrOf, length, true};
ghost use Rattle.hir_elide.specs.Generics.{IsUnlessNoMemory, OwnHasArity, all_or_fault, filled, lowered_generics, with_generics};
ghost use Rattle.hir_elide.specs.Occurrences.{Signature, count_of};
ghost use Rattle.hir_elide.specs.Phases.{Phase, lowered, lowered_each, with_uses};
ghost use Rattle.hir_life.specs.Substitution.{AreBelow, IsBelow};

use crate::fault::ElideFault;
use crate::generics::lower_each;
use bridge_decl::{Lifetime as Written, LifetimeEnv};
use hir_life::{Lifetime, Lifetimes, MaybeStatic};
use std::alloc::Global;

/// What stands for a signature, or for a definition, as far as it was gone through.
pub trait StandsFor {
    /// What was gone through so far.
    ghost stands: { Self → Signature → Type 0 };
}

/// Lowers lifetimes in the order in which they are used: each to its number, or to `'static`. A number that is given is below
/// the count of the lifetimes so far, which is no more than that of all.
///
/// Where there is no memory a lowerer stays as it was. After any other fault it is let go: what it would answer then isn't said.
pub trait LowerLifetime: StandsFor {
    /// Where the lifetimes are used.
    ghost phase: { Phase };

    /// The lifetime that is used next. No memory is taken.
    fn lower_lifetime(&mut self, lifetime: &Written) -> Result<MaybeStatic<Lifetime>, ElideFault>
        ensures told { (s : Signature) → Self.stands self.old s
            → result ≡ lowered phase s lifetime.now }
        ensures kept { (s : Signature) → Self.stands self.old s
            → OnOk result (Self.stands self.new (with_uses phase s (lifetime.now ∷ []))) }
        ensures within { (s : Signature) → Self.stands self.old s
            → IfOk result (IsBelow (count_of (with_uses phase s (lifetime.now ∷ [])))) }
        ensures memory { ¬ (IsErrOf result ElideFault.NoMemory) };
}

/// Lowers the generics of paths too.
pub trait LifetimeLowerer: LowerLifetime {
    /// The generics of a path that are used next, in order. Those that the path doesn't write are anonymous, up to as many
    /// as its definition has, so that as many come back.
    fn lower_lifetimes(
        &mut self,
        alloc: Global,
        lifetimes: &[Written],
        type_generics: &LifetimeEnv,
    ) -> Result<Lifetimes, ElideFault>
        requires { length lifetimes.now ≤ length type_generics.now.nodes }
        ensures told { (s : Signature) → Self.stands self.old s
            → IsUnlessNoMemory result
            (all_or_fault (lowered_each Self.phase s (filled lifetimes.now
            (length type_generics.now.nodes)))) }
        ensures kept { (s : Signature) → Self.stands self.old s
            → OnOk result (Self.stands self.new (with_uses Self.phase s (filled lifetimes.now
            (length type_generics.now.nodes)))) }
        ensures within { (s : Signature) → Self.stands self.old s
            → IfOk result (AreBelow (count_of (with_uses Self.phase s (filled lifetimes.now
            (length type_generics.now.nodes))))) }
        ensures memory { IsErrOf result ElideFault.NoMemory → self.new ≡ self.old }
        ensures arity { IfOk result
            (λ numbers. length numbers ≡ length type_generics.now.nodes) }
    {
        lower_each(alloc, self, lifetimes, type_generics.nodes.len())
    }

    /// The same, where the path may be that of `Self`: in a signature `Self` has the same lifetimes wherever it stands, and
    /// they don't count for elision.
    fn lower_generics(
        &mut self,
        alloc: Global,
        lifetimes: &[Written],
        type_generics: &LifetimeEnv,
        is_self: bool,
    ) -> Result<Lifetimes, ElideFault>
        requires { length lifetimes.now ≤ length type_generics.now.nodes }
        ensures told { (s : Signature) → Self.stands self.old s
            → IsUnlessNoMemory result (all_or_fault (lowered_generics Self.phase is_self s
            (filled lifetimes.now (length type_generics.now.nodes)))) }
        ensures kept { (s : Signature) → Self.stands self.old s
            → OnOk result (Self.stands self.new (with_generics Self.phase is_self s
            (filled lifetimes.now (length type_generics.now.nodes)))) }
        ensures within { (s : Signature) → Self.stands self.old s
            → IfOk result (AreBelow (count_of (with_generics Self.phase is_self s
            (filled lifetimes.now (length type_generics.now.nodes))))) }
        ensures memory { IsErrOf result ElideFault.NoMemory → self.new ≡ self.old }
        ensures arity { (s : Signature) → Self.stands self.old s
            → (is_self ≡ true → OwnHasArity s (length type_generics.now.nodes))
            → IfOk result (λ numbers. length numbers ≡ length type_generics.now.nodes) };
}

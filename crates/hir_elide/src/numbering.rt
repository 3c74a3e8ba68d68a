//! Numbers of lifetimes, as far as a signature was gone through.

ghost use Rattle.std.specs.Prelude.{◌≡◌, ◌≤◌, ◌∷◌, [], Ok, IfOk, OnOk, IsErrOf, length, map};
ghost use Rattle.bridge_decl.specs.Lifetimes.{lifetime_names};
ghost use Rattle.bridge_text.specs.NameIndex.{number_of};
ghost use Rattle.bridge_decl.specs.declared.lifetimes.Lifetime.TheVariants as written;
ghost use Rattle.hir_elide.specs.Generics.{IsUnlessNoMemory, OwnHasArity, all_or_fault, filled, own_numbers, with_own};
ghost use Rattle.hir_elide.specs.Numbering.{lifetime_number, name_number, within_most};
ghost use Rattle.hir_elide.specs.Occurrences.{Role, Own, Signature, count_of};
ghost use Rattle.hir_elide.specs.Phases.{Using, lowered_each, with_uses};
ghost use Rattle.hir_life.specs.Substitution.{AreBelow};

use crate::fault::ElideFault;
use crate::generics::{copied, lower_each, room_for};
use crate::lowerer::{LowerLifetime, StandsFor};
use bridge_decl::{Lifetime as Written, LifetimeEnv, NameIndex, Text};
use hir_life::{self, Lifetime, Lifetimes, MaybeStatic};
use std::alloc::Global;

/// The most lifetimes that a signature or a definition may have.
pub const MOST_LIFETIMES: usize = 4095;

/// The number, where a lifetime may have it.
pub fn within_most(number: usize) -> Result<MaybeStatic<Lifetime>, ElideFault>
    ensures told { result ≡ within_most number }
    ensures memory { ¬ (IsErrOf result ElideFault.NoMemory) }
{
    if number < MOST_LIFETIMES {
        Ok(MaybeStatic::NonStatic(Lifetime::new(number)))
    } else {
        Err(ElideFault::TooManyLifetimes)
    }
}

/// What all phases share.
#[derive(Drop)]
pub struct Numbering {
    /// The places of the declared names.
    pub names: NameIndex<usize>,
    /// The lifetimes that have a number.
    pub lifetimes: hir_life::LifetimeEnv,
    /// The generics of `Self`, where it was met.
    pub own: Option<Lifetimes>,
}

impl Numbering {
    ghost use Rattle.hir_elide.specs.inside.Standing.{Numbers};

    /// The number of a declared name.
    pub fn named(&self, name: &Text) -> Result<MaybeStatic<Lifetime>, ElideFault>
        ensures told { (s : Signature) → Numbers self.now s
            → result ≡ name_number (number_of (lifetime_names s.declared) name.now) }
        ensures memory { ¬ (IsErrOf result ElideFault.NoMemory) }
    {
        match self.names.get(name) {
            Some(place) => within_most(*place),
            None => Err(ElideFault::LifetimeUnknown),
        }
    }

    /// The number of a new anonymous lifetime.
    fn anonymous(&mut self) -> Result<MaybeStatic<Lifetime>, ElideFault>
        ensures told { (s : Signature) → Numbers self.old s
            → result ≡ within_most (count_of s) }
        ensures kept { (s : Signature) (role : Role) → Numbers self.old s
            → OnOk result
            (Numbers self.new (with_uses (Using role) s (written.Anonymous ∷ []))) }
        ensures memory { ¬ (IsErrOf result ElideFault.NoMemory) }
        ensures own { self.new.own ≡ self.old.own }
    {
        if self.lifetimes.num_lifetimes() >= MOST_LIFETIMES {
            return Err(ElideFault::TooManyLifetimes);
        }
        Ok(MaybeStatic::NonStatic(self.lifetimes.add_anonymous()))
    }

    /// The number of a lifetime that is used next.
    pub fn number(&mut self, lifetime: &Written) -> Result<MaybeStatic<Lifetime>, ElideFault>
        ensures told { (s : Signature) → Numbers self.old s
            → result ≡ lifetime_number (lifetime_names s.declared) (count_of s) lifetime.now }
        ensures kept { (s : Signature) (role : Role) → Numbers self.old s
            → OnOk result (Numbers self.new (with_uses (Using role) s (lifetime.now ∷ []))) }
        ensures memory { ¬ (IsErrOf result ElideFault.NoMemory) }
        ensures own { self.new.own ≡ self.old.own }
    {
        match lifetime {
            Written::Static => Ok(MaybeStatic::Static),
            Written::Named(name) => self.named(name),
            Written::Anonymous => self.anonymous(),
        }
    }
}

impl StandsFor for Numbering {
    ghost use Rattle.hir_elide.specs.inside.Standing.{Numbers};

    ghost stands = { λ it s. Numbers it s };
}

/// The generics of `Self` where it is met first.
impl LowerLifetime for Numbering {
    ghost phase = { Using Own };

    fn lower_lifetime(&mut self, lifetime: &Written) -> Result<MaybeStatic<Lifetime>, ElideFault> {
        self.number(lifetime)
    }
}

impl Numbering {
    ghost use Rattle.hir_elide.specs.inside.Standing.{IsOwn, Numbers};

    /// The generics of `Self`: those of its first occurrence, where it was met, and else these.
    pub fn lower_own(
        &mut self,
        alloc: Global,
        lifetimes: &[Written],
        type_generics: &LifetimeEnv,
    ) -> Result<Lifetimes, ElideFault>
        requires { length lifetimes.now ≤ length type_generics.now.nodes }
        ensures told { (s : Signature) → Numbers self.old s → IsOwn self.old.own s
            → IsUnlessNoMemory result
            (all_or_fault (own_numbers s.has_self s (filled lifetimes.now
            (length type_generics.now.nodes)))) }
        ensures kept { (s : Signature) → Numbers self.old s → IsOwn self.old.own s
            → OnOk result
            (Numbers self.new (with_own s.has_self s (filled lifetimes.now
            (length type_generics.now.nodes)))) }
        ensures within { (s : Signature) → Numbers self.old s → IsOwn self.old.own s
            → IfOk result (AreBelow (count_of (with_own s.has_self s (filled lifetimes.now
            (length type_generics.now.nodes))))) }
        ensures own { (s : Signature) → Numbers self.old s → IsOwn self.old.own s
            → OnOk result
            (IsOwn self.new.own (with_own s.has_self s (filled lifetimes.now
            (length type_generics.now.nodes)))) }
        ensures memory { IsErrOf result ElideFault.NoMemory → self.new ≡ self.old }
        ensures arity { (s : Signature) → Numbers self.old s → IsOwn self.old.own s
            → OwnHasArity s (length type_generics.now.nodes)
            → IfOk result (λ numbers. length numbers ≡ length type_generics.now.nodes) }
    {
        match &self.own {
            Some(own) => Ok(own.try_clone(alloc)?),
            None => self.first_own(alloc, lifetimes, type_generics),
        }
    }

    /// The generics of `Self` where it wasn't met.
    fn first_own(
        &mut self,
        alloc: Global,
        lifetimes: &[Written],
        type_generics: &LifetimeEnv,
    ) -> Result<Lifetimes, ElideFault>
        requires { length lifetimes.now ≤ length type_generics.now.nodes }
        ensures told { (s : Signature) → Numbers self.old s
            → IsUnlessNoMemory result
            (all_or_fault (lowered_each (Using Own) s (filled lifetimes.now
            (length type_generics.now.nodes)))) }
        ensures kept { (s : Signature) → Numbers self.old s
            → OnOk result
            (Numbers self.new (with_uses (Using Own) s (filled lifetimes.now
            (length type_generics.now.nodes)))) }
        ensures own { (s : Signature) → Numbers self.old s
            → IfOk result (λ numbers. (self.new.own ≡ Some numbers)
            × (lowered_each (Using Own) s (filled lifetimes.now (length type_generics.now.nodes))
            ≡ map Ok numbers)) }
        ensures memory { IsErrOf result ElideFault.NoMemory → self.new ≡ self.old }
        ensures arity { IfOk result
            (λ numbers. length numbers ≡ length type_generics.now.nodes) }
    {
        let count = type_generics.nodes.len();
        let room = room_for(alloc, count)?;
        let own = lower_each(alloc, self, lifetimes, count)?;
        let copy = copied(&own, room);
        self.own = Some(own);
        Ok(copy)
    }
}

//! What a return names: its types, and their lifetimes.

ghost use Rattle.std.specs.Prelude.{◌≡◌, IfOk, OnOk, option_copied};
ghost use Rattle.std.specs.Fn.{CalledAt};
ghost use Rattle.std.specs.List.{FoldsTo};
ghost use Rattle.hir_types.specs.Named.{ListsNumbers, contained, lifetimes_in, if_any, lifetimes_named};
ghost use Rattle.hir_types.specs.inside.Numbers.{with_number, with_numbers};

use crate::positions::OutputOnly;
use crate::returns::ReturnType;
use crate::types::OutType;
use bridge_decl::NoMemory;
use hir_life::{Lifetime, MaybeStatic};
use std::alloc::Global;
use std::collections::BTreeSet;

/// Adds the number to the set, where there is one.
fn add_number(
    numbers: &mut BTreeSet<Lifetime>,
    lifetime: MaybeStatic<Lifetime>,
) -> Result<(), NoMemory>
    ensures { OnOk result (numbers.new.keys ≡ with_number numbers.old.keys lifetime) }
{
    match lifetime {
        MaybeStatic::Static => Ok(()),
        MaybeStatic::NonStatic(lifetime) => {
            numbers.insert(lifetime)?;
            Ok(())
        }
    }
}

/// Adds the numbers of the type's lifetimes to the set, where there is a type.
fn add_numbers(numbers: &mut BTreeSet<Lifetime>, ty: Option<&OutType>) -> Result<(), NoMemory>
    ensures { OnOk result (numbers.new.keys
        ≡ with_numbers numbers.old.keys (lifetimes_in (option_copied ty.entry))) }
{
    match ty {
        None => Ok(()),
        Some(ty) => add_all(numbers, ty),
    }
}

/// Adds the numbers of the type's lifetimes to the set.
fn add_all(numbers: &mut BTreeSet<Lifetime>, ty: &OutType) -> Result<(), NoMemory>
    ensures { OnOk result (numbers.new.keys
        ≡ with_numbers numbers.old.keys (lifetimes_in (Some ty.now))) }
{
    for lifetime in ty.lifetimes() {
        add_number(numbers, lifetime)?;
    }
    Ok(())
}

/// Calls the function at the type, where there is one.
fn visit<F: FnMut(&OutType)>(f: &mut F, ty: Option<&OutType>)
    requires { F.IsAlwaysCallable f.old }
    ensures called { FoldsTo (λ p ty q. CalledAt F.FnMut p ty tt q) f.old
        (if_any (option_copied ty.entry)) f.new }
    ensures callable { F.IsAlwaysCallable f.new }
{
    if let Some(ty) = ty {
        f(ty);
    }
}

impl ReturnType<OutputOnly> {
    /// Calls the function at the type of the success and then at that of the error, where there
    /// are these.
    pub fn with_contained_types<F: FnMut(&OutType)>(&self, mut f: F)
        requires { F.IsAlwaysCallable f }
        ensures { (last : F)
            × FoldsTo (λ p ty q. CalledAt F.FnMut p ty tt q) f (contained self.now) last }
    {
        visit(&mut f, self.success_type().as_type());
        visit(&mut f, self.error_type());
    }

    /// The lifetimes of the method that its return names, in ascending order: those of the types
    /// of its success and its error. `'static` has no number, and isn't among them.
    pub fn used_method_lifetimes(&self, alloc: Global) -> Result<BTreeSet<Lifetime>, NoMemory>
        ensures { IfOk result (λ numbers. ListsNumbers numbers.keys (lifetimes_named self.now)) }
    {
        let mut numbers = BTreeSet::new(alloc);
        add_numbers(&mut numbers, self.success_type().as_type())?;
        add_numbers(&mut numbers, self.error_type())?;
        // A set is in order, as its length says.
        let _count = numbers.len();
        Ok(numbers)
    }
}

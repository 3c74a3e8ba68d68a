//! What has to outlive a lifetime of a method that has a name.

ghost use Rattle.std.specs.Prelude.{◌≡◌, ◌∷◌, [], IfOk, OnOk, option_map, slice_get, ◌<◌};
ghost use Rattle.std.specs.List.{flat_map};
ghost use Rattle.hir_reports.specs.Store.{added};
ghost use Rattle.hir_validation.specs.ImpliedBounds.{bound_error, lacks_bound, numbered_outliving_errors, outliving_errors};

use crate::direct::DirectBounds;
use crate::returned::lifetime_text;
use bridge_decl::{Items, NoMemory, Text};
use hir_life::{BoundedLifetime, Lifetime, MaybeStatic};
use hir_reports::{ErrorStore, LoweringError, Rule};
use std::alloc::Global;
use std::marker::Model;

/// A lifetime of a method that has a name, and where it is asked that others outlive it.
#[derive(Drop)]
pub(crate) struct Shorter<'m> {
    direct: &'m DirectBounds<'m>,
    source: &'m str,
    number: Lifetime,
    bounds: &'m BoundedLifetime,
}

impl<'m> Model for Shorter<'m> {
    ghost use Rattle.std.specs.Prelude.{◌≡◌, ◌<◌, Some, slice_get};
    ghost use Rattle.hir_validation.specs.inside.Seen.{NamedLifetime};

    ghost Value = { NamedLifetime };

    ghost view = { λ it. record {
      env = it.direct.now;
      source = it.source.now;
      number = it.number;
      bounds = it.bounds.now;
    } };

    ghost invariant = { λ it. (it.number < it.direct.now.count)
        × (slice_get it.direct.now.bounds it.number ≡ Some it.bounds.now) };
}

impl<'m> Shorter<'m> {
    /// Whether the lifetime has to outlive it, and isn't declared to.
    fn lacks(&self, lifetime: Lifetime) -> bool
        ensures { result ≡ lacks_bound self.now.env self.now.number self.now.bounds lifetime }
    {
        lifetime.index() != self.number.index()
            && !self.direct.has(lifetime, self.number)
            && self.direct.env().contains(lifetime)
    }

    /// The error that a bound is wanting which a definition writes, between lifetimes of these names.
    fn written_error(
        &self,
        alloc: Global,
        lifetime: Lifetime,
        longer: &BoundedLifetime,
        shorter: &BoundedLifetime,
    ) -> Result<LoweringError, NoMemory>
        requires { lifetime < self.now.env.count }
        ensures { IfOk result (λ error. error ≡ bound_error self.now.env self.now.source
            self.now.number lifetime (longer.now.ident ∷ shorter.now.ident ∷ [])) }
    {
        let above = lifetime_text(alloc, self.direct.env(), lifetime)?;
        let below = lifetime_text(alloc, self.direct.env(), self.number)?;
        let mut args = Items::new(alloc);
        args.push(Text::new(alloc, self.source)?)?;
        args.push(above)?;
        args.push(below)?;
        args.push(Text::new(alloc, longer.ident.as_str())?)?;
        args.push(Text::new(alloc, shorter.ident.as_str())?)?;
        Ok(LoweringError {
            rule: Rule::ImpliedBound,
            args,
        })
    }

    /// The error that a bound is wanting which a reference implies.
    fn behind_error(&self, alloc: Global, lifetime: Lifetime) -> Result<LoweringError, NoMemory>
        requires { lifetime < self.now.env.count }
        ensures { IfOk result (λ error. error
            ≡ bound_error self.now.env self.now.source self.now.number lifetime []) }
    {
        let above = lifetime_text(alloc, self.direct.env(), lifetime)?;
        let below = lifetime_text(alloc, self.direct.env(), self.number)?;
        let mut args = Items::new(alloc);
        args.push(Text::new(alloc, self.source)?)?;
        args.push(above)?;
        args.push(below)?;
        Ok(LoweringError {
            rule: Rule::ImpliedBound,
            args,
        })
    }

    /// Tells that a bound is wanting, where it is.
    fn tell_written_number(
        &self,
        alloc: Global,
        longer: &BoundedLifetime,
        shorter: &BoundedLifetime,
        lifetime: Lifetime,
        errors: &mut ErrorStore<'_>,
    ) -> Result<(), NoMemory>
        ensures { OnOk result (errors.new ≡ added errors.old
            (numbered_outliving_errors self.now.env self.now.source self.now.number self.now.bounds
            (longer.now.ident ∷ shorter.now.ident ∷ []) lifetime)) }
    {
        if self.lacks(lifetime) {
            let error = self.written_error(alloc, lifetime, longer, shorter)?;
            return errors.push(error);
        }
        Ok(())
    }

    /// The same of what may be `'static`.
    pub(crate) fn tell_written(
        &self,
        alloc: Global,
        longer: &BoundedLifetime,
        shorter: &BoundedLifetime,
        lifetime: &MaybeStatic<Lifetime>,
        errors: &mut ErrorStore<'_>,
    ) -> Result<(), NoMemory>
        ensures { OnOk result (errors.new ≡ added errors.old
            (outliving_errors self.now.env self.now.source self.now.number self.now.bounds
            (longer.now.ident ∷ shorter.now.ident ∷ []) lifetime.now)) }
    {
        match lifetime {
            MaybeStatic::Static => Ok(()),
            MaybeStatic::NonStatic(lifetime) => {
                self.tell_written_number(alloc, longer, shorter, *lifetime, errors)
            }
        }
    }

    /// Tells that a bound is wanting which a reference implies, where it is.
    fn tell_behind_number(
        &self,
        alloc: Global,
        lifetime: Lifetime,
        errors: &mut ErrorStore<'_>,
    ) -> Result<(), NoMemory>
        ensures { OnOk result (errors.new ≡ added errors.old (numbered_outliving_errors
            self.now.env self.now.source self.now.number self.now.bounds [] lifetime)) }
    {
        if self.lacks(lifetime) {
            let error = self.behind_error(alloc, lifetime)?;
            return errors.push(error);
        }
        Ok(())
    }

    /// The same of what may be `'static`.
    fn tell_behind(
        &self,
        alloc: Global,
        lifetime: &MaybeStatic<Lifetime>,
        errors: &mut ErrorStore<'_>,
    ) -> Result<(), NoMemory>
        ensures { OnOk result (errors.new ≡ added errors.old (outliving_errors self.now.env
            self.now.source self.now.number self.now.bounds [] lifetime.now)) }
    {
        match lifetime {
            MaybeStatic::Static => Ok(()),
            MaybeStatic::NonStatic(lifetime) => self.tell_behind_number(alloc, *lifetime, errors),
        }
    }

    /// The same of each that the reference leads to.
    pub(crate) fn tell_each_behind(
        &self,
        alloc: Global,
        given: &[MaybeStatic<Lifetime>],
        errors: &mut ErrorStore<'_>,
    ) -> Result<(), NoMemory>
        ensures { OnOk result (errors.new ≡ added errors.old (flat_map (outliving_errors
            self.now.env self.now.source self.now.number self.now.bounds []) given.now)) }
    {
        for lifetime in given {
            self.tell_behind(alloc, lifetime, errors)?;
        }
        Ok(())
    }
}

/// The lifetime of that number, where it has a name.
pub(crate) fn shorter_of<'m>(
    direct: &'m DirectBounds<'m>,
    source: &'m str,
    number: Lifetime,
) -> Option<Shorter<'m>>
    ensures { result ≡ option_map (λ bounds. record {
      env = direct.now;
      source = source.now;
      number = number;
      bounds = bounds;
    }) (slice_get direct.now.bounds number) }
{
    let env = direct.env();
    let _named = env.num_lifetimes();
    match env.get_bounds(number) {
        Some(bounds) => Some(Shorter {
            direct,
            source,
            number,
            bounds,
        }),
        None => None,
    }
}

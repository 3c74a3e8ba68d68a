//! Lifetimes that a method of a type returns.

ghost use Rattle.std.specs.Prelude.{◌≡◌, ◌<◌, ◌||◌, ℕ, false, not, IfOk, OnOk};
ghost use Rattle.std.specs.BTreeSet as sorted;
ghost use Rattle.std.specs.List.{flat_map};
ghost use Rattle.std.specs.Ordering.{nat_cmp};
ghost use Rattle.hir_life.specs.Naming.{printed_name};
ghost use Rattle.hir_reports.specs.Store.{added};
ghost use Rattle.hir_types.specs.Named.{lifetimes_named};
ghost use Rattle.hir_validation.specs.Lifetimes.{is_lifetime, is_numbered, is_returned, where_number};
ghost use Rattle.hir_validation.specs.Returned.{comes_back, element_lifetime_errors, method_returned_errors, numbered_element_errors, opaque_element_errors, param_lifetimes, returned_input_errors, returned_lifetime_errors, returned_param_errors, returned_receiver_errors, returned_reference_errors, returned_self_errors, returned_whole_errors, unknown_element_errors};
ghost use Rattle.hir_validation.specs.WholeTypes.{whole_type};

use crate::whole::{WholeType, whole_type};
use bridge_decl::{NoMemory, Text};
use hir_definitions::{Method, Param, ParamSelf};
use hir_ids::{MaybeOwn, TypeId};
use hir_life::{Lifetime, LifetimeEnv, MaybeStatic};
use hir_reports::{ErrorStore, LoweringError, Rule};
use hir_types::{HirType, InputOnly, OutputOnly, PositionTypes, ReturnType, SelfType};
use std::alloc::Global;
use std::collections::BTreeSet;
use std::marker::Model;

/// The lifetimes of a method, and which of them it returns.
#[derive(Drop)]
pub(crate) struct ReturnedLifetimes<'m> {
    env: &'m LifetimeEnv,
    output: &'m ReturnType<OutputOnly>,
    returned: BTreeSet<Lifetime>,
}

impl<'m> Model for ReturnedLifetimes<'m> {
    ghost use Rattle.std.specs.Prelude.{◌≡◌, ℕ};
    ghost use Rattle.std.specs.BTreeSet as sorted;
    ghost use Rattle.std.specs.Ordering.{nat_cmp};
    ghost use Rattle.hir_types.specs.Named.{lifetimes_named};
    ghost use Rattle.hir_validation.specs.Lifetimes.{is_lifetime, is_numbered, is_returned, where_number};
    ghost use Rattle.hir_validation.specs.inside.Seen.{WithReturned};

    ghost Value = { WithReturned };

    ghost view = { λ it. record { env = it.env.now; returned = lifetimes_named it.output.now } };

    ghost invariant = { λ it. (l : ℕ) → sorted.contains nat_cmp it.returned l
        ≡ is_returned (lifetimes_named it.output.now) l };
}

/// The numbers of the lifetimes that are returned, as a set.
fn returned_set(
    alloc: Global,
    output: &ReturnType<OutputOnly>,
) -> Result<BTreeSet<Lifetime>, NoMemory>
    ensures { IfOk result (λ set. (l : ℕ) → sorted.contains nat_cmp set l
        ≡ is_returned (lifetimes_named output.now) l) }
{
    output.used_method_lifetimes(alloc)
}

/// What a lifetime is called.
pub(crate) fn lifetime_text(
    alloc: Global,
    env: &LifetimeEnv,
    lifetime: Lifetime,
) -> Result<Text, NoMemory>
    requires { lifetime < env.now.count }
    ensures { IfOk result (λ text. text ≡ printed_name env.now lifetime) }
{
    let name = env.fmt_lifetime(lifetime);
    Ok(Text::from(format!(in alloc; "{name}")?))
}

/// Notes that the lifetime is known, and answers whether it wasn't.
pub(crate) fn note(known: &mut BTreeSet<Lifetime>, lifetime: Lifetime) -> Result<bool, NoMemory>
    ensures first { IfOk result
        (λ first. first ≡ not (sorted.contains nat_cmp known.old lifetime)) }
    ensures known { OnOk result ((l : ℕ) → sorted.contains nat_cmp known.new l
        ≡ (sorted.contains nat_cmp known.old l || is_lifetime lifetime l)) }
{
    Ok(known.insert(lifetime)?)
}

impl<'m> ReturnedLifetimes<'m> {
    /// Those of a method.
    pub(crate) fn of(alloc: Global, method: &'m Method) -> Result<ReturnedLifetimes<'m>, NoMemory>
        ensures { IfOk result (λ it. it ≡ record {
          env = method.now.lifetime_env;
          returned = lifetimes_named method.now.output;
        }) }
    {
        let returned = returned_set(alloc, &method.output)?;
        Ok(ReturnedLifetimes {
            env: &method.lifetime_env,
            output: &method.output,
            returned,
        })
    }

    /// Whether the lifetime is returned.
    fn is_returned(&self, lifetime: Lifetime) -> bool
        ensures { result ≡ is_returned self.now.returned lifetime }
    {
        self.returned.contains(&lifetime)
    }

    /// Whether it is besides one of the method's.
    fn comes_back(&self, lifetime: Lifetime) -> bool
        ensures { result ≡ comes_back self.now.env self.now.returned lifetime }
    {
        self.is_returned(lifetime) && self.env.contains(lifetime)
    }

    /// Tells that the lifetime is that of a reference to a struct, where it is returned.
    fn tell_lifetime(
        &self,
        alloc: Global,
        lifetime: Lifetime,
        errors: &mut ErrorStore<'_>,
    ) -> Result<(), NoMemory>
        ensures { OnOk result (errors.new ≡ added errors.old
            (returned_lifetime_errors self.now.env self.now.returned lifetime)) }
    {
        if self.comes_back(lifetime) {
            let name = lifetime_text(alloc, self.env, lifetime)?;
            let args = [name.as_str()];
            return errors.push(LoweringError::new(alloc, Rule::StructRefReturned, &args)?);
        }
        Ok(())
    }

    /// Tells of a struct that is held so, where the lifetime of its reference is returned.
    fn tell_reference(
        &self,
        alloc: Global,
        held: &MaybeOwn,
        errors: &mut ErrorStore<'_>,
    ) -> Result<(), NoMemory>
        ensures { OnOk result (errors.new ≡ added errors.old
            (returned_reference_errors self.now.env self.now.returned held.now)) }
    {
        match held {
            MaybeOwn::Own => Ok(()),
            MaybeOwn::Borrow(borrow) => match borrow.lifetime {
                MaybeStatic::Static => Ok(()),
                MaybeStatic::NonStatic(lifetime) => self.tell_lifetime(alloc, lifetime, errors),
            },
        }
    }

    /// The same of the type of a receiver.
    fn tell_self(
        &self,
        alloc: Global,
        ty: &SelfType,
        errors: &mut ErrorStore<'_>,
    ) -> Result<(), NoMemory>
        ensures { OnOk result (errors.new ≡ added errors.old
            (returned_self_errors self.now.env self.now.returned ty.now)) }
    {
        match ty {
            SelfType::Struct(path) => self.tell_reference(alloc, &path.owner, errors),
            SelfType::Opaque(_) | SelfType::Enum(_) => Ok(()),
        }
    }

    /// The same of a receiver, where there is one.
    fn tell_receiver(
        &self,
        alloc: Global,
        receiver: &Option<ParamSelf>,
        errors: &mut ErrorStore<'_>,
    ) -> Result<(), NoMemory>
        ensures { OnOk result (errors.new ≡ added errors.old
            (returned_receiver_errors self.now.env self.now.returned receiver.now)) }
    {
        match receiver {
            Some(receiver) => self.tell_self(alloc, &receiver.ty, errors),
            None => Ok(()),
        }
    }

    /// Tells that a slice of opaques has the lifetime, where it is returned.
    fn tell_element(
        &self,
        alloc: Global,
        name: &str,
        lifetime: Lifetime,
        errors: &mut ErrorStore<'_>,
    ) -> Result<(), NoMemory>
        ensures { OnOk result (errors.new ≡ added errors.old
            (numbered_element_errors self.now.env self.now.returned name.now lifetime)) }
    {
        if self.comes_back(lifetime) {
            let printed = lifetime_text(alloc, self.env, lifetime)?;
            let args = [name, printed.as_str()];
            return errors.push(LoweringError::new(alloc, Rule::OpaqueSliceBorrowed, &args)?);
        }
        Ok(())
    }

    /// The same of a lifetime that isn't known, which then is.
    fn tell_unknown(
        &self,
        alloc: Global,
        name: &str,
        lifetime: MaybeStatic<Lifetime>,
        known: &mut BTreeSet<Lifetime>,
        errors: &mut ErrorStore<'_>,
    ) -> Result<(), NoMemory>
        ensures known { OnOk result ((l : ℕ) → sorted.contains nat_cmp known.new l
            ≡ (sorted.contains nat_cmp known.old l || is_numbered l lifetime)) }
        ensures told { OnOk result (errors.new ≡ added errors.old (where_number
            (unknown_element_errors self.now.env self.now.returned
            (sorted.contains nat_cmp known.old) name.now) lifetime)) }
    {
        match lifetime {
            MaybeStatic::Static => Ok(()),
            MaybeStatic::NonStatic(lifetime) => {
                if note(known, lifetime)? {
                    self.tell_element(alloc, name, lifetime, errors)?;
                }
                Ok(())
            }
        }
    }

    /// The same of each lifetime of a slice of opaques, once.
    fn tell_elements(
        &self,
        alloc: Global,
        name: &str,
        ty: &HirType<InputOnly>,
        errors: &mut ErrorStore<'_>,
    ) -> Result<(), NoMemory>
        ensures { OnOk result (errors.new ≡ added errors.old (element_lifetime_errors
            self.now.env self.now.returned (λ l. false) name.now (param_lifetimes ty.now))) }
    {
        let mut known = BTreeSet::new(alloc);
        for lifetime in ty.lifetimes() {
            self.tell_unknown(alloc, name, lifetime, &mut known, errors)?;
        }
        Ok(())
    }

    /// Tells of a slice of these.
    fn tell_slice(
        &self,
        alloc: Global,
        name: &str,
        ty: &HirType<InputOnly>,
        element: &TypeId,
        errors: &mut ErrorStore<'_>,
    ) -> Result<(), NoMemory>
        ensures { OnOk result (errors.new ≡ added errors.old (opaque_element_errors self.now.env
            self.now.returned name.now (param_lifetimes ty.now) element.now)) }
    {
        match element {
            TypeId::Opaque(_) => self.tell_elements(alloc, name, ty, errors),
            TypeId::Struct(_) | TypeId::OutStruct(_) | TypeId::Enum(_) => Ok(()),
        }
    }

    /// Tells of a parameter of that name and this type, which is `taken` at the position where it stands.
    fn tell_whole<P: PositionTypes>(
        &self,
        alloc: Global,
        name: &str,
        ty: &HirType<P>,
        taken: &HirType<InputOnly>,
        errors: &mut ErrorStore<'_>,
    ) -> Result<(), NoMemory>
        ensures { OnOk result (errors.new ≡ added errors.old (returned_whole_errors
            self.now.env self.now.returned name.now (param_lifetimes taken.now)
            (whole_type P.OpaqueOwnership.borrow_of P.StructPath.id_of
            P.StructPath.lifetimes_of P.StructPath.held_of P.callback_of ty.now))) }
    {
        match &whole_type(ty) {
            WholeType::Struct(_, held, _) => self.tell_reference(alloc, held, errors),
            WholeType::Slice(Some(element)) => self.tell_slice(alloc, name, taken, element, errors),
            WholeType::Slice(None)
            | WholeType::Primitive
            | WholeType::Enum(_)
            | WholeType::Opaque(_, _, _)
            | WholeType::Callback(_)
            | WholeType::Other => Ok(()),
        }
    }

    /// Tells of a parameter.
    fn tell_param(
        &self,
        alloc: Global,
        param: &Param,
        errors: &mut ErrorStore<'_>,
    ) -> Result<(), NoMemory>
        ensures { OnOk result (errors.new ≡ added errors.old
            (returned_param_errors self.now.env self.now.returned param.now)) }
    {
        self.tell_whole(alloc, param.name.as_str(), &param.ty, &param.ty, errors)
    }

    /// Tells of each parameter.
    fn tell_params(
        &self,
        alloc: Global,
        params: &[Param],
        errors: &mut ErrorStore<'_>,
    ) -> Result<(), NoMemory>
        ensures { OnOk result (errors.new ≡ added errors.old (flat_map
            (returned_param_errors self.now.env self.now.returned) params.now)) }
    {
        for param in params {
            self.tell_param(alloc, param, errors)?;
        }
        Ok(())
    }

    /// Tells of the receiver and of each parameter.
    #[tactic(auto, using(hir_reports::proofs::StoreLaws::added_more))]
    fn tell_inputs(
        &self,
        alloc: Global,
        method: &Method,
        errors: &mut ErrorStore<'_>,
    ) -> Result<(), NoMemory>
        ensures { OnOk result (errors.new ≡ added errors.old (returned_input_errors self.now.env
            self.now.returned method.now.param_self method.now.params)) }
    {
        self.tell_receiver(alloc, &method.param_self, errors)?;
        self.tell_params(alloc, method.params.as_slice(), errors)
    }
}

/// Tells of the lifetimes that a method of a type returns: of those of references to structs (rule `StructRefReturned`), and of those
/// of slices of opaques (`OpaqueSliceBorrowed`).
#[tactic(auto, unfolding(crate::specs::Returned::method_returned_errors))]
pub(crate) fn tell_returned(
    alloc: Global,
    method: &Method,
    errors: &mut ErrorStore<'_>,
) -> Result<(), NoMemory>
    ensures { OnOk result (errors.new
        ≡ added errors.old (method_returned_errors method.now)) }
{
    let lifetimes = ReturnedLifetimes::of(alloc, method)?;
    lifetimes.tell_inputs(alloc, method, errors)
}

//! The types of a trait's method: what is told and made of them is given by the declaration.

ghost use Rattle.std.specs.Prelude.{◌≡◌, ◌≢◌, ◌<◌, [], IfOk, MatchBool, OnOk, length, map};
ghost use Rattle.bridge_decl.specs.Lifetimes.{IsSoundEnvironment};
ghost use Rattle.hir_heads.specs.Heads.{lifetime_errors};
ghost use Rattle.hir_methods.specs.inside.Parts.{GivenUnlessTold};
ghost use Rattle.hir_number.specs.Breaches.{broken, trait_method_breaches};
ghost use Rattle.hir_number.specs.Naming.{IsNaming, Naming};
ghost use Rattle.hir_reports.specs.Store.{Held, Keeps, added};
ghost use Rattle.hir_signatures.specs.Errors.{breach_error};
ghost use Rattle.hir_traits.specs.TraitTypes.{trait_method_type_errors, trait_method_types};

use crate::judging::{TraitMethodTypes, judge_numbered};
use bridge_ast::{Env, ItemPlace};
use bridge_decl::{NoMemory, TraitMethod};
use hir_items::Lowering;
use hir_number::{Breach, number_trait_method, trait_method_breaches};
use hir_reports::ErrorStore;
use hir_signatures::tell_breaches;
use std::alloc::Global;

/// Tells breaches. Whether there are none.
#[tactic(auto, using(hir_mark_contexts::proofs::Stores::added_keeps))]
fn tell_all(
    alloc: Global,
    breaches: &[Breach<'_>],
    errors: &mut ErrorStore<'_>,
) -> Result<(), NoMemory>
    ensures told { OnOk result
        (errors.new ≡ added errors.old (map breach_error (map broken breaches.entry.now))) }
    ensures kept { (earlier : Held) → Keeps earlier errors.old → Keeps earlier errors.new }
{
    tell_breaches(alloc, breaches, errors)
}

/// Tells the breaches of a method. Whether there are none.
fn test_breaches(
    alloc: Global,
    env: &Env,
    place: ItemPlace,
    method: &TraitMethod,
    errors: &mut ErrorStore<'_>,
) -> Result<bool, NoMemory>
    requires { place.«module» < length env.now }
    ensures told { (names : Naming) → IsNaming env.now place.«module» names
        → OnOk result (errors.new ≡ added errors.old
        (map breach_error (trait_method_breaches names place method.now))) }
    ensures fine { (names : Naming) → IsNaming env.now place.«module» names
        → IfOk result (λ fine. MatchBool fine
        (trait_method_breaches names place method.now ≡ [])
        (trait_method_breaches names place method.now ≢ [])) }
    ensures kept { (earlier : Held) → Keeps earlier errors.old → Keeps earlier errors.new }
{
    let breaches = trait_method_breaches(alloc, env, place.module, place, method)?;
    let all = breaches.as_slice();
    tell_all(alloc, all, errors)?;
    Ok(all.is_empty())
}

/// The types of a method of the trait there, by whether the names of its lifetimes are identifiers.
pub fn lower_types<V>(
    lowering: &Lowering<'_, V>,
    place: ItemPlace,
    method: &TraitMethod,
    are_named: bool,
    errors: &mut ErrorStore<'_>,
) -> Result<Option<TraitMethodTypes>, NoMemory>
    requires inside { place.«module» < length lowering.now.env.now }
    requires sound { IsSoundEnvironment method.now.lifetimes }
    requires named { MatchBool are_named (lifetime_errors method.now.lifetimes ≡ [])
        (lifetime_errors method.now.lifetimes ≢ []) }
    ensures told { (names : Naming) → IsNaming lowering.now.env.now place.«module» names
        → OnOk result (errors.new ≡ added errors.old (trait_method_type_errors
        lowering.now.support.now lowering.now.config lowering.now.catalog.now names place
        method.now)) }
    ensures made { (names : Naming) → IsNaming lowering.now.env.now place.«module» names
        → IfOk result (GivenUnlessTold (trait_method_type_errors
        lowering.now.support.now lowering.now.config lowering.now.catalog.now names place
        method.now) (trait_method_types lowering.now.catalog.now names place method.now)) }
    ensures kept { (earlier : Held) → Keeps earlier errors.old → Keeps earlier errors.new }
{
    if !test_breaches(lowering.alloc, lowering.env, place, method, errors)? {
        return Ok(None);
    }
    if !are_named {
        return Ok(None);
    }
    let numbered = number_trait_method(lowering.alloc, lowering.env, place.module, method);
    judge_numbered(lowering, &numbered, errors)
}

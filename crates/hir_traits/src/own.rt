//! A trait without its methods.

ghost use Rattle.std.specs.Prelude.{◌≡◌, IfOk, OnOk, length, map, nat_lt};
ghost use Rattle.bridge_decl.specs.Lifetimes.{IsSoundEnvironment};
ghost use Rattle.bridge_grid.specs.Items.{trait_faults};
ghost use Rattle.bridge_grid.specs.Telling.{fault_error};
ghost use Rattle.hir_elide.specs.Numbering.{most};
ghost use Rattle.hir_heads.specs.Heads.{notes_form};
ghost use Rattle.hir_heads.specs.Told.{MadeUnlessTold};
ghost use Rattle.hir_items.specs.Opaques.{limit_errors};
ghost use Rattle.hir_methods.specs.Untyped.{unless_disabled};
ghost use Rattle.hir_reports.specs.Store.{Held, Keeps, added};
ghost use Rattle.hir_traits.specs.Traits.{own_trait_errors, trait_name_errors};
ghost use Rattle.hir_traits.specs.inside.Parts.{both_names, declared_names};

use bridge_decl::{IdentBuf, LifetimeEnv as Declared, NoMemory, Trait};
use bridge_grid::{tell, test_trait};
use hir_attrs::Attrs;
use hir_backends::{AttributeValidator, BackendAttrSupport};
use hir_elide::MOST_LIFETIMES;
use hir_heads::{Notes, lower_ident, lower_lifetimes, lower_notes};
use hir_items::Lowering;
use hir_life::LifetimeEnv;
use hir_mark_contexts::MarkContext;
use hir_methods::paired;
use hir_reports::{ErrorStore, LoweringError, Rule};
use std::alloc::Global;

/// The name of a trait, and its lifetimes.
#[derive(Drop)]
pub struct TraitNames {
    /// Its name.
    pub name: IdentBuf,
    /// Its lifetimes.
    pub lifetimes: LifetimeEnv,
}

/// What a trait has beside its methods.
#[derive(Drop)]
pub struct OwnHead {
    /// Its marks and its documents.
    pub notes: Notes,
    /// Its names, where nothing is told of them.
    pub names: Option<TraitNames>,
}

/// Both, where there are both.
fn both_names(name: Option<IdentBuf>, lifetimes: Option<LifetimeEnv>) -> Option<TraitNames>
    ensures { result ≡ both_names name lifetimes }
{
    match paired(name, lifetimes) {
        Some((name, lifetimes)) => Some(TraitNames { name, lifetimes }),
        None => None,
    }
}

/// The names. None only where one is no identifier.
fn lower_names(
    alloc: Global,
    item: &Trait,
    errors: &mut ErrorStore<'_>,
) -> Result<Option<TraitNames>, NoMemory>
    requires { IsSoundEnvironment item.now.lifetimes }
    ensures told { OnOk result (errors.new ≡ added errors.old (trait_name_errors item.now)) }
    ensures made { IfOk result
        (MadeUnlessTold (trait_name_errors item.now) (declared_names item.now)) }
    ensures kept { (earlier : Held) → Keeps earlier errors.old → Keeps earlier errors.new }
{
    let name = lower_ident(alloc, &item.name, errors)?;
    let lifetimes = lower_lifetimes(alloc, &item.lifetimes, errors)?;
    Ok(both_names(name, lifetimes))
}

/// Tells what the trait needs in order to be `Send` or `Sync`.
#[tactic(auto, using(hir_mark_contexts::proofs::Stores::added_keeps))]
fn tell_threads(
    alloc: Global,
    support: &BackendAttrSupport,
    item: &Trait,
    errors: &mut ErrorStore<'_>,
) -> Result<(), NoMemory>
    ensures told { OnOk result (errors.new ≡ added errors.old
        (map fault_error (trait_faults support.now item.now.is_send item.now.is_sync))) }
    ensures kept { (earlier : Held) → Keeps earlier errors.old → Keeps earlier errors.new }
{
    let faults = test_trait(alloc, support, item.is_send, item.is_sync)?;
    tell(alloc, errors, faults.as_slice())
}

/// Whether more lifetimes are declared than there may be.
fn are_too_many(declared: &Declared) -> bool
    ensures { result ≡ nat_lt most (length declared.now.nodes) }
{
    declared.nodes.len() > MOST_LIFETIMES
}

/// Tells that more lifetimes are declared than there may be.
fn tell_limit(
    alloc: Global,
    declared: &Declared,
    errors: &mut ErrorStore<'_>,
) -> Result<(), NoMemory>
    ensures told { OnOk result
        (errors.new ≡ added errors.old (limit_errors declared.now)) }
    ensures kept { (earlier : Held) → Keeps earlier errors.old → Keeps earlier errors.new }
{
    if are_too_many(declared) {
        return errors.push(LoweringError::plain(alloc, Rule::TooManyLifetimes));
    }
    Ok(())
}

/// The same, of a trait with these marks that is enabled.
fn tell_enabled(
    alloc: Global,
    attrs: &Attrs,
    declared: &Declared,
    errors: &mut ErrorStore<'_>,
) -> Result<(), NoMemory>
    ensures told { OnOk result (errors.new ≡ added errors.old
        (unless_disabled attrs.now (limit_errors declared.now))) }
    ensures kept { (earlier : Held) → Keeps earlier errors.old → Keeps earlier errors.new }
{
    if attrs.disable {
        return Ok(());
    }
    tell_limit(alloc, declared, errors)
}

/// What a trait has beside its methods; its marks start from these.
pub fn lower_own<V: AttributeValidator>(
    lowering: &Lowering<'_, V>,
    item: &Trait,
    start: Attrs,
    errors: &mut ErrorStore<'_>,
) -> Result<OwnHead, NoMemory>
    requires { IsSoundEnvironment item.now.lifetimes }
    ensures told { OnOk result (errors.new ≡ added errors.old (own_trait_errors
        (V.meaning lowering.now.validator.now) lowering.now.support.now start item.now)) }
    ensures notes { IfOk result (λ head. head.notes ≡ notes_form
        (V.meaning lowering.now.validator.now) start item.now.docs item.now.attrs) }
    ensures made { IfOk result (λ head. MadeUnlessTold (own_trait_errors
        (V.meaning lowering.now.validator.now) lowering.now.support.now start item.now)
        (declared_names item.now) head.names) }
    ensures kept { (earlier : Held) → Keeps earlier errors.old → Keeps earlier errors.new }
{
    let alloc = lowering.alloc;
    let notes = lower_notes(
        alloc,
        &item.docs,
        &item.attrs,
        MarkContext::Trait,
        start,
        lowering.validator,
        errors,
    )?;
    let names = lower_names(alloc, item, errors)?;
    tell_threads(alloc, lowering.support, item, errors)?;
    tell_enabled(alloc, &notes.attrs, &item.lifetimes, errors)?;
    Ok(OwnHead { notes, names })
}

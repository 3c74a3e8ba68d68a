//! The conditions that marks and documents stand under.

ghost use Rattle.std.specs.Prelude.{◌≡◌, ◌||◌, map, true, false, is_some, option_map, option_to_list, unwrap_or};
ghost use Rattle.hir_backends.specs.Conditions.{condition_met, settled, leaves_open, left_open, met_pair, met_plain, inverted, answer_of, is_by_auto, fault_rule, met_errors};
ghost use Rattle.std.proofs.Common.{inl, inr};

use crate::meanings::AttributeValidator;
use bridge_decl::DiplomatBackendAttrCfg;
use hir_reports::{LoweringError, Rule};
use std::alloc::Global;
use thiserror::Error;

/// Why a condition is neither met nor not.
#[derive(Clone, Copy, Debug, Error, PartialEq, Eq)]
pub enum CfgFault {
    /// `auto` stands where it isn't allowed: under `not` or `all`, or in a condition that allows it nowhere.
    #[error("AutoMisplaced")]
    AutoMisplaced,
    /// The condition asks for a pair that no backend knows.
    #[error("UnknownPair")]
    UnknownPair,
}

impl CfgFault {
    /// The rule that the fault breaks. It has the fault's name.
    pub fn rule(self) -> Rule
        ensures { result ≡ fault_rule self }
    {
        match self {
            CfgFault::AutoMisplaced => Rule::AutoMisplaced,
            CfgFault::UnknownPair => Rule::UnknownPair,
        }
    }
}

/// What a condition comes to for a backend.
#[derive(Clone, Copy, Debug, PartialEq, Eq)]
pub enum Met {
    /// It is met; by `auto`, or by something else.
    Holds(bool),
    /// It isn't met.
    Fails,
    /// It is neither.
    Faulty(CfgFault),
}

/// The opposite of what a condition comes to; a fault stays one.
fn inverted(met: Met) -> Met
    ensures { result ≡ inverted met }
{
    match met {
        Met::Holds(_) => Met::Fails,
        Met::Fails => Met::Holds(false),
        Met::Faulty(fault) => Met::Faulty(fault),
    }
}

/// What a plain test comes to.
fn met_plain(holds: bool) -> Met
    ensures { result ≡ met_plain holds }
{
    if holds { Met::Holds(false) } else { Met::Fails }
}

/// What a pair comes to, of which the backend says that.
fn met_pair(holds: Option<bool>) -> Met
    ensures { result ≡ met_pair holds }
{
    match holds {
        Some(holds) => met_plain(holds),
        None => Met::Faulty(CfgFault::UnknownPair),
    }
}

/// Whether what a part comes to leaves open what the list comes to: what is met does where all parts have to be, and what isn't does
/// where one has to be.
fn leaves_open(needs_all: bool, met: Met) -> bool
    ensures { result ≡ leaves_open needs_all met }
{
    match met {
        Met::Holds(_) => needs_all,
        Met::Fails => !needs_all,
        Met::Faulty(_) => false,
    }
}

/// What a list comes to of which no part has settled it.
fn left_open(needs_all: bool) -> Met
    ensures { result ≡ left_open needs_all }
{
    if needs_all {
        Met::Holds(false)
    } else {
        Met::Fails
    }
}

/// What a condition comes to for a backend, where `auto` is allowed or isn't. Nothing after the part that settles it is looked at:
/// the first part of `any` that is met, the first of `all` that isn't, and the first fault.
#[cycle(meets)]
pub fn meets<V: AttributeValidator>(v: &V, cfg: &DiplomatBackendAttrCfg, allowed: bool) -> Met
    ensures { result ≡ condition_met (V.meaning v.now) cfg.now allowed }
{
    match cfg {
        DiplomatBackendAttrCfg::Not(inner) => inverted(meets(v, inner.get(), false)),
        DiplomatBackendAttrCfg::Any(parts) => meets_list(v, parts.as_slice(), allowed, false),
        DiplomatBackendAttrCfg::All(parts) => meets_list(v, parts.as_slice(), false, true),
        DiplomatBackendAttrCfg::Auto if allowed => Met::Holds(true),
        DiplomatBackendAttrCfg::Auto => Met::Faulty(CfgFault::AutoMisplaced),
        DiplomatBackendAttrCfg::Star => Met::Holds(false),
        DiplomatBackendAttrCfg::BackendName(name) => met_plain(v.is_backend(name.as_str())),
        DiplomatBackendAttrCfg::NameValue(name, value) => {
            met_pair(v.is_name_value(name.as_str(), value.as_str()))
        }
    }
}

/// What a list of conditions comes to of which one has to be met, or all.
#[cycle(meets)]
fn meets_list<V: AttributeValidator>(
    v: &V,
    parts: &[DiplomatBackendAttrCfg],
    allowed: bool,
    needs_all: bool,
) -> Met
    ensures { result ≡ settled needs_all
        (map (λ part. part allowed) (map (condition_met (V.meaning v.now)) parts.now)) }
{
    for part in parts {
        let part_met = meets(v, part, allowed);
        if !leaves_open(needs_all, part_met) {
            return part_met;
        }
    }
    left_open(needs_all)
}

impl Met {
    /// Whether the condition is met, or its fault.
    pub fn answer(self) -> Result<bool, CfgFault>
        ensures { result ≡ answer_of self }
    {
        match self {
            Met::Holds(_) => Ok(true),
            Met::Fails => Ok(false),
            Met::Faulty(fault) => Err(fault),
        }
    }

    /// The error that tells the fault, where the condition comes to one. It takes no memory.
    pub fn error(self, alloc: Global) -> Option<LoweringError>
        ensures { option_to_list result ≡ met_errors self }
    {
        match self {
            Met::Faulty(fault) => Some(LoweringError::plain(alloc, fault.rule())),
            _ => None,
        }
    }

    /// Whether the condition is met by `auto`.
    pub fn is_by_auto(self) -> bool
        ensures { result ≡ is_by_auto self }
    {
        match self {
            Met::Holds(by_auto) => by_auto,
            _ => false,
        }
    }
}

/// Sets a mark where it is to be raised; one that is set stays so.
fn raise(mark: &mut bool, is_raised: bool)
    ensures { mark.new ≡ (mark.old || is_raised) }
{
    *mark = *mark || is_raised;
}

/// Whether a condition is met for a backend. `auto` is allowed where `auto_found` is given, which is then set where `auto` is what meets
/// the condition, and stays as it is otherwise. A fault comes exactly where the condition comes to it. As `satisfies_cfg` of
/// `diplomat_core`'s `AttributeValidator`.
pub fn satisfies_cfg<V: AttributeValidator>(
    v: &V,
    cfg: &DiplomatBackendAttrCfg,
    auto_found: Option<&mut bool>,
) -> Result<bool, CfgFault>
    ensures answer { result ≡ answer_of (condition_met (V.meaning v.now) cfg.now
        (is_some auto_found.entry)) }
    ensures found { elim auto_found.exit [
      | inl none ↦ Unit {0}
      | inr some ↦ elim some [
        | inl found ↦ found.0.now ≡
            (unwrap_or (option_map (λ found. found.now) auto_found.entry) false
            || is_by_auto (condition_met (V.meaning v.now) cfg.now true))
        | inr no_more ↦ Unit {0}
      ]
    ] }
{
    match auto_found {
        Some(found) => {
            let met = meets(v, cfg, true);
            raise(found, met.is_by_auto());
            met.answer()
        }
        None => meets(v, cfg, false).answer(),
    }
}

//! The context of all declarations.

ghost use Rattle.std.specs.Prelude.{◌≡◌, List, Result};
ghost use Rattle.bridge_ast.specs.Sound.{AreSound};
ghost use Rattle.bridge_decl.specs.declared.modules.Module.{Module};
ghost use Rattle.bridge_places.specs.Entries.{IsCatalog};
ghost use Rattle.bridge_places.specs.Places.{of_kind, places_of};
ghost use Rattle.bridge_places.specs.declared.kinds.Kind.{Kind};
ghost use Rattle.hir_backends.specs.Backend.{Backend};
ghost use Rattle.hir_config.specs.declared.config.LoweringConfig.{LoweringConfig};
ghost use Rattle.hir_context.specs.Listing.{AreDefinitions};
ghost use Rattle.hir_lower.specs.Answers.{AnswersDeclarations};
ghost use Rattle.hir_lower.specs.inside.Contexts.{IsContextOf, PlacedAs, UsedAs};
ghost use Rattle.hir_lower.specs.declared.fault.LowerFault.{LowerFault};

use crate::fault::LowerFault;
use crate::laws::what_is_accepted_fits;
use crate::placing::parts_of;
use crate::refusing::lower_or_refuse;
use bridge_ast::Env;
use bridge_places::ItemOrder;
use hir_backends::AttributeValidator;
use hir_config::LoweringConfig;
use hir_context::{ContextFault, ContextParts, TypeContext};
use hir_naming::every_path_has_a_meaning;
use hir_usage_notes::{LoweredDefinitions, note_usages};
use std::alloc::Global;

/// The context of parts. That something in them doesn't fit never comes where they are those of what
/// is accepted (`what_is_accepted_fits`), and so no empty list is told.
fn context_of(alloc: Global, parts: ContextParts) -> Result<TypeContext, LowerFault>
    ensures { IsContextOf (AreDefinitions parts) result }
{
    match TypeContext::new(alloc, parts) {
        Ok(tcx) => Ok(tcx),
        Err(ContextFault::Unfit(_)) => Err(LowerFault::Refused(Vec::new(alloc))),
        Err(ContextFault::NoMemory) => Err(LowerFault::NoMemory),
    }
}

/// Definitions with the paths of their modules, as a context.
fn placed_context(
    alloc: Global,
    env: &Env,
    order: &ItemOrder,
    defs: LoweredDefinitions,
) -> Result<TypeContext, LowerFault>
    requires places { (k : Kind) → of_kind k order.now.places ≡ places_of env.now k }
    ensures { IsContextOf (PlacedAs env.now defs) result }
{
    match parts_of(alloc, env, order, defs) {
        Ok(parts) => context_of(alloc, parts),
        Err(_) => Err(LowerFault::NoMemory),
    }
}

/// The same once their uses are noted.
fn used_context(
    alloc: Global,
    env: &Env,
    order: &ItemOrder,
    defs: LoweredDefinitions,
) -> Result<TypeContext, LowerFault>
    requires places { (k : Kind) → of_kind k order.now.places ≡ places_of env.now k }
    ensures { IsContextOf (UsedAs env.now defs) result }
{
    let mut used = defs;
    match note_usages(alloc, &mut used) {
        Ok(()) => placed_context(alloc, env, order, used),
        Err(_) => Err(LowerFault::NoMemory),
    }
}

/// All declarations as a context, whose items stand in that order.
fn context_in_order<V: AttributeValidator>(
    alloc: Global,
    env: &Env,
    order: &ItemOrder,
    config: LoweringConfig,
    validator: &V,
) -> Result<TypeContext, LowerFault>
    requires sound { AreSound env.now }
    requires catalog { IsCatalog env.now order.now.catalog }
    requires places { (k : Kind) → of_kind k order.now.places ≡ places_of env.now k }
    ensures { AnswersDeclarations env.now (V.meaning validator.now) config result }
{
    what_is_accepted_fits();
    every_path_has_a_meaning();
    match lower_or_refuse(alloc, env, order, config, validator) {
        Ok(defs) => used_context(alloc, env, order, defs),
        Err(fault) => Err(fault),
    }
}

/// What is made of all declarations of an environment.
pub trait FromEnv: Drop {
    /// Which answers are right for declarations, by what a backend says of itself and what is allowed.
    ghost answers: { List Module → Backend → LoweringConfig → Result Self LowerFault → Type 0 };

    /// What is made of all declarations, where no rule is broken in them; or what is broken, told at
    /// each place at which anything is. `NoMemory` where there is no memory.
    fn from_env<V: AttributeValidator>(
        alloc: Global,
        env: &Env,
        config: LoweringConfig,
        validator: &V,
    ) -> Result<Self, LowerFault>
        ensures { answers env.now (V.meaning validator.now) config result };
}

impl FromEnv for TypeContext {
    ghost answers = { AnswersDeclarations };

    fn from_env<V: AttributeValidator>(
        alloc: Global,
        env: &Env,
        config: LoweringConfig,
        validator: &V,
    ) -> Result<TypeContext, LowerFault> {
        let order = ItemOrder::of(alloc, env.modules())?;
        context_in_order(alloc, env, &order, config, validator)
    }
}

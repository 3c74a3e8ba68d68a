//! Whether definitions fit.

ghost use Rattle.std.specs.Prelude.{◌≡◌, IfOk};
ghost use Rattle.std.specs.Option.{option_map};
ghost use Rattle.hir_mentions.specs.Types.{type_mentions};
ghost use Rattle.hir_fitting.specs.Answering.{AnswersFitting};
ghost use Rattle.hir_fitting.specs.Parts.{parts_of_enum, parts_of_function, parts_of_opaque, parts_of_struct, parts_of_trait};
ghost use Rattle.hir_fitting.specs.inside.Telling.{PartsTell};

use crate::census::Census;
use crate::parts::{fields_misfit, method_misfit, trait_methods_misfit, type_misfit, usage_misfit};
use bridge_decl::NoMemory;
use hir_definitions::{EnumDef, Method, OpaqueDef, StructDef, TraitDef};
use hir_ids::SymbolId;
use hir_mentions::PositionMentions;
use std::alloc::Global;

/// Something that doesn't fit.
#[derive(Clone, Copy, PartialEq, Eq, Debug)]
pub struct Unfit {
    /// The definition that holds it.
    pub holder: SymbolId,
    /// What is named, where it isn't there or has another number of lifetimes; the holder, where a
    /// lifetime is outside of its environment.
    pub named: SymbolId,
}

/// What doesn't fit in a definition of which this is told.
fn answer(holder: SymbolId, named: Option<SymbolId>) -> Option<Unfit>
    ensures { result ≡ option_map (λ n. record { holder = holder; named = n }) named }
{
    match named {
        Some(named) => Some(Unfit { holder, named }),
        None => None,
    }
}

/// What is told of a struct of either kind.
fn struct_told<P: PositionMentions>(
    alloc: Global,
    census: &Census,
    holder: &SymbolId,
    def: &StructDef<P>,
) -> Result<Option<SymbolId>, NoMemory>
    ensures { IfOk result (PartsTell census.now holder.now (parts_of_struct
        (type_mentions P.OpaqueOwnership.borrow_of P.of_struct P.of_trait P.of_callback)
        def.now)) }
{
    let named = fields_misfit(alloc, census, holder, def)?;
    if named.is_some() {
        return Ok(named);
    }
    type_misfit(
        alloc,
        census,
        holder,
        &def.methods,
        &def.special_method_presence,
        &def.usage,
    )
}

/// What is told of a trait.
fn trait_told(
    alloc: Global,
    census: &Census,
    holder: &SymbolId,
    def: &TraitDef,
) -> Result<Option<SymbolId>, NoMemory>
    ensures { IfOk result (PartsTell census.now holder.now (parts_of_trait def.now)) }
{
    let named = trait_methods_misfit(alloc, census, holder, def)?;
    if named.is_some() {
        return Ok(named);
    }
    usage_misfit(alloc, census, holder, &def.usage)
}

/// What doesn't fit in a struct of either kind, which has this id. None exactly where all fits.
pub fn struct_misfit<P: PositionMentions>(
    alloc: Global,
    census: &Census,
    id: SymbolId,
    def: &StructDef<P>,
) -> Result<Option<Unfit>, NoMemory>
    ensures { IfOk result (AnswersFitting census.now id (parts_of_struct
        (type_mentions P.OpaqueOwnership.borrow_of P.of_struct P.of_trait P.of_callback)
        def.now)) }
{
    let named = struct_told(alloc, census, &id, def)?;
    Ok(answer(id, named))
}

/// What doesn't fit in an opaque, which has this id. None exactly where all fits.
pub fn opaque_misfit(
    alloc: Global,
    census: &Census,
    id: SymbolId,
    def: &OpaqueDef,
) -> Result<Option<Unfit>, NoMemory>
    ensures { IfOk result (AnswersFitting census.now id (parts_of_opaque def.now)) }
{
    let named = type_misfit(
        alloc,
        census,
        &id,
        &def.methods,
        &def.special_method_presence,
        &def.usage,
    )?;
    Ok(answer(id, named))
}

/// What doesn't fit in an enum, which has this id. None exactly where all fits.
pub fn enum_misfit(
    alloc: Global,
    census: &Census,
    id: SymbolId,
    def: &EnumDef,
) -> Result<Option<Unfit>, NoMemory>
    ensures { IfOk result (AnswersFitting census.now id (parts_of_enum def.now)) }
{
    let named = type_misfit(
        alloc,
        census,
        &id,
        &def.methods,
        &def.special_method_presence,
        &def.usage,
    )?;
    Ok(answer(id, named))
}

/// What doesn't fit in a trait, which has this id. None exactly where all fits.
pub fn trait_misfit(
    alloc: Global,
    census: &Census,
    id: SymbolId,
    def: &TraitDef,
) -> Result<Option<Unfit>, NoMemory>
    ensures { IfOk result (AnswersFitting census.now id (parts_of_trait def.now)) }
{
    let named = trait_told(alloc, census, &id, def)?;
    Ok(answer(id, named))
}

/// What doesn't fit in a function, which has this id. None exactly where all fits.
pub fn function_misfit(
    alloc: Global,
    census: &Census,
    id: SymbolId,
    def: &Method,
) -> Result<Option<Unfit>, NoMemory>
    ensures { IfOk result (AnswersFitting census.now id (parts_of_function def.now)) }
{
    let named = method_misfit(alloc, census, &id, def)?;
    Ok(answer(id, named))
}

//! What is told of the parts of definitions, where they don't fit.

ghost use Rattle.std.specs.Prelude.{◌∷◌, [], IfOk, None, map};
ghost use Rattle.hir_mentions.specs.Definitions.{special_mentions, trait_mentions, usage_mentions};
ghost use Rattle.hir_mentions.specs.Seen.{mentioned};
ghost use Rattle.hir_mentions.specs.Types.{type_mentions};
ghost use Rattle.hir_fitting.specs.Parts.{fields_part, free, method_part, parts_of_type};
ghost use Rattle.hir_fitting.specs.inside.Telling.{PartTells, PartsTell};

use crate::census::Census;
use crate::fitting::mention_misfit;
use bridge_decl::{Items, NoMemory};
use hir_definitions::{Method, SpecialMethodPresence, StructDef, TraitDef, TypingUseInfo};
use hir_ids::SymbolId;
use hir_mentions::{
    Mention, PositionMentions, field_mentions, method_mentions, special_mentions, trait_mentions,
    usage_mentions,
};
use std::alloc::Global;

/// What is told of these mentions.
fn part_misfit(
    census: &Census,
    count: Option<usize>,
    holder: &SymbolId,
    mentions: &[Mention<'_>],
) -> Option<SymbolId>
    ensures { PartTells census.now holder.now
        (record { lifetimes = count; mentions = map mentioned mentions.now }) result }
{
    for mention in mentions {
        let named = mention_misfit(census, count, holder, mention);
        if named.is_some() {
            return named;
        }
    }
    None
}

/// What is told of the fields of a struct of either kind.
pub(crate) fn fields_misfit<P: PositionMentions>(
    alloc: Global,
    census: &Census,
    holder: &SymbolId,
    def: &StructDef<P>,
) -> Result<Option<SymbolId>, NoMemory>
    ensures { IfOk result (PartTells census.now holder.now (fields_part
        (type_mentions P.OpaqueOwnership.borrow_of P.of_struct P.of_trait P.of_callback)
        def.now)) }
{
    let mentions = field_mentions(alloc, def.fields.as_slice())?;
    let count = def.lifetimes.num_lifetimes();
    Ok(part_misfit(census, Some(count), holder, mentions.as_slice()))
}

/// What is told of a method or a function.
pub(crate) fn method_misfit(
    alloc: Global,
    census: &Census,
    holder: &SymbolId,
    method: &Method,
) -> Result<Option<SymbolId>, NoMemory>
    ensures { IfOk result (PartTells census.now holder.now (method_part method.now)) }
{
    let mentions = method_mentions(alloc, method)?;
    let count = Some(method.lifetime_env.num_lifetimes());
    Ok(part_misfit(census, count, holder, mentions.as_slice()))
}

/// What is told of the methods of a trait.
pub(crate) fn trait_methods_misfit(
    alloc: Global,
    census: &Census,
    holder: &SymbolId,
    def: &TraitDef,
) -> Result<Option<SymbolId>, NoMemory>
    ensures { IfOk result (PartTells census.now holder.now (free (trait_mentions def.now))) }
{
    let mentions = trait_mentions(alloc, def)?;
    Ok(part_misfit(census, None, holder, mentions.as_slice()))
}

/// What is told of how a type is used.
pub(crate) fn usage_misfit(
    alloc: Global,
    census: &Census,
    holder: &SymbolId,
    usage: &TypingUseInfo,
) -> Result<Option<SymbolId>, NoMemory>
    ensures { IfOk result (PartTells census.now holder.now (free (usage_mentions usage.now))) }
{
    let mentions = usage_mentions(alloc, usage)?;
    Ok(part_misfit(census, None, holder, mentions.as_slice()))
}

/// What is told of what is known of methods that are more than methods.
fn special_misfit(
    alloc: Global,
    census: &Census,
    holder: &SymbolId,
    special: &SpecialMethodPresence,
) -> Result<Option<SymbolId>, NoMemory>
    ensures { IfOk result (PartTells census.now holder.now (free (special_mentions special.now))) }
{
    let mentions = special_mentions(alloc, special)?;
    Ok(part_misfit(census, None, holder, mentions.as_slice()))
}

/// What is told of methods.
fn methods_misfit(
    alloc: Global,
    census: &Census,
    holder: &SymbolId,
    methods: &[Method],
) -> Result<Option<SymbolId>, NoMemory>
    ensures { IfOk result (PartsTell census.now holder.now (map method_part methods.now)) }
{
    for method in methods {
        let named = method_misfit(alloc, census, holder, method)?;
        if named.is_some() {
            return Ok(named);
        }
    }
    Ok(None)
}

/// What is told of what is kept beside a type.
fn beside_misfit(
    alloc: Global,
    census: &Census,
    holder: &SymbolId,
    special: &SpecialMethodPresence,
    usage: &TypingUseInfo,
) -> Result<Option<SymbolId>, NoMemory>
    ensures { IfOk result (PartsTell census.now holder.now
        (free (special_mentions special.now) ∷ free (usage_mentions usage.now) ∷ [])) }
{
    let named = special_misfit(alloc, census, holder, special)?;
    if named.is_some() {
        return Ok(named);
    }
    usage_misfit(alloc, census, holder, usage)
}

/// What is told of what each type has.
pub(crate) fn type_misfit(
    alloc: Global,
    census: &Census,
    holder: &SymbolId,
    methods: &Items<Method>,
    special: &SpecialMethodPresence,
    usage: &TypingUseInfo,
) -> Result<Option<SymbolId>, NoMemory>
    ensures { IfOk result (PartsTell census.now holder.now
        (parts_of_type methods.now special.now usage.now)) }
{
    let named = methods_misfit(alloc, census, holder, methods.as_slice())?;
    if named.is_some() {
        return Ok(named);
    }
    beside_misfit(alloc, census, holder, special, usage)
}

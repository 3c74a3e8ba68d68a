//! What the parts of definitions name.

ghost use Rattle.std.specs.Prelude.{◌≡◌, ◌++◌, OnOk, IfOk};
ghost use Rattle.std.specs.List.{flat_map};
ghost use Rattle.hir_types.specs.Returns.{type_in};
ghost use Rattle.hir_mentions.specs.Callbacks.{input_mentions, method_mentions, output_mentions};
ghost use Rattle.hir_mentions.specs.Definitions.{fields_mentions, opaque_alone, result_mentions, special_mentions, trait_mentions, usage_mentions};
ghost use Rattle.hir_mentions.specs.Mentions.{where_any};
ghost use Rattle.hir_mentions.specs.Seen.{all_mentioned};
ghost use Rattle.hir_mentions.specs.Types.{receiver_mentions, type_mentions};

use crate::callbacks::add_callback;
use crate::mentions::Mention;
use crate::positions::PositionMentions;
use crate::types::{add_error, add_receiver, add_return, add_success, add_type};
use bridge_decl::NoMemory;
use hir_definitions::{
    Method, Param, ParamSelf, ResultUsage, SpecialMethodPresence, StructField, TraitDef,
    TypingUseInfo,
};
use hir_ids::OpaqueId;
use hir_types::{OutputOnly, SuccessType};
use std::alloc::Global;

/// What the fields of a struct name, in order.
pub fn field_mentions<P: PositionMentions>(
    alloc: Global,
    fields: &[StructField<P>],
) -> Result<Vec<Mention<'_>>, NoMemory>
    ensures { IfOk result (λ mentions. all_mentioned mentions ≡ fields_mentions
        (type_mentions P.OpaqueOwnership.borrow_of P.of_struct P.of_trait P.of_callback)
        fields.now) }
{
    let mut mentions = Vec::new(alloc);
    for field in fields {
        add_type(&mut mentions, &field.ty)?;
    }
    Ok(mentions)
}

/// Adds what a receiver names, where there is one.
fn add_self<'a>(
    mentions: &mut Vec<Mention<'a>>,
    receiver: &'a Option<ParamSelf>,
) -> Result<(), NoMemory>
    ensures { OnOk result (all_mentioned mentions.new
        ≡ all_mentioned mentions.old ++ where_any (λ r. receiver_mentions r.ty) receiver.now) }
{
    match receiver {
        Some(receiver) => add_receiver(mentions, &receiver.ty),
        None => Ok(()),
    }
}

/// Adds what parameters name.
fn add_params<'a>(mentions: &mut Vec<Mention<'a>>, params: &'a [Param]) -> Result<(), NoMemory>
    ensures { OnOk result (all_mentioned mentions.new
        ≡ all_mentioned mentions.old ++ flat_map (λ p. input_mentions p.ty) params.now) }
{
    for param in params {
        add_type(mentions, &param.ty)?;
    }
    Ok(())
}

/// What a method or a function names: its receiver, its parameters with what their callbacks name,
/// and its return. The lifetimes are those of its signature.
pub fn method_mentions(alloc: Global, method: &Method) -> Result<Vec<Mention<'_>>, NoMemory>
    ensures { IfOk result (λ mentions. all_mentioned mentions ≡ method_mentions method.now) }
{
    let mut mentions = Vec::new(alloc);
    add_self(&mut mentions, &method.param_self)?;
    add_params(&mut mentions, method.params.as_slice())?;
    add_return(&mut mentions, &method.output)?;
    Ok(mentions)
}

/// What the methods of a trait name.
pub fn trait_mentions(alloc: Global, def: &TraitDef) -> Result<Vec<Mention<'_>>, NoMemory>
    ensures { IfOk result (λ mentions. all_mentioned mentions ≡ trait_mentions def.now) }
{
    let mut mentions = Vec::new(alloc);
    for method in def.methods.as_slice() {
        add_callback(&mut mentions, method)?;
    }
    Ok(mentions)
}

/// Adds what the types of a result name.
fn add_result<'a>(mentions: &mut Vec<Mention<'a>>, usage: &'a ResultUsage) -> Result<(), NoMemory>
    ensures { OnOk result (all_mentioned mentions.new
        ≡ all_mentioned mentions.old ++ result_mentions usage.now) }
{
    match usage {
        ResultUsage::Input(info) => {
            add_success(mentions, &info.ok)?;
            add_error(mentions, &info.err)
        }
        ResultUsage::Output(info) => {
            add_success(mentions, &info.ok)?;
            add_error(mentions, &info.err)
        }
    }
}

/// What the results name in which a type is used.
pub fn usage_mentions(alloc: Global, usage: &TypingUseInfo) -> Result<Vec<Mention<'_>>, NoMemory>
    ensures { IfOk result (λ mentions. all_mentioned mentions ≡ usage_mentions usage.now) }
{
    let mut mentions = Vec::new(alloc);
    for usage in usage.results.as_slice() {
        add_result(&mut mentions, usage)?;
    }
    Ok(mentions)
}

/// Adds what the values name that a method steps through, where there is such a method.
fn add_iterator<'a>(
    mentions: &mut Vec<Mention<'a>>,
    iterator: &'a Option<SuccessType<OutputOnly>>,
) -> Result<(), NoMemory>
    ensures { OnOk result (all_mentioned mentions.new ≡ all_mentioned mentions.old
        ++ where_any (λ s. where_any output_mentions (type_in s)) iterator.now) }
{
    match iterator {
        Some(success) => add_success(mentions, success),
        None => Ok(()),
    }
}

/// Adds the opaque that a method gives and that steps through values, where there is one.
fn add_iterable<'a>(
    mentions: &mut Vec<Mention<'a>>,
    iterable: &'a Option<OpaqueId>,
) -> Result<(), NoMemory>
    ensures { OnOk result (all_mentioned mentions.new
        ≡ all_mentioned mentions.old ++ where_any opaque_alone iterable.now) }
{
    match iterable {
        Some(id) => {
            mentions.push(Mention::OpaqueAlone(id))?;
            Ok(())
        }
        None => Ok(()),
    }
}

/// What is named by what is known of the methods that are more than methods.
pub fn special_mentions(
    alloc: Global,
    presence: &SpecialMethodPresence,
) -> Result<Vec<Mention<'_>>, NoMemory>
    ensures { IfOk result (λ mentions. all_mentioned mentions ≡ special_mentions presence.now) }
{
    let mut mentions = Vec::new(alloc);
    add_iterator(&mut mentions, &presence.iterator)?;
    add_iterable(&mut mentions, &presence.iterable)?;
    Ok(mentions)
}

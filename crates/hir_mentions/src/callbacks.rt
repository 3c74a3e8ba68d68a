//! What callbacks name.

ghost use Rattle.std.specs.Prelude.{◌≡◌, ◌++◌, OnOk};
ghost use Rattle.std.specs.List.{flat_map};
ghost use Rattle.hir_mentions.specs.Callbacks.{callback_mentions, output_mentions};
ghost use Rattle.hir_mentions.specs.Mentions.{where_any};
ghost use Rattle.hir_mentions.specs.Seen.{all_mentioned};
ghost use Rattle.hir_mentions.specs.Types.{trait_path_mentions};

use crate::mentions::Mention;
use crate::types::{add_return, add_trait_path, add_type};
use bridge_decl::NoMemory;
use hir_types::{Callback, CallbackParam, TraitParamSelf};

/// Adds the trait that a method of a trait takes, where there is one.
fn add_trait_self<'a>(
    mentions: &mut Vec<Mention<'a>>,
    receiver: &'a Option<TraitParamSelf>,
) -> Result<(), NoMemory>
    ensures { OnOk result (all_mentioned mentions.new
        ≡ all_mentioned mentions.old
        ++ where_any (λ r. trait_path_mentions r.trait_path) receiver.now) }
{
    match receiver {
        Some(receiver) => add_trait_path(mentions, &receiver.trait_path),
        None => Ok(()),
    }
}

/// Adds what a callback takes names.
fn add_callback_params<'a>(
    mentions: &mut Vec<Mention<'a>>,
    params: &'a [CallbackParam],
) -> Result<(), NoMemory>
    ensures { OnOk result (all_mentioned mentions.new
        ≡ all_mentioned mentions.old ++ flat_map (λ p. output_mentions p.ty) params.now) }
{
    for param in params {
        add_type(mentions, &param.ty)?;
    }
    Ok(())
}

/// Adds what a callback names.
pub(crate) fn add_callback<'a>(
    mentions: &mut Vec<Mention<'a>>,
    callback: &'a Callback,
) -> Result<(), NoMemory>
    ensures { OnOk result (all_mentioned mentions.new
        ≡ all_mentioned mentions.old ++ callback_mentions callback.now) }
{
    add_trait_self(mentions, &callback.param_self)?;
    add_callback_params(mentions, callback.params.as_slice())?;
    add_return(mentions, &callback.output)
}

//! How callbacks and methods use definitions.

ghost use Rattle.std.specs.Prelude.{◌≡◌, ◌++◌, IfOk, OnOk};
ghost use Rattle.std.specs.List.{flat_map};
ghost use Rattle.hir_usage.specs.Callbacks.{callback_usages, input_usages, method_usages, output_usages};
ghost use Rattle.hir_usage.specs.Seen.{meant};

use crate::returns::add_return;
use crate::types::add_type;
use crate::uses::Use;
use bridge_decl::NoMemory;
use hir_definitions::{Method, Param};
use hir_types::{Callback, CallbackParam};
use std::alloc::Global;

/// Adds how what a callback takes uses definitions.
fn add_callback_params<'a>(
    uses: &mut Vec<Use<'a>>,
    params: &'a [CallbackParam],
) -> Result<(), NoMemory>
    ensures { OnOk result (meant uses.new
        ≡ meant uses.old ++ flat_map (λ p. output_usages p.ty) params.now) }
{
    for param in params {
        add_type(uses, &param.ty, false)?;
    }
    Ok(())
}

/// Adds how a callback uses definitions.
pub(crate) fn add_callback<'a>(
    uses: &mut Vec<Use<'a>>,
    callback: &'a Callback,
) -> Result<(), NoMemory>
    ensures { OnOk result (meant uses.new ≡ meant uses.old ++ callback_usages callback.now) }
{
    add_callback_params(uses, callback.params.as_slice())?;
    add_return(uses, &callback.output)
}

/// Adds how parameters use definitions.
fn add_params<'a>(uses: &mut Vec<Use<'a>>, params: &'a [Param]) -> Result<(), NoMemory>
    ensures { OnOk result (meant uses.new
        ≡ meant uses.old ++ flat_map (λ p. input_usages p.ty) params.now) }
{
    for param in params {
        add_type(uses, &param.ty, false)?;
    }
    Ok(())
}

/// How a method or a function uses definitions: its parameters with what their callbacks do, and
/// its return. A receiver is no such use.
pub fn method_usages(alloc: Global, method: &Method) -> Result<Vec<Use<'_>>, NoMemory>
    ensures { IfOk result (λ uses. meant uses ≡ method_usages method.now) }
{
    let mut uses = Vec::new(alloc);
    add_params(&mut uses, method.params.as_slice())?;
    add_return(&mut uses, &method.output)?;
    Ok(uses)
}

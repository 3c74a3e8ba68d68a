//! Which special methods a type has.

ghost use Rattle.std.specs.Prelude.{◌≡◌, IfOk, option_and_then, option_copied, option_map};
ghost use Rattle.hir_types.specs.Returns.{success_of};
ghost use Rattle.hir_presence.specs.Presence.{compares_partially, special_methods};
ghost use Rattle.hir_presence.specs.Stepping.{given_opaque, value_there};

use crate::marked::{LoneSpecial, first_marked};
use crate::stepping::{given_opaque, value_there};
use bridge_decl::NoMemory;
use hir_definitions::{Method, SpecialMethodPresence};
use hir_ids::OpaqueId;
use hir_special::is_partial;
use hir_types::{OutputOnly, SuccessType};
use std::alloc::Global;

/// Whether a comparison may answer that neither value comes first.
fn compares_partially(comparison: Option<&Method>) -> bool
    ensures { result ≡ compares_partially (option_copied comparison.entry) }
{
    match comparison {
        Some(method) => is_partial(&method.output),
        None => false,
    }
}

/// What an iterator gives at each step, where it gives anything.
fn iterator_of(
    alloc: Global,
    iterator: Option<&Method>,
) -> Result<Option<SuccessType<OutputOnly>>, NoMemory>
    ensures { IfOk result (λ value. value
        ≡ option_map (λ m. value_there (success_of m.output)) (option_copied iterator.entry)) }
{
    match iterator {
        Some(method) => Ok(Some(value_there(alloc, method.output.success_type())?)),
        None => Ok(None),
    }
}

/// The opaque that an iterable gives.
fn iterable_of(iterable: Option<&Method>) -> Option<OpaqueId>
    ensures { result ≡ option_and_then (λ m. given_opaque (success_of m.output))
        (option_copied iterable.entry) }
{
    match iterable {
        Some(method) => given_opaque(method.output.success_type()),
        None => None,
    }
}

/// Which special methods a type with these methods has: whether one compares, and whether it may answer that neither value comes first; what
/// one gives that steps through values; and the opaque that one gives and that does. `NoMemory` where there is none for a copy of that.
pub fn special_methods(alloc: Global, methods: &[Method]) -> Result<SpecialMethodPresence, NoMemory>
    ensures { IfOk result (λ presence. presence ≡ special_methods methods.now) }
{
    let comparison = first_marked(LoneSpecial::Comparison, methods);
    let iterator = iterator_of(alloc, first_marked(LoneSpecial::Iterator, methods))?;
    Ok(SpecialMethodPresence {
        comparator: comparison.is_some(),
        optional_comparator: compares_partially(comparison),
        iterator,
        iterable: iterable_of(first_marked(LoneSpecial::Iterable, methods)),
    })
}

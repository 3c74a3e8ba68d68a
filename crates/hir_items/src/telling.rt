//! Rules without arguments that are told where they are broken.

ghost use Rattle.std.specs.Prelude.{◌≡◌, OnOk};
ghost use Rattle.hir_items.specs.inside.Titles.{broken_if};
ghost use Rattle.hir_reports.specs.Store.{Held, Keeps, added};

use bridge_decl::NoMemory;
use hir_reports::{ErrorStore, LoweringError, Rule};
use std::alloc::Global;

/// Tells that a rule is broken, where it is.
pub(crate) fn tell_if(
    alloc: Global,
    broken: bool,
    rule: Rule,
    errors: &mut ErrorStore<'_>,
) -> Result<(), NoMemory>
    ensures told { OnOk result (errors.new ≡ added errors.old (broken_if broken rule)) }
    ensures kept { (earlier : Held) → Keeps earlier errors.old → Keeps earlier errors.new }
{
    if broken {
        return errors.push(LoweringError::plain(alloc, rule));
    }
    Ok(())
}

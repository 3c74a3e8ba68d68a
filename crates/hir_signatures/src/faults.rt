//! Why a signature has no numbers, as a report.

ghost use Rattle.std.specs.Prelude.{◌≡◌, ◌≢◌, OnErr, OnOk};
ghost use Rattle.hir_reports.specs.Store.{added};
ghost use Rattle.hir_signatures.specs.Errors.{elide_rule, number_errors, plain_errors};

use bridge_decl::NoMemory;
use hir_elide::ElideFault;
use hir_number::NumberFault;
use hir_reports::{ErrorStore, LoweringError, Rule};
use std::alloc::{AllocError, Global};

/// The rule of a fault of elision that isn't told elsewhere.
fn elide_rule(fault: ElideFault) -> Option<Rule>
    ensures { result ≡ elide_rule fault }
{
    match fault {
        ElideFault::AnonymousInDefinition => Some(Rule::AnonymousInDefinition),
        ElideFault::ElisionNoSource => Some(Rule::ElisionNoSource),
        ElideFault::ElisionAmbiguous => Some(Rule::ElisionAmbiguous),
        ElideFault::TooManyLifetimes => Some(Rule::TooManyLifetimes),
        ElideFault::LifetimeUnknown | ElideFault::BadIdent | ElideFault::NoMemory => None,
    }
}

fn tell_plain(
    alloc: Global,
    rule: Option<Rule>,
    errors: &mut ErrorStore<'_>,
) -> Result<(), NoMemory>
    ensures told { OnOk result (errors.new ≡ added errors.old (plain_errors rule)) }
    ensures err { OnErr result (errors.new ≡ errors.old) }
{
    match rule {
        Some(rule) => errors.push(LoweringError::plain(alloc, rule)),
        None => Ok(()),
    }
}

/// Tells why a signature or a definition that has no breach has no numbers: one report, without
/// arguments. Nothing where a declared name is no identifier, which is told with the names. What
/// paths break is a breach, and nothing is told of it here. `NoMemory` where that is the fault, or
/// where there is no memory for the report: then the store holds what it held.
pub fn tell_number_fault(
    alloc: Global,
    fault: NumberFault,
    errors: &mut ErrorStore<'_>,
) -> Result<(), NoMemory>
    ensures told { OnOk result (errors.new ≡ added errors.old (number_errors fault)) }
    ensures memory { OnOk result (fault ≢ NumberFault.NoMemory) }
    ensures err { OnErr result (errors.new ≡ errors.old) }
{
    match fault {
        NumberFault::Elide(fault) => tell_plain(alloc, elide_rule(fault), errors),
        NumberFault::NoMemory => Err(AllocError),
        NumberFault::UnresolvedPath | NumberFault::LifetimeArity => Ok(()),
    }
}

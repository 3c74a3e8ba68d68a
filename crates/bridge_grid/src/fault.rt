//! What may be wrong in a type where it stands.

use bridge_decl::Items;
use hir_backends::SupportFlag;
use hir_reports::Rule;

/// A rule that a type breaks, with its argument.
#[derive(Clone, Copy)]
pub enum TypeFault {
    /// A rule whose text has no argument.
    Broken(Rule),
    /// `SupportDenied`: the backend lacks that feature.
    Denied(SupportFlag),
}

/// Broken rules, in order.
pub type TypeFaults = Items<TypeFault>;

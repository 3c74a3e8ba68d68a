//! What a method gives that steps through values, or that makes what steps through them.

ghost use Rattle.std.specs.Prelude.{◌≡◌, IfOk};
ghost use Rattle.hir_presence.specs.Stepping.{given_opaque, value_there};

use bridge_decl::NoMemory;
use hir_ids::{OpaqueId, Optional};
use hir_types::{HirType, OutputOnly, SuccessType};
use std::alloc::Global;

/// An opaque that may be absent, where it is there; a copy of anything else.
pub fn value_there(
    alloc: Global,
    success: &SuccessType<OutputOnly>,
) -> Result<SuccessType<OutputOnly>, NoMemory>
    ensures { IfOk result (λ value. value ≡ value_there success.now) }
{
    match success {
        SuccessType::OutType(HirType::Opaque(path)) => {
            let mut path = path.try_clone(alloc)?;
            path.optional = Optional::new(false);
            Ok(SuccessType::OutType(HirType::Opaque(path)))
        }
        other => other.try_clone(alloc),
    }
}

/// The opaque that comes of success.
pub fn given_opaque(success: &SuccessType<OutputOnly>) -> Option<OpaqueId>
    ensures { result ≡ given_opaque success.now }
{
    match success {
        SuccessType::OutType(HirType::Opaque(path)) => Some(path.tcx_id),
        _ => None,
    }
}

//! Declared names.

use super::*;
use hir_elide::{ElideFault, SelfParamLifetimeLowerer};

#[test]
fn names_are_identifiers(rt: HostRuntime) -> Result<(), ElideFault> {
    let env = one_name(rt.alloc(), "match")?;
    match SelfParamLifetimeLowerer::new(rt.alloc(), &env) {
        Ok(_) => assert!(rt; false),
        Err(fault) => assert!(rt; fault == ElideFault::BadIdent),
    }
    Ok(())
}

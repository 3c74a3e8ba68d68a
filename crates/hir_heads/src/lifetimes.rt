//! The declared lifetimes of definitions and signatures.

ghost use Rattle.std.specs.Prelude.{◌≡◌, IfOk, OnOk};
ghost use Rattle.bridge_decl.specs.Lifetimes.{IsSoundEnvironment};
ghost use Rattle.hir_heads.specs.Heads.{lifetime_errors};
ghost use Rattle.hir_heads.specs.Told.{MadeUnlessTold};
ghost use Rattle.hir_life.specs.Declarations.{declared_environment};
ghost use Rattle.hir_reports.specs.Store.{Held, Keeps, added};

use crate::names::lower_ident;
use bridge_decl::{IdentFault, LifetimeEnv as Declared, NoMemory};
use hir_life::LifetimeEnv;
use hir_reports::ErrorStore;
use std::alloc::{AllocError, Global};

/// Tells of each declared lifetime whose name is no identifier, in order (rule `BadIdent`).
/// `NoMemory` where there is no memory for the reports.
pub fn tell_lifetimes(
    alloc: Global,
    env: &Declared,
    errors: &mut ErrorStore<'_>,
) -> Result<(), NoMemory>
    ensures told { OnOk result (errors.new ≡ added errors.old (lifetime_errors env.now)) }
    ensures kept { (earlier : Held) → Keeps earlier errors.old → Keeps earlier errors.new }
{
    for node in env.nodes.as_slice() {
        lower_ident(alloc, &node.name, errors)?;
    }
    Ok(())
}

/// The environment of a definition's lifetimes. None only where a name is no identifier: then each
/// such is told, in order. `NoMemory` where there is no memory for it or for the reports.
pub fn lower_lifetimes(
    alloc: Global,
    env: &Declared,
    errors: &mut ErrorStore<'_>,
) -> Result<Option<LifetimeEnv>, NoMemory>
    requires { IsSoundEnvironment env.now }
    ensures told { OnOk result (errors.new ≡ added errors.old (lifetime_errors env.now)) }
    ensures made { IfOk result
        (MadeUnlessTold (lifetime_errors env.now) (declared_environment env.now)) }
    ensures kept { (earlier : Held) → Keeps earlier errors.old → Keeps earlier errors.new }
{
    tell_lifetimes(alloc, env, errors)?;
    match LifetimeEnv::of_declared(alloc, env) {
        Ok(lifetimes) => Ok(Some(lifetimes)),
        Err(IdentFault::Bad) => Ok(None),
        Err(IdentFault::NoMemory) => Err(AllocError),
    }
}

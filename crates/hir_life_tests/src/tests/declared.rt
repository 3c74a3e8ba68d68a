//! Environments of declared lifetimes.

ghost use Rattle.std.specs.Prelude.{IfOk};
ghost use Rattle.bridge_decl.specs.Lifetimes.{IsSoundEnvironment};

use bridge_decl::{IdentFault, LifetimeEnv as Declared, LifetimeNode, NoMemory, Text};
use hir_life::{Lifetime, LifetimeEnv};
use sqlite_items::Items;
use std::alloc::Global;

/// One lifetime is declared.
fn one_name(alloc: Global, name: &str) -> Result<Declared, NoMemory>
    ensures { IfOk result IsSoundEnvironment }
{
    let mut nodes = Items::new(alloc);
    nodes.push(LifetimeNode {
        name: Text::new(alloc, name)?,
        longer: Items::new(alloc),
        shorter: Items::new(alloc),
    })?;
    Ok(Declared { nodes })
}

/// The environment that declares this one lifetime, with an anonymous one.
fn with_anonymous(alloc: Global, name: &str) -> Result<LifetimeEnv, IdentFault> {
    let declared = one_name(alloc, name)?;
    let mut env = LifetimeEnv::of_declared(alloc, &declared)?;
    if env.num_lifetimes() < usize::MAX {
        env.add_anonymous();
    }
    Ok(env)
}

#[test]
fn declared_lifetimes(rt: HostRuntime) {
    match with_anonymous(rt.alloc(), "a") {
        Ok(env) => {
            assert!(rt; env.num_lifetimes() == 2);
            assert!(rt; env.get_bounds(Lifetime::new(0)).is_some());
            assert!(rt; env.get_bounds(Lifetime::new(1)).is_none());
        }
        Err(_) => assert!(rt; false),
    }
}

#[test]
fn names_that_are_no_identifiers(rt: HostRuntime) {
    match with_anonymous(rt.alloc(), "match") {
        Ok(_) => assert!(rt; false),
        Err(fault) => assert!(rt; fault == IdentFault::Bad),
    }
}

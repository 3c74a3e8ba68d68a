//! Lifetimes of definitions.

ghost use Rattle.bridge_decl.specs.Lifetimes.{IsSoundEnvironment};

use super::*;
use hir_elide::{DefinitionLowerer, ElideFault};

/// Lifetimes in a definition that declares `'a`, with their numbers.
const ROWS: [(&str, Result<usize, ElideFault>); 4] = [
    ("a", Ok(0)),
    ("static", Ok(STATIC)),
    ("b", Err(ElideFault::LifetimeUnknown)),
    ("_", Err(ElideFault::AnonymousInDefinition)),
];

fn number_in(alloc: Global, env: &LifetimeEnv, name: &str) -> Result<usize, ElideFault>
    requires { IsSoundEnvironment env.now }
{
    next_number(&mut DefinitionLowerer::new(env), &written(alloc, name)?)
}

#[test]
fn definitions_name_their_lifetimes(rt: HostRuntime) -> Result<(), ElideFault> {
    let env = one_name(rt.alloc(), "a")?;
    for (name, expected) in ROWS {
        assert_eq!(rt; number_in(rt.alloc(), &env, name), expected, "of {name}");
    }
    Ok(())
}

#[test]
fn definitions_leave_no_lifetime_out(rt: HostRuntime) -> Result<(), ElideFault> {
    let env = one_name(rt.alloc(), "a")?;
    let mut lowerer = DefinitionLowerer::new(&env);
    assert!(rt;
        lifetimes_are(rt.alloc(), &mut lowerer, &[], &env, &[])
            == Err(ElideFault::AnonymousInDefinition)
    );
    Ok(())
}

#[test]
fn generics_of_definitions(rt: HostRuntime) -> Result<(), ElideFault> {
    let env = one_name(rt.alloc(), "a")?;
    let pair = two_names(rt.alloc())?;
    let all = [Written::Static, written(rt.alloc(), "a")?];
    let mut lowerer = DefinitionLowerer::new(&env);
    assert!(rt; generics_are(rt.alloc(), &mut lowerer, &all, &pair, true, &[STATIC, 0])?);
    Ok(())
}

//! Numbers of anonymous lifetimes.

ghost use Rattle.std.specs.Prelude.{◌≤◌, length};
ghost use Rattle.bridge_decl.specs.Lifetimes.{IsSoundEnvironment};

use super::*;
use hir_elide::{
    ElideFault, ParamLifetimeLowerer, ReturnLifetimeLowerer, SelfParamLifetimeLowerer,
};
use std::process::Abort;

/// A receiver `&self`, whose borrow has the number 0.
fn after_receiver(
    rt: &impl Abort,
    alloc: Global,
    env: &LifetimeEnv,
) -> Result<ParamLifetimeLowerer, ElideFault>
    requires { IsSoundEnvironment env.now }
{
    let start = SelfParamLifetimeLowerer::new(alloc, env)?;
    let (borrow, params) = start.lower_self_ref(&Written::Anonymous)?;
    assert!(rt; number_of(&borrow) == 0);
    Ok(params)
}

/// `x: &Opaque` where `Opaque` has one lifetime, and then `Self` twice, with one lifetime too.
fn lower_params(
    rt: &impl Abort,
    alloc: Global,
    params: &mut ParamLifetimeLowerer,
    opaque: &LifetimeEnv,
) -> Result<(), ElideFault> {
    assert!(rt; next_number(params, &Written::Anonymous)? == 1);
    assert!(rt; lifetimes_are(alloc, params, &[], opaque, &[2])?);
    for _ in 0..2 {
        assert!(rt; generics_are(alloc, params, &[], opaque, true, &[3])?);
    }
    Ok(())
}

/// `Self` in the return; there are four lifetimes then.
fn lower_return(
    rt: &impl Abort,
    alloc: Global,
    returned: ReturnLifetimeLowerer,
    opaque: &LifetimeEnv,
) -> Result<(), ElideFault>
    requires { 1 ≤ length opaque.now.nodes }
{
    let mut returned = returned;
    assert!(rt; generics_are(alloc, &mut returned, &[Written::Static], opaque, true, &[3])?);
    assert!(rt; returned.finish().num_lifetimes() == 4);
    Ok(())
}

/// `f(&self, x: &Opaque)` where `Opaque` has one lifetime, and then `Self` twice, with one lifetime too.
#[test]
fn anonymous_lifetimes_are_counted(rt: HostRuntime) -> Result<(), ElideFault> {
    let opaque = one_name(rt.alloc(), "a")?;
    let mut params = after_receiver(&rt, rt.alloc(), &no_names(rt.alloc()))?;
    lower_params(&rt, rt.alloc(), &mut params, &opaque)?;
    lower_return(&rt, rt.alloc(), params.into_return_ltl(), &opaque)
}

fn lower_all(rt: &impl Abort, params: &mut ParamLifetimeLowerer) -> Result<(), ElideFault> {
    for number in 0..4095 {
        assert!(rt; next_number(params, &Written::Anonymous)? == number);
    }
    Ok(())
}

#[test]
fn as_many_lifetimes_as_there_may_be(rt: HostRuntime) -> Result<(), ElideFault> {
    let env = no_names(rt.alloc());
    let mut params = SelfParamLifetimeLowerer::new(rt.alloc(), &env)?.no_self_ref();
    lower_all(&rt, &mut params)?;
    let more = next_number(&mut params, &Written::Anonymous);
    assert!(rt; more == Err(ElideFault::TooManyLifetimes));
    Ok(())
}

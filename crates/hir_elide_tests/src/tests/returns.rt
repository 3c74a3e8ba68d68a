//! What returns borrow for.

ghost use Rattle.std.specs.Prelude.{◌≤◌, length};
ghost use Rattle.bridge_decl.specs.Lifetimes.{IsSoundEnvironment};

use super::*;
use hir_elide::{
    ElideFault, LifetimeLowerer, LowerLifetime, ParamLifetimeLowerer, ReturnLifetimeLowerer,
    SelfParamLifetimeLowerer,
};
use std::process::Abort;

/// A signature whose parameters come next, after a receiver with that borrow.
fn after_receiver(
    alloc: Global,
    env: &LifetimeEnv,
    receiver: Option<&str>,
) -> Result<ParamLifetimeLowerer, ElideFault>
    requires { IsSoundEnvironment env.now }
{
    let start = SelfParamLifetimeLowerer::new(alloc, env)?;
    match receiver {
        Some(name) => Ok(start.lower_self_ref(&written(alloc, name)?)?.1),
        None => Ok(start.no_self_ref()),
    }
}

/// Parameters that are borrowed for these lifetimes.
fn lower_params(
    alloc: Global,
    lowerer: &mut ParamLifetimeLowerer,
    params: &[&str],
) -> Result<(), ElideFault> {
    for name in params {
        lowerer.lower_lifetime(&written(alloc, name)?)?;
    }
    Ok(())
}

/// The generic of `Self` where it stands in the receiver's type.
fn lower_own(
    alloc: Global,
    lowerer: &mut ParamLifetimeLowerer,
    env: &LifetimeEnv,
    own: Option<&str>,
) -> Result<(), ElideFault>
    requires { 1 ≤ length env.now.nodes }
{
    if let Some(name) = own {
        lowerer.lower_generics(alloc, &[written(alloc, name)?], env, true)?;
    }
    Ok(())
}

/// What a return borrows for that leaves its lifetime out, in a signature of a type with the lifetime `'a`: by the borrow of
/// its receiver, the generic of `Self` where it stands in the receiver's type, and the lifetimes of its parameters.
fn elided(
    alloc: Global,
    receiver: Option<&str>,
    own: Option<&str>,
    params: &[&str],
) -> Result<usize, ElideFault> {
    let env = one_name(alloc, "a")?;
    let mut lowerer = after_receiver(alloc, &env, receiver)?;
    lower_own(alloc, &mut lowerer, &env, own)?;
    lower_params(alloc, &mut lowerer, params)?;
    next_number(&mut lowerer.into_return_ltl(), &Written::Anonymous)
}

/// A receiver's borrow, the generic of `Self`, the lifetimes of the parameters, and what the return borrows for.
type Row = (
    Option<&'static str>,
    Option<&'static str>,
    &'static [&'static str],
    Result<usize, ElideFault>,
);

const ROWS: [Row; 13] = [
    // f(x: &O), and f(x: &'a O)
    (None, None, &["_"], Ok(1)),
    (None, None, &["a"], Ok(0)),
    // f(x: &'a O, y: &'a O), and f()
    (None, None, &["a", "a"], Err(ElideFault::ElisionAmbiguous)),
    (None, None, &[], Err(ElideFault::ElisionNoSource)),
    // `Self`'s generics don't count: f(self), f(self, x: &O), and f(self: Foo<'_>, x: &O)
    (None, Some("a"), &[], Err(ElideFault::ElisionNoSource)),
    (None, Some("a"), &["_"], Ok(1)),
    (None, Some("_"), &["_"], Ok(2)),
    // the receiver's borrow goes before all others
    (Some("_"), Some("a"), &["a", "_"], Ok(1)),
    (Some("a"), None, &["_", "_"], Ok(0)),
    (Some("static"), None, &["a"], Ok(STATIC)),
    // `'static` counts as any other
    (None, None, &["static"], Ok(STATIC)),
    (
        None,
        None,
        &["static", "_"],
        Err(ElideFault::ElisionAmbiguous),
    ),
    (None, None, &["b"], Err(ElideFault::LifetimeUnknown)),
];

#[test]
fn what_returns_borrow_for(rt: HostRuntime) {
    for (row, (receiver, own, params, expected)) in ROWS.iter().enumerate() {
        assert_eq!(rt;
            elided(rt.alloc(), *receiver, *own, params),
            *expected,
            "in row {row}"
        );
    }
}

/// `fn f(&self, x: Bar<'a>)` where `Bar` has two lifetimes; those of `x` have the numbers 0 and 2.
fn after_bar(
    rt: &impl Abort,
    alloc: Global,
    env: &LifetimeEnv,
    bar: &LifetimeEnv,
) -> Result<ReturnLifetimeLowerer, ElideFault>
    requires sound { IsSoundEnvironment env.now }
    requires some { 1 ≤ length bar.now.nodes }
{
    let mut params = after_receiver(alloc, env, Some("_"))?;
    let lifetimes = [written(alloc, "a")?];
    assert!(rt; generics_are(alloc, &mut params, &lifetimes, bar, false, &[0, 2])?);
    Ok(params.into_return_ltl())
}

/// A return of `Bar<'a>` has the numbers 0 and 1, and one of `Bar` the number 1 twice.
fn return_bar(
    rt: &impl Abort,
    alloc: Global,
    returned: &mut ReturnLifetimeLowerer,
    bar: &LifetimeEnv,
) -> Result<(), ElideFault>
    requires { 1 ≤ length bar.now.nodes }
{
    let lifetimes = [written(alloc, "a")?];
    assert!(rt; lifetimes_are(alloc, returned, &lifetimes, bar, &[0, 1])?);
    assert!(rt; generics_are(alloc, returned, &[], bar, false, &[1, 1])?);
    Ok(())
}

/// A return of `Self` has the number 3; there are four lifetimes then.
fn return_self(
    rt: &impl Abort,
    alloc: Global,
    returned: ReturnLifetimeLowerer,
    env: &LifetimeEnv,
) -> Result<(), ElideFault> {
    let mut returned = returned;
    assert!(rt; generics_are(alloc, &mut returned, &[], env, true, &[3])?);
    assert!(rt; returned.finish().num_lifetimes() == 4);
    Ok(())
}

/// A method of `Foo<'a>` that takes a `Bar<'a>`, with a return of `Bar<'a>`, `Bar` and `Self`.
#[test]
fn generics_of_returns(rt: HostRuntime) -> Result<(), ElideFault> {
    let env = one_name(rt.alloc(), "a")?;
    let bar = two_names(rt.alloc())?;
    let mut returned = after_bar(&rt, rt.alloc(), &env, &bar)?;
    return_bar(&rt, rt.alloc(), &mut returned, &bar)?;
    return_self(&rt, rt.alloc(), returned, &env)
}

//! Uses of a definition with two lifetimes.

use crate::LinkedLifetimes;
use bridge_decl::Items;
use hir_life::{Lifetime, LifetimeEnv, Lifetimes, MaybeStatic};
use std::alloc::Global;
use std::process::Abort;
use std::test::Fail;

/// The lifetime of that number.
fn numbered(number: usize) -> MaybeStatic<Lifetime> {
    MaybeStatic::NonStatic(Lifetime::new(number))
}

/// Compares every answer of the link with what was worked out by hand.
fn compare(
    rt: &impl Abort,
    link: &LinkedLifetimes<'_, '_>,
    uses: &[MaybeStatic<Lifetime>],
    all: &[(MaybeStatic<Lifetime>, Option<Lifetime>)],
) -> Result<(), Fail> {
    let mut place = 0;
    for (at_use, at_definition) in link.lifetimes_def_only() {
        assert_eq!(rt; uses.get(place), Some(&at_use));
        assert_eq!(rt; at_definition.index(), place);
        if !link.def_env().contains(at_definition) {
            return Err(Fail::from("the definition has that lifetime"));
        }
        assert_eq!(rt; link.def_to_use(at_definition), at_use);
        place = at_definition.index().saturating_add(1);
    }
    assert_eq!(rt; place, uses.len());
    let mut rest = all;
    for pair in link.lifetimes_all() {
        let Some((first, others)) = rest.split_first() else {
            return Err(Fail::from("no pair is left"));
        };
        assert_eq!(rt; pair, *first);
        rest = others;
    }
    assert_eq!(rt; rest.len(), 0);
    Ok(())
}

/// The environment of a definition with so many lifetimes, of which none has a name.
fn definition(alloc: Global, count: usize) -> LifetimeEnv {
    LifetimeEnv::new(Items::new(alloc), count)
}

#[test]
fn an_opaque_has_its_reference_first(rt: HostRuntime) -> Result<(), Fail> {
    let alloc = rt.alloc();
    let env = definition(alloc, 2);
    let uses = [MaybeStatic::Static, numbered(5)];
    let lifetimes = Lifetimes::from_slice(alloc, &uses)?;
    if lifetimes.len() != env.num_lifetimes() {
        return Err(Fail::from("two lifetimes"));
    }
    let link = LinkedLifetimes::new(&env, Some(numbered(4)), &lifetimes);
    assert_eq!(rt; link.self_lifetime(), Some(numbered(4)));
    let all = [
        (numbered(4), None),
        (MaybeStatic::Static, Some(Lifetime::new(0))),
        (numbered(5), Some(Lifetime::new(1))),
    ];
    compare(&rt, &link, &uses, &all)
}

#[test]
fn a_struct_has_none(rt: HostRuntime) -> Result<(), Fail> {
    let alloc = rt.alloc();
    let env = definition(alloc, 1);
    let lifetimes = Lifetimes::from_slice(alloc, &[numbered(0)])?;
    if lifetimes.len() != env.num_lifetimes() {
        return Err(Fail::from("one lifetime"));
    }
    let link = LinkedLifetimes::new(&env, None, &lifetimes);
    assert_eq!(rt; link.self_lifetime(), None);
    compare(
        &rt,
        &link,
        &[numbered(0)],
        &[(numbered(0), Some(Lifetime::new(0)))],
    )
}

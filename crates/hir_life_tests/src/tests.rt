//! Worked examples.

ghost use Rattle.std.specs.Prelude.{◌≡◌};
ghost use Rattle.hir_life.specs.declared.maybe_static.MaybeStatic.TheVariants.{NonStatic};

mod counted;
mod declared;
mod explaining;
mod sound;
mod visiting;

use crate::tests::counted::counted;
use bridge_decl::{IdentBuf, NoMemory};
use hir_life::{
    BoundedLifetime, Lifetime, LifetimeEnv, LifetimeList, LifetimeTransitivityIterator, Lifetimes,
    MaybeStatic,
};
use sqlite_items::Items;
use std::alloc::Global;
use std::marker::Brand;
use std::sync::ledger::Blank;
use std::test::Fail;

/// The lifetimes of one direction: of each bound that has `at` at the first end, the other end.
fn ends(alloc: Global, bounds: &[(usize, usize)], at: usize) -> Result<LifetimeList, Fail> {
    let mut list = LifetimeList::new(alloc);
    for (here, there) in bounds {
        if *here == at {
            list.push(Lifetime::new(*there))?;
        }
    }
    Ok(list)
}

/// The environment with these names and bounds, each bound as the lifetime that outlives and the one that is outlived.
fn environment(
    alloc: Global,
    names: &[&str],
    bounds: &[(usize, usize)],
    count: usize,
) -> Result<LifetimeEnv, Fail> {
    let mut nodes = Items::new(alloc);
    let mut backward = Vec::new(alloc);
    for (longer, shorter) in bounds {
        backward.push((*shorter, *longer))?;
    }
    for (at, name) in names.iter().enumerate() {
        let ident = IdentBuf::new(alloc, name)?;
        let longer = ends(alloc, &backward, at)?;
        let shorter = ends(alloc, bounds, at)?;
        nodes.push(BoundedLifetime {
            ident,
            longer,
            shorter,
        })?;
    }
    if !sound::is_sound(nodes.as_slice(), count) {
        return Err(Fail::from("the bounds don't fit"));
    }
    Ok(LifetimeEnv::new(nodes, count))
}

/// The numbers of the lifetimes that the walk gives.
fn numbers(alloc: Global, walk: LifetimeTransitivityIterator<'_>) -> Result<Vec<usize>, Fail> {
    let mut given = Vec::new(alloc);
    for lifetime in walk {
        given.push(lifetime.index())?;
    }
    Ok(given)
}

/// The numbers of the lifetimes that outlive the one of a number, as a walk gives them.
fn longer_from(alloc: Global, env: &LifetimeEnv, start: usize) -> Result<Vec<usize>, Fail> {
    if !env.contains(Lifetime::new(start)) {
        return Err(Fail::from("there is no such lifetime"));
    }
    numbers(
        alloc,
        env.all_longer_lifetimes(alloc, Lifetime::new(start))?,
    )
}

/// The numbers of the lifetimes that the one of a number outlives, as a walk gives them.
fn shorter_from(alloc: Global, env: &LifetimeEnv, start: usize) -> Result<Vec<usize>, Fail> {
    if !env.contains(Lifetime::new(start)) {
        return Err(Fail::from("there is no such lifetime"));
    }
    numbers(
        alloc,
        env.all_shorter_lifetimes(alloc, Lifetime::new(start))?,
    )
}

/// Bounds, a lifetime, and the walks from it to the longer and to the shorter ones.
type WalkRow = (
    &'static [(usize, usize)],
    usize,
    &'static [usize],
    &'static [usize],
);

// `'b: 'a, 'c: 'b`; a cycle; a diamond; `'c: 'a, 'b: 'a, 'd: 'c`; `'a: 'a`; no bounds; and lifetimes past the names.
const WALKS: [WalkRow; 10] = [
    (&[(1, 0), (2, 1)], 0, &[0, 1, 2], &[0]),
    (&[(1, 0), (2, 1)], 1, &[1, 2], &[1, 0]),
    (&[(1, 0), (2, 1)], 2, &[2], &[2, 1, 0]),
    (&[(1, 0), (2, 1), (0, 2)], 1, &[1, 2, 0], &[1, 0, 2]),
    (&[(1, 0), (2, 0), (3, 1), (3, 2)], 0, &[0, 1, 2, 3], &[0]),
    (&[(2, 0), (1, 0), (3, 2)], 0, &[0, 2, 1, 3], &[0]),
    (&[(0, 0), (1, 0)], 0, &[0, 1], &[0]),
    (&[], 3, &[3], &[3]),
    (&[(1, 0)], 4, &[4], &[4]),
    (&[(1, 0)], 5, &[5], &[5]),
];

/// Whether the walks from the lifetime of the row are those of the row.
fn walks_hold(alloc: Global, env: &LifetimeEnv, row: &WalkRow) -> Result<bool, Fail> {
    let longer = longer_from(alloc, env, row.1)?;
    let shorter = shorter_from(alloc, env, row.1)?;
    Ok(longer.as_slice() == row.2 && shorter.as_slice() == row.3)
}

fn walk_row(alloc: Global, row: &WalkRow) -> Result<bool, Fail> {
    let env = environment(alloc, &["a", "b", "c", "d"], row.0, 6)?;
    walks_hold(alloc, &env, row)
}

#[test]
fn walks(rt: HostRuntime) -> Result<(), Fail> {
    for row in &WALKS {
        assert!(rt; walk_row(rt.alloc(), row)?, "from {}", row.1);
    }
    Ok(())
}

/// `longer_of` takes one step for each lifetime of its answer.
#[test]
fn steps(rt: HostRuntime) -> Result<(), Fail> {
    let alloc = rt.alloc();
    let env = environment(alloc, &["a", "b", "c"], &[(1, 0), (2, 1)], 3)?;
    assert!(rt; env.contains(Lifetime::new(0)));
    let (longer, steps) = counted::<Brand>(alloc, &env, Lifetime::new(0), Blank::new(1))?;
    assert!(rt; steps == 3);
    assert!(rt;
        longer.as_slice() == [Lifetime::new(0), Lifetime::new(1), Lifetime::new(2)].as_slice()
    );
    Ok(())
}

fn number(n: usize) -> MaybeStatic<Lifetime>
    ensures { result ≡ NonStatic n }
{
    MaybeStatic::NonStatic(Lifetime::new(n))
}

/// The lifetimes 1, `'static` and 0 of a definition whose arguments are `'static` and 4.
fn in_method(alloc: Global) -> Result<Lifetimes, NoMemory> {
    let arguments = Lifetimes::from_slice(alloc, &[MaybeStatic::Static, number(4)])?;
    let inner = Lifetimes::from_slice(alloc, &[number(1), MaybeStatic::Static, number(0)])?;
    inner.as_method_lifetimes(alloc, &arguments)
}

#[test]
fn substitution(rt: HostRuntime) -> Result<(), Fail> {
    let outer = in_method(rt.alloc())?;
    assert!(rt;
        outer.as_slice() == [number(4), MaybeStatic::Static, MaybeStatic::Static].as_slice()
    );
    Ok(())
}

#[test]
fn substitution_of_one(rt: HostRuntime) -> Result<(), Fail> {
    let arguments = Lifetimes::from_slice(rt.alloc(), &[MaybeStatic::Static, number(4)])?;
    assert!(rt; Lifetime::new(1).as_method_lifetime(&arguments) == number(4));
    Ok(())
}

/// The lifetimes, one by one.
fn given_of(alloc: Global, lifetimes: &Lifetimes) -> Result<Lifetimes, NoMemory> {
    let mut given = Lifetimes::new(alloc);
    for lifetime in lifetimes.lifetimes() {
        given.push(lifetime)?;
    }
    Ok(given)
}

/// Whether the lifetimes come one by one as they stand in a copy of the list.
fn come_one_by_one(alloc: Global, lifetimes: &Lifetimes) -> Result<bool, NoMemory> {
    let copy = lifetimes.try_clone(alloc)?;
    let given = given_of(alloc, lifetimes)?;
    Ok(given.as_slice() == copy.as_slice() && given.len() == 3)
}

#[test]
fn given_one_by_one(rt: HostRuntime) -> Result<(), Fail> {
    let outer = in_method(rt.alloc())?;
    assert!(rt; come_one_by_one(rt.alloc(), &outer)?);
    Ok(())
}

#[test]
fn order(rt: HostRuntime) {
    assert!(rt; MaybeStatic::Static < number(0));
    assert!(rt; number(0) < number(1));
}

/// A copy of the environment of `<'a, 'b: 'a>` with one anonymous lifetime.
fn two_and_one(alloc: Global) -> Result<LifetimeEnv, Fail> {
    Ok(environment(alloc, &["a", "b"], &[(1, 0)], 3)?.try_clone(alloc)?)
}

/// The lifetimes of the environment, one by one.
fn each_of(alloc: Global, env: &LifetimeEnv) -> Result<Vec<MaybeStatic<Lifetime>>, Fail> {
    let mut all = Vec::new(alloc);
    for lifetime in env.all_lifetimes() {
        all.push(MaybeStatic::NonStatic(lifetime))?;
    }
    Ok(all)
}

/// Whether the list of the environment's lifetimes has each of them, and these are three.
fn are_all_three(alloc: Global, env: &LifetimeEnv) -> Result<bool, Fail> {
    let all = each_of(alloc, env)?;
    let list = env.lifetimes(alloc)?;
    Ok(list.as_slice() == all.as_slice() && all.len() == 3)
}

#[test]
fn lists(rt: HostRuntime) -> Result<(), Fail> {
    let env = two_and_one(rt.alloc())?;
    assert!(rt; are_all_three(rt.alloc(), &env)?);
    Ok(())
}

fn longer_bounds(env: &LifetimeEnv, number: usize) -> Option<&[Lifetime]> {
    Some(env.get_bounds(Lifetime::new(number))?.longer.as_slice())
}

fn shorter_bounds(env: &LifetimeEnv, number: usize) -> Option<&[Lifetime]> {
    Some(env.get_bounds(Lifetime::new(number))?.shorter.as_slice())
}

/// Whether `'b: 'a` are the bounds, and the anonymous lifetime has none.
fn bounds_hold(env: &LifetimeEnv) -> bool {
    longer_bounds(env, 0) == Some([Lifetime::new(1)].as_slice())
        && shorter_bounds(env, 1) == Some([Lifetime::new(0)].as_slice())
        && longer_bounds(env, 2).is_none()
}

#[test]
fn bounds(rt: HostRuntime) -> Result<(), Fail> {
    let env = two_and_one(rt.alloc())?;
    assert!(rt; bounds_hold(&env));
    Ok(())
}

/// The lifetime `'a` with the bound `'b: 'a`.
fn bounded_by_b(alloc: Global) -> Result<BoundedLifetime, Fail> {
    Ok(BoundedLifetime {
        ident: IdentBuf::new(alloc, "a")?,
        longer: ends(alloc, &[(0, 1)], 0)?,
        shorter: LifetimeList::new(alloc),
    })
}

fn is_bounded_by_b(lifetime: &BoundedLifetime) -> bool {
    lifetime.ident.as_str() == "a"
        && lifetime.shorter.len() == 0
        && lifetime.longer.as_slice().first().copied() == Some(Lifetime::new(1))
}

#[test]
fn copies(rt: HostRuntime) -> Result<(), Fail> {
    let made = bounded_by_b(rt.alloc())?;
    assert!(rt; is_bounded_by_b(&made.try_clone(rt.alloc())?));
    Ok(())
}

#[test]
fn copies_of_lists(rt: HostRuntime) -> Result<(), Fail> {
    let longer = bounded_by_b(rt.alloc())?.longer.try_clone(rt.alloc())?;
    assert!(rt; longer.as_slice().first().copied() == Some(Lifetime::new(1)));
    Ok(())
}

/// The names of `'a`, `'long_name` and twelve anonymous lifetimes, by the numbers.
const NAMES: [(usize, Option<&str>); 5] = [
    (0, Some("a")),
    (1, Some("long_name")),
    (2, Some("anon_0")),
    (13, Some("anon_11")),
    (14, None),
];

/// What the lifetime of a number is called; none where there is no such lifetime.
fn name_of(alloc: Global, env: &LifetimeEnv, number: usize) -> Result<Option<String>, Fail> {
    if !env.contains(Lifetime::new(number)) {
        return Ok(None);
    }
    let name = env.fmt_lifetime(Lifetime::new(number));
    Ok(Some(format!(in alloc; "{name}")?))
}

/// Whether the lifetime of a number has that name.
fn is_named(
    alloc: Global,
    env: &LifetimeEnv,
    number: usize,
    expected: Option<&str>,
) -> Result<bool, Fail> {
    let name = name_of(alloc, env, number)?;
    Ok(name.as_ref().map(|name| name.as_str()) == expected)
}

/// Whether the names of fourteen lifetimes are those of the rows.
fn names_hold(alloc: Global, env: &LifetimeEnv) -> Result<bool, Fail> {
    for (number, expected) in &NAMES {
        if !is_named(alloc, env, *number, *expected)? {
            return Ok(false);
        }
    }
    Ok(env.num_lifetimes() == 14)
}

#[test]
fn names(rt: HostRuntime) -> Result<(), Fail> {
    let env = environment(rt.alloc(), &["a", "long_name"], &[(1, 0)], 14)?;
    assert!(rt; names_hold(rt.alloc(), &env)?);
    Ok(())
}

//! Visits of what outlives a lifetime, and the flags of the same.

use crate::tests::environment;
use hir_life::{Lifetime, LifetimeEnv, SubtypeLifetimeVisitor};
use std::alloc::Global;
use std::test::Fail;

const NAMES: [&str; 4] = ["a", "b", "c", "d"];

/// Visits from each of the lifetimes, in their order.
fn visit_each<F: FnMut(Lifetime)>(visitor: &mut SubtypeLifetimeVisitor<'_, F>, starts: &[usize])
    requires { F.IsAlwaysCallable visitor.old.visit_fn }
    ensures { F.IsAlwaysCallable visitor.new.visit_fn }
{
    for start in starts {
        visitor.visit_subtypes(Lifetime::new(*start));
    }
}

/// How often each lifetime is visited from these starts.
fn visits(alloc: Global, env: &LifetimeEnv, starts: &[usize]) -> Result<Vec<u32>, Fail> {
    let mut counts = vec![in alloc; 0u32; env.num_lifetimes()]?;
    let mut visitor = env.subtype_lifetimes_visitor(alloc, |lt: Lifetime| {
        if let Some(count) = counts.get_mut(lt.index()) {
            *count = count.saturating_add(1);
        }
    })?;
    visit_each(&mut visitor, starts);
    drop(visitor);
    Ok(counts)
}

/// Bounds, the starts of visits with one visitor, and how often each lifetime is visited.
type VisitRow = (&'static [(usize, usize)], &'static [usize], &'static [u32]);

// `'b: 'a, 'c: 'b`, from `'b`, `'a` and `'b`, and from an anonymous lifetime; a cycle; a diamond; `'a: 'a`; no start.
const VISITS: [VisitRow; 6] = [
    (&[(1, 0), (2, 1)], &[1, 0, 1], &[1, 1, 1, 0, 0, 0]),
    (&[(1, 0), (2, 1)], &[4, 1], &[0, 1, 1, 0, 0, 0]),
    (&[(1, 0), (2, 1), (0, 2)], &[1], &[1, 1, 1, 0, 0, 0]),
    (
        &[(1, 0), (2, 0), (3, 1), (3, 2)],
        &[2, 1],
        &[0, 1, 1, 1, 0, 0],
    ),
    (&[(0, 0), (1, 0)], &[0, 0], &[1, 1, 0, 0, 0, 0]),
    (&[(1, 0)], &[], &[0, 0, 0, 0, 0, 0]),
];

/// Whether the visits of a row are those that are made.
fn visit_row(alloc: Global, row: &VisitRow) -> Result<bool, Fail> {
    let env = environment(alloc, &NAMES, row.0, 6)?;
    let counts = visits(alloc, &env, row.1)?;
    Ok(counts.as_slice() == row.2)
}

#[test]
fn visited(rt: HostRuntime) -> Result<(), Fail> {
    for (number, row) in VISITS.iter().enumerate() {
        assert!(rt; visit_row(rt.alloc(), row)?, "row {number}");
    }
    Ok(())
}

/// Bounds, a lifetime, and of each lifetime whether it outlives that one.
type FlagRow = (&'static [(usize, usize)], usize, &'static [bool]);

// `'b: 'a, 'c: 'b` from `'b`; a diamond; an anonymous lifetime.
const FLAGS: [FlagRow; 3] = [
    (
        &[(1, 0), (2, 1)],
        1,
        &[false, true, true, false, false, false],
    ),
    (
        &[(1, 0), (2, 0), (3, 1), (3, 2)],
        0,
        &[true, true, true, true, false, false],
    ),
    (&[(1, 0)], 4, &[false, false, false, false, true, false]),
];

/// Whether the flags of the lifetime of a number are these.
fn flags_are(
    alloc: Global,
    env: &LifetimeEnv,
    number: usize,
    flags: &[bool],
) -> Result<bool, Fail> {
    if !env.contains(Lifetime::new(number)) {
        return Ok(false);
    }
    let found = env.outliving_flags(alloc, Lifetime::new(number))?;
    Ok(found.as_slice() == flags)
}

fn flag_row(alloc: Global, row: &FlagRow) -> Result<bool, Fail> {
    let env = environment(alloc, &NAMES, row.0, 6)?;
    flags_are(alloc, &env, row.1, row.2)
}

#[test]
fn flags(rt: HostRuntime) -> Result<(), Fail> {
    for row in &FLAGS {
        assert!(rt; flag_row(rt.alloc(), row)?, "of {}", row.1);
    }
    Ok(())
}

//! Why a leaf is listed under a lifetime, or why it isn't.
//!
//! The lifetimes are `'a`, `'b: 'a`, `'c: 'b` and `'d`, in this order, so that 2, 1, 0 is the one chain that leads far.

ghost use Rattle.std.specs.Prelude.{IfOk};
ghost use Rattle.hir_life.specs.Substitution.{AreBelow};

use super::environment;
use hir_explain::{Explanation, check_explanation, explain_leaf};
use hir_life::{Lifetime, LifetimeEnv, LifetimeList, Lifetimes, MaybeStatic};
use std::alloc::Global;
use std::process::Abort;
use std::test::Fail;

/// The bounds, each as the lifetime that outlives and the one that is outlived.
const BOUNDS: &[(usize, usize)] = &[(1, 0), (2, 1)];

/// What a leaf carries, where none stands for `'static`, and the lifetime that is asked of.
type Leaf = (&'static [Option<usize>], usize);

/// A leaf, and the chain by which it is listed, or the lifetimes that separate it, in ascending order.
const EXPLAINED: [(Leaf, bool, &[usize]); 9] = [
    ((&[Some(2)], 0), true, &[2, 1, 0]),
    ((&[Some(1)], 0), true, &[1, 0]),
    ((&[Some(0)], 0), true, &[0]),
    ((&[Some(3), Some(1)], 0), true, &[1, 0]),
    ((&[None, Some(2)], 1), true, &[2, 1]),
    ((&[Some(3)], 0), false, &[0, 1, 2]),
    ((&[None], 0), false, &[0, 1, 2]),
    ((&[], 1), false, &[1, 2]),
    ((&[Some(0), Some(1)], 2), false, &[2]),
];

/// A leaf, whether the numbers are meant as a chain, they, and whether they explain it.
const CHECKED: [(Leaf, bool, &[usize], bool); 15] = [
    ((&[Some(2)], 0), true, &[2, 1, 0], true),
    // 2 is no direct bound of 0.
    ((&[Some(2)], 0), true, &[2, 0], false),
    // Nothing carries 1, where the chain begins.
    ((&[Some(2)], 0), true, &[1, 0], false),
    // It ends before 0.
    ((&[Some(2)], 0), true, &[2, 1], false),
    ((&[Some(2)], 0), true, &[0, 1, 2], false),
    ((&[Some(2)], 0), true, &[], false),
    ((&[Some(3)], 0), true, &[3, 0], false),
    ((&[Some(3)], 0), false, &[0, 1, 2], true),
    ((&[Some(3)], 0), false, &[2, 0, 1], true),
    ((&[None], 0), false, &[0, 1, 2], true),
    // 2 outlives 1, so it is long where 1 is.
    ((&[Some(3)], 0), false, &[0, 1], false),
    // 0 itself has to be long.
    ((&[Some(3)], 0), false, &[1, 2], false),
    // What is carried may not be long.
    ((&[Some(3)], 0), false, &[0, 1, 2, 3], false),
    ((&[Some(2)], 0), false, &[0, 1, 2], false),
    // There is no lifetime 4.
    ((&[Some(3)], 0), false, &[0, 1, 2, 4], false),
];

/// The lifetimes of these numbers, each of which has to be one of the environment.
fn carried_of(
    alloc: Global,
    env: &LifetimeEnv,
    numbers: &[Option<usize>],
) -> Result<Lifetimes, Fail>
    ensures { IfOk result (AreBelow env.now.count) }
{
    let mut carried = Lifetimes::new(alloc);
    for number in numbers {
        match number {
            Some(number) => {
                if !env.contains(Lifetime::new(*number)) {
                    return Err(Fail::from("there is no such lifetime"));
                }
                carried.push(MaybeStatic::NonStatic(Lifetime::new(*number)))?;
            }
            None => carried.push(MaybeStatic::Static)?,
        }
    }
    Ok(carried)
}

/// The numbers as an explanation of that kind.
fn explanation(alloc: Global, is_chain: bool, numbers: &[usize]) -> Result<Explanation, Fail> {
    let mut list = LifetimeList::new(alloc);
    for number in numbers {
        list.push(Lifetime::new(*number))?;
    }
    if is_chain {
        Ok(Explanation::Chain(list))
    } else {
        Ok(Explanation::Separating(list))
    }
}

/// The explanation that is made for a leaf.
fn made(alloc: Global, env: &LifetimeEnv, leaf: &Leaf) -> Result<Explanation, Fail> {
    let (numbers, t) = leaf;
    let t = Lifetime::new(*t);
    let carried = carried_of(alloc, env, numbers)?;
    if !env.contains(t) {
        return Err(Fail::from("there is no such lifetime"));
    }
    Ok(explain_leaf(alloc, env, &carried, t)?)
}

/// Whether it is of that kind, and its numbers, which ascend where they separate.
fn numbers_of(alloc: Global, explanation: &Explanation) -> Result<(bool, Vec<usize>), Fail> {
    let (is_chain, list) = match explanation {
        Explanation::Chain(list) => (true, list),
        Explanation::Separating(list) => (false, list),
    };
    let mut numbers = Vec::new(alloc);
    for lifetime in list.as_slice() {
        numbers.push(lifetime.index())?;
    }
    if !is_chain {
        numbers.sort_unstable();
    }
    Ok((is_chain, numbers))
}

fn explain_row(
    rt: &impl Abort,
    env: &LifetimeEnv,
    alloc: Global,
    row: &(Leaf, bool, &[usize]),
) -> Result<(), Fail> {
    let (leaf, is_listed, numbers) = row;
    let explanation = made(alloc, env, leaf)?;
    let (is_chain, given) = numbers_of(alloc, &explanation)?;
    assert!(rt; is_chain == *is_listed);
    assert!(rt; given.as_slice() == *numbers);
    Ok(())
}

fn explain_rows(rt: &impl Abort, env: &LifetimeEnv, alloc: Global) -> Result<(), Fail> {
    for row in &EXPLAINED {
        explain_row(rt, env, alloc, row)?;
    }
    Ok(())
}

#[test]
fn leaves_are_explained(rt: HostRuntime) -> Result<(), Fail> {
    let env = environment(rt.alloc(), &["a", "b", "c", "d"], BOUNDS, 4)?;
    let explained = explain_rows(&rt, &env, rt.alloc());
    drop(env);
    explained
}

fn check_row(
    rt: &impl Abort,
    env: &LifetimeEnv,
    alloc: Global,
    row: &(Leaf, bool, &[usize], bool),
) -> Result<(), Fail> {
    let ((carried, t), is_chain, numbers, is_right) = row;
    let carried = carried_of(alloc, env, carried)?;
    let explanation = explanation(alloc, *is_chain, numbers)?;
    let answer = check_explanation(env, &carried, Lifetime::new(*t), &explanation);
    assert!(rt; answer == *is_right);
    Ok(())
}

fn check_rows(rt: &impl Abort, env: &LifetimeEnv, alloc: Global) -> Result<(), Fail> {
    for row in &CHECKED {
        check_row(rt, env, alloc, row)?;
    }
    Ok(())
}

#[test]
fn explanations_are_checked(rt: HostRuntime) -> Result<(), Fail> {
    let env = environment(rt.alloc(), &["a", "b", "c", "d"], BOUNDS, 4)?;
    let checked = check_rows(&rt, &env, rt.alloc());
    drop(env);
    checked
}

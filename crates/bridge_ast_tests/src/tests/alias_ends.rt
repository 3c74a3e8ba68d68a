//! Long chains of aliases.

ghost use Rattle.std.specs.Prelude.{◌<◌};

use super::declared::{items, root, type_at};
use bridge_ast::{Alias, Env, Module, Text};
use sqlite_items::Items;
use std::alloc::Global;
use std::test::Fail;

/// The name of the alias of a number.
fn name_of(alloc: Global, number: u128) -> Result<Text, Fail> {
    Ok(Text::new(alloc, format!(in alloc; "a{number}")?.as_str())?)
}

/// The path that begins with this name and goes on with these segments.
fn target_of(alloc: Global, first: Text, after: &str) -> Result<Items<Text>, Fail> {
    let mut target = Items::new(alloc);
    target.push(first)?;
    for segment in after.split_whitespace() {
        target.push(Text::new(alloc, segment)?)?;
    }
    Ok(target)
}

/// The alias of a number in a chain: the last is for the end, each other for the next one.
fn link(alloc: Global, number: usize, count: usize, after: &str, end: &str) -> Result<Alias, Fail>
    requires { number < count }
{
    let next = if count - number == 1 {
        Text::new(alloc, end)?
    } else {
        name_of(alloc, number as u128 + 1)?
    };
    Ok(Alias {
        name: name_of(alloc, number as u128)?,
        target: target_of(alloc, next, after)?,
    })
}

/// The root with an enum `R` and aliases, each for the next with some segments after it; the last is for the end.
fn chain(alloc: Global, count: usize, after: &str, end: &str) -> Result<Vec<Module>, Fail> {
    let mut aliases = Items::new(alloc);
    for number in 0..count {
        aliases.push(link(alloc, number, count, after, end)?)?;
    }
    root(alloc, items(alloc, "R")?, aliases)
}

/// What `a0` names where so many aliases stand in such a chain.
fn end_of_chain(
    alloc: Global,
    count: usize,
    after: &str,
    end: &str,
) -> Result<Option<(usize, usize)>, Fail> {
    let env = Env::new(alloc, chain(alloc, count, after, end)?)?;
    let named = type_at(alloc, &env, 0, "a0");
    drop(env);
    named
}

/// How many aliases stand in a chain, the segments after each alias, the end, and what the first alias names.
const CHAINS: [(usize, &str, &str, Option<(usize, usize)>); 7] = [
    (10000, "", "R", Some((0, 0))),
    (10000, "", "a0", None),
    (10000, "", "Q", None),
    (2, "", "a0", None),
    (10000, "m", "crate", None),
    (10000, "m", "a5000", None),
    (1, "R", "crate", Some((0, 0))),
];

#[test]
fn chains_of_aliases(rt: HostRuntime) -> Result<(), Fail> {
    for (count, after, end, expected) in CHAINS {
        let named = end_of_chain(rt.alloc(), count, after, end)?;
        assert!(rt; named == expected, "of {count} aliases to {end}");
    }
    Ok(())
}

//! What paths name.

use super::declared::{Declared, modules, trait_at, type_at};
use bridge_ast::Env;
use std::alloc::Global;
use std::test::Fail;

/// Paths by the module in which they are read, and the number of the module and of the item that each names, worked out by hand.
type Row = (usize, &'static str, Option<(usize, usize)>);

const DECLARED: [Declared; 3] = [
    (
        "",
        "R T O",
        "a=m b=a c=b::X x=y y=x k=m::k trait=self::T nothing=",
    ),
    ("m", "X k", "back=super::R top=super::super::R s=X up=super"),
    ("m::n", "Y", "here=super"),
];

/// Paths to types. Two colons alone are the path without segments.
const PATHS: [Row; 11] = [
    (0, "R nothing::crate::R", Some((0, 0))),
    (0, "O", Some((0, 2))),
    (0, "a::X b::X c m::s", Some((1, 0))),
    (0, "k", Some((1, 1))),
    (0, "T trait x x::R nothing m R::X", None),
    (0, "super::R crate::super::R Q ::", None),
    (1, "back super::R crate::R", Some((0, 0))),
    (1, "self::X", Some((1, 0))),
    (1, "n::Y", Some((2, 0))),
    (1, "top n::crate::R n::self::Y up::super::R", None),
    (
        2,
        "super::super::R super::up::R here::super::R",
        Some((0, 0)),
    ),
];

/// Paths to traits.
const TRAITS: [Row; 2] = [(0, "trait T", Some((0, 1))), (0, "R", None)];

/// Modules with cycles of aliases.
const BRANCHED: [Declared; 3] = [
    (
        "",
        "R T O",
        "in=m again=in item=R one=one two=owt owt=two x=y y=z z=x k=m::k nothing=",
    ),
    (
        "m",
        "X k",
        "up=super top=super::super::R root=crate::R here=self::X",
    ),
    ("m::n", "Y", ""),
];

/// Paths to types and traits. Two colons alone are the path without segments.
const BRANCHED_PATHS: [Row; 22] = [
    (0, "::", None),
    (0, "R", Some((0, 0))),
    (0, "T", Some((0, 1))),
    (0, "O", Some((0, 2))),
    (0, "m::n::Y", Some((2, 0))),
    // aliases into modules and of aliases
    (0, "in", None),
    (0, "in::X again::X", Some((1, 0))),
    (0, "again::n::Y", Some((2, 0))),
    // cycles of one, two and three
    (0, "one one::R two owt::R x y::R", None),
    // `super`, also above the root
    (2, "super::super::R", Some((0, 0))),
    (2, "super::super::super::R", None),
    (0, "m::up::R", Some((0, 0))),
    (0, "super::R m::up::super::R crate::super::R", None),
    (1, "top", None),
    // `crate` and `self`, also in the middle
    (2, "crate::R", Some((0, 0))),
    (1, "self::X super::nothing::m::X", Some((1, 0))),
    (1, "root", Some((0, 0))),
    (0, "m::here", Some((1, 0))),
    (
        0,
        "m::crate::R m::self::X crate::crate::R self::self::R",
        None,
    ),
    // items that aren't the last segment, and an alias whose target is empty
    (0, "R::X item::X nothing", None),
    (0, "item nothing::R nothing::self::R", Some((0, 0))),
    // an alias with the name of a segment of its target
    (0, "k", Some((1, 1))),
];

/// `d3` takes seven alias steps: its own, those of two `d2`, and those of four `d1`.
const DOUBLED: [Declared; 1] = [("", "R", "d1=crate d2=d1::d1 d3=d2::d2 more=")];

const DOUBLED_PATHS: [Row; 2] = [
    // one more than four aliases and two segments; and eight, where four aliases and three segments allow seven
    (0, "d3::R d3::d1::R", None),
    // as many as four aliases and three segments; and eight with one segment more
    (0, "self::d3::R self::d3::d1::R", Some((0, 0))),
];

/// What a path is to name.
#[derive(Clone, Copy)]
enum Sought {
    Type,
    Trait,
    Either,
}

/// The place of what is sought, if the path names it.
fn place_at(
    alloc: Global,
    env: &Env,
    sought: Sought,
    in_module: usize,
    path: &str,
) -> Result<Option<(usize, usize)>, Fail> {
    let place = match sought {
        Sought::Type => None,
        Sought::Trait | Sought::Either => trait_at(alloc, env, in_module, path)?,
    };
    match (sought, place) {
        (Sought::Type, _) | (Sought::Either, None) => type_at(alloc, env, in_module, path),
        (Sought::Trait, _) | (Sought::Either, Some(_)) => Ok(place),
    }
}

/// The first path of a row that doesn't name what the row says.
fn wrong_in<'r>(
    alloc: Global,
    env: &Env,
    sought: Sought,
    row: &'r Row,
) -> Result<Option<&'r str>, Fail> {
    for path in row.1.split_whitespace() {
        if place_at(alloc, env, sought, row.0, path)? != row.2 {
            return Ok(Some(path));
        }
    }
    Ok(None)
}

/// The first path of the rows that doesn't name what its row says.
fn first_wrong<'r>(
    alloc: Global,
    env: &Env,
    sought: Sought,
    rows: &'r [Row],
) -> Result<Option<&'r str>, Fail> {
    for row in rows {
        let wrong = wrong_in(alloc, env, sought, row)?;
        if wrong.is_some() {
            return Ok(wrong);
        }
    }
    Ok(None)
}

/// The environment of these modules.
fn environment(alloc: Global, declared: &[Declared]) -> Result<Env, Fail> {
    Ok(Env::new(alloc, modules(alloc, declared)?)?)
}

/// The same as the first wrong path, where the environment has so many modules.
fn first_wrong_of(
    alloc: Global,
    env: &Env,
    count: usize,
    sought: Sought,
    rows: &'static [Row],
) -> Result<Option<&'static str>, Fail> {
    if env.modules().len() != count {
        return Err(Fail::from("there aren't as many modules"));
    }
    first_wrong(alloc, env, sought, rows)
}

/// The same in an environment of these modules, of which there are as many.
fn first_wrong_among(
    alloc: Global,
    declared: &[Declared],
    sought: Sought,
    rows: &'static [Row],
) -> Result<Option<&'static str>, Fail> {
    let env = environment(alloc, declared)?;
    let wrong = first_wrong_of(alloc, &env, declared.len(), sought, rows);
    drop(env);
    wrong
}

#[test]
fn types_that_paths_name(rt: HostRuntime) -> Result<(), Fail> {
    let wrong = first_wrong_among(rt.alloc(), &DECLARED, Sought::Type, &PATHS)?;
    assert_eq!(rt; wrong, None);
    Ok(())
}

#[test]
fn traits_that_paths_name(rt: HostRuntime) -> Result<(), Fail> {
    let wrong = first_wrong_among(rt.alloc(), &DECLARED, Sought::Trait, &TRAITS)?;
    assert_eq!(rt; wrong, None);
    Ok(())
}

#[test]
fn types_and_traits_that_paths_name(rt: HostRuntime) -> Result<(), Fail> {
    let wrong = first_wrong_among(rt.alloc(), &BRANCHED, Sought::Either, &BRANCHED_PATHS)?;
    assert_eq!(rt; wrong, None);
    Ok(())
}

#[test]
fn paths_of_as_many_aliases_as_are_followed(rt: HostRuntime) -> Result<(), Fail> {
    let wrong = first_wrong_among(rt.alloc(), &DOUBLED, Sought::Either, &DOUBLED_PATHS)?;
    assert_eq!(rt; wrong, None);
    Ok(())
}

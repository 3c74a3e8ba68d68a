//! Marks under conditions. A rename under `auto` is told, so that what meets a condition is seen.

use super::{knowing, read};
use bridge_decl::{Items, NoMemory, Text};
use hir_attrs::{BackendAttrSupport, BasicAttributeValidator, Pairs, SupportFlag};
use std::alloc::Global;
use std::process::Abort;

/// What `rename = 'x'` comes to where its condition is met, by `auto`, and isn't, and where it has a fault.
const MET: &str = "rename(x)";

const BY_AUTO: &str = "rename(x) !AutoIneligible(rename)";

const NOT: &str = "-";

const MISPLACED: &str = "!AutoMisplaced";

const UNKNOWN: &str = "!UnknownPair";

const ROWS: [(&str, &str); 60] = [
    ("*", MET),
    ("auto", BY_AUTO),
    ("cpp", MET),
    ("c++", MET),
    ("js", NOT),
    ("Cpp", NOT),
    ("cp", NOT),
    ("supports=traits", MET),
    ("supports=callbacks", NOT),
    ("supports=nothing", UNKNOWN),
    ("supports=default", UNKNOWN),
    ("supports=defaults", NOT),
    ("supports=static_accessors", NOT),
    ("feature=data", MET),
    ("feature=nothing", NOT),
    ("abi=itanium", MET),
    ("abi=msvc", NOT),
    ("os=itanium", NOT),
    ("not( js )", MET),
    ("not( cpp )", NOT),
    ("not( * )", NOT),
    ("not( auto )", MISPLACED),
    ("not( supports=nothing )", UNKNOWN),
    ("not( supports=callbacks )", MET),
    ("not( not( cpp ) )", MET),
    ("not( not( auto ) )", MISPLACED),
    ("not( any( js auto ) )", MISPLACED),
    ("not( any( cpp auto ) )", NOT),
    ("any( )", NOT),
    ("any( auto )", BY_AUTO),
    ("any( auto cpp )", BY_AUTO),
    ("any( cpp auto )", MET),
    ("any( js auto )", BY_AUTO),
    ("any( js kotlin )", NOT),
    ("any( js * auto )", MET),
    ("any( cpp supports=nothing )", MET),
    ("any( supports=nothing cpp )", UNKNOWN),
    ("any( js supports=nothing auto )", UNKNOWN),
    ("any( cpp all( auto ) )", MET),
    ("any( js all( auto ) )", MISPLACED),
    ("any( all( auto ) cpp )", MISPLACED),
    ("any( any( any( auto ) ) )", BY_AUTO),
    ("any( any( js ) any( auto ) )", BY_AUTO),
    ("any( not( js ) auto )", MET),
    ("any( not( cpp ) auto )", BY_AUTO),
    ("any( not( auto ) auto )", MISPLACED),
    ("all( )", MET),
    ("all( cpp )", MET),
    ("all( auto )", MISPLACED),
    ("all( cpp auto )", MISPLACED),
    ("all( js auto )", NOT),
    ("all( js supports=nothing )", NOT),
    ("all( cpp supports=nothing )", UNKNOWN),
    ("all( supports=nothing auto )", UNKNOWN),
    ("all( cpp * not( js ) )", MET),
    ("all( cpp any( auto ) )", MISPLACED),
    ("all( any( cpp auto ) c++ )", MET),
    ("all( cpp not( all( js auto ) ) )", MET),
    ("all( cpp not( all( ) ) )", NOT),
    ("all( all( all( ) any( c++ ) ) feature=data )", MET),
];

fn pairs(alloc: Global, name: &str, value: &str) -> Result<Pairs, NoMemory> {
    let mut items = Items::new(alloc);
    items.push((Text::new(alloc, name)?, Text::new(alloc, value)?))?;
    Pairs::new(alloc, items)
}

/// The backend `cpp`, also called `c++`, with traits, the feature `data` and one pair.
fn with_traits(alloc: Global) -> Result<BasicAttributeValidator, NoMemory> {
    let support = BackendAttrSupport::none().with(SupportFlag::Traits);
    let pairs = pairs(alloc, "abi", "itanium")?;
    knowing(alloc, support, pairs, ("c++", "data", ""))
}

/// What the rename comes to under a condition.
fn renamed(
    alloc: Global,
    backend: &BasicAttributeValidator,
    condition: &str,
) -> Result<String, NoMemory> {
    let mut text = String::from_str(alloc, condition)?;
    text.push_str(", rename = 'x'")?;
    read(alloc, backend, text.as_str())
}

/// Compares what the rename comes to under each condition.
fn compare_renamed(
    rt: &impl Abort,
    alloc: Global,
    backend: &BasicAttributeValidator,
) -> Result<(), NoMemory> {
    for (condition, text) in &ROWS {
        assert!(rt; renamed(alloc, backend, condition)?.as_str() == *text);
    }
    Ok(())
}

#[test]
fn a_mark_counts_under_its_condition(rt: HostRuntime) -> Result<(), NoMemory> {
    let backend = with_traits(rt.alloc())?;
    compare_renamed(&rt, rt.alloc(), &backend)
}

/// Lists that stand one within the other, how many times, what stands innermost, and what it comes to. No input nests deeper than 127
/// lists and objects.
const NESTED: [(&str, usize, &str, &str); 14] = [
    ("any( ", 1, "auto", BY_AUTO),
    ("any( ", 127, "auto", BY_AUTO),
    ("any( ", 127, "cpp", MET),
    ("any( ", 127, "js", NOT),
    ("any( ", 127, "supports=nothing", UNKNOWN),
    ("any( ", 127, "not( auto )", MISPLACED),
    ("any( js ", 127, "auto", BY_AUTO),
    ("all( ", 127, "cpp", MET),
    ("all( cpp ", 127, "js", NOT),
    ("all( ", 127, "auto", MISPLACED),
    ("not( ", 126, "cpp", MET),
    ("not( ", 127, "cpp", NOT),
    ("not( ", 127, "supports=nothing", UNKNOWN),
    ("not( ", 127, "auto", MISPLACED),
];

fn nested(alloc: Global, list: &str, times: usize, inner: &str) -> Result<String, NoMemory> {
    let mut text = String::new(alloc);
    for _ in 0..times {
        text.push_str(list)?;
    }
    text.push_str(inner)?;
    for _ in 0..times {
        text.push_str(" )")?;
    }
    Ok(text)
}

/// Whether the row's condition comes to what it says.
fn nests(
    alloc: Global,
    backend: &BasicAttributeValidator,
    (list, times, inner, text): &(&str, usize, &str, &str),
) -> Result<bool, NoMemory> {
    let condition = nested(alloc, list, *times, inner)?;
    Ok(renamed(alloc, backend, condition.as_str())?.as_str() == *text)
}

/// Compares each row.
fn compare_nested(
    rt: &impl Abort,
    alloc: Global,
    backend: &BasicAttributeValidator,
) -> Result<(), NoMemory> {
    for row in &NESTED {
        assert!(rt; nests(alloc, backend, row)?);
    }
    Ok(())
}

#[test]
fn conditions_nest(rt: HostRuntime) -> Result<(), NoMemory> {
    let backend = with_traits(rt.alloc())?;
    compare_nested(&rt, rt.alloc(), &backend)
}

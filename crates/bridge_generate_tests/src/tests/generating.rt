//! The declarations for 1, for 9 and for 10,000.

use super::lines::{line_of, put_attrs};
use bridge_ast::{Item, Module};
use bridge_generate::generated;
use std::alloc::Global;
use std::process::Abort;
use std::test::Fail;

/// The items for 1.
const ONE: [&str; 3] = [
    "opaque O freed by O",
    "struct S0 'a, x: &'a O",
    "fn f0 as f0 'a below 1 'b above 0, p: S0<'a>, q: &'b O -> &'a O",
];

/// The items for 9.
const NINE: [&str; 19] = [
    "opaque O freed by O",
    "struct S0 'a, x: &'a O",
    "struct S1 'a, x: &'a O, s: S0<'a>",
    "struct S2 'a, x: &'a O, s: S1<'a>",
    "struct S3 'a, x: &'a O, s: S2<'a>",
    "struct S4 'a, x: &'a O, s: S3<'a>",
    "struct S5 'a, x: &'a O, s: S4<'a>",
    "struct S6 'a, x: &'a O, s: S5<'a>",
    "struct S7 'a, x: &'a O, s: S6<'a>",
    "struct S8 'a, x: &'a O",
    "fn f0 as f0 'a below 1 'b above 0, p: S0<'a>, q: &'b O -> &'a O",
    "fn f1 as f1 'a below 1 'b above 0, p: S1<'a>, q: &'b O -> &'a O",
    "fn f2 as f2 'a below 1 'b above 0, p: S2<'a>, q: &'b O -> &'a O",
    "fn f3 as f3 'a below 1 'b above 0, p: S3<'a>, q: &'b O -> &'a O",
    "fn f4 as f4 'a below 1 'b above 0, p: S4<'a>, q: &'b O -> &'a O",
    "fn f5 as f5 'a below 1 'b above 0, p: S5<'a>, q: &'b O -> &'a O",
    "fn f6 as f6 'a below 1 'b above 0, p: S6<'a>, q: &'b O -> &'a O",
    "fn f7 as f7 'a below 1 'b above 0, p: S7<'a>, q: &'b O -> &'a O",
    "fn f8 as f8 'a below 1 'b above 0, p: S8<'a>, q: &'b O -> &'a O",
];

/// Whether it is the root, without aliases and attributes.
fn is_plain_root(alloc: Global, module: &Module) -> Result<bool, Fail> {
    let mut marks = String::new(alloc);
    put_attrs(&mut marks, &module.attrs)?;
    Ok(module.path.is_empty() && module.aliases.is_empty() && marks.is_empty())
}

/// Compares the items with their lines.
fn compare(
    rt: &impl Abort,
    alloc: Global,
    items: &[Item],
    expected: &[&'static str],
) -> Result<(), Fail> {
    assert!(rt; items.len() == expected.len());
    for (place, item) in items.iter().enumerate() {
        let line = line_of(alloc, item)?;
        let wanted = expected.get(place).copied().unwrap_or("");
        assert_eq!(rt; line.as_str(), wanted, "at {place}");
    }
    Ok(())
}

#[test]
fn the_least(rt: HostRuntime) -> Result<(), Fail> {
    let env = generated(rt.alloc(), 1)?;
    let root = env.modules().first().ok_or("no module")?;
    compare(&rt, rt.alloc(), root.items.as_slice(), &ONE)
}

#[test]
fn more_than_eight(rt: HostRuntime) -> Result<(), Fail> {
    let env = generated(rt.alloc(), 9)?;
    assert!(rt; env.modules().len() == 1);
    let root = env.modules().first().ok_or("no module")?;
    assert!(rt; is_plain_root(rt.alloc(), root)?);
    compare(&rt, rt.alloc(), root.items.as_slice(), &NINE)
}

/// The line of the item at a place.
fn line_at(alloc: Global, items: &[Item], place: usize) -> Result<String, Fail> {
    Ok(line_of(alloc, items.get(place).ok_or("no such item")?)?)
}

/// Two of the items for 10,000, by their places.
const OF_MANY: [(usize, &str); 2] = [
    (10000, "struct S9999 'a, x: &'a O, s: S9998<'a>"),
    (
        20000,
        "fn f9999 as f9999 'a below 1 'b above 0, p: S9999<'a>, q: &'b O -> &'a O",
    ),
];

#[test]
fn the_most(rt: HostRuntime) -> Result<(), Fail> {
    let env = generated(rt.alloc(), 10000)?;
    let root = env.modules().first().ok_or("no module")?;
    assert!(rt; root.items.len() == 20001);
    for (place, expected) in OF_MANY {
        let line = line_at(rt.alloc(), root.items.as_slice(), place)?;
        assert_eq!(rt; line.as_str(), expected, "at {place}");
    }
    Ok(())
}

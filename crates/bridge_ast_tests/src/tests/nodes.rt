//! The first faults of lifetimes.

use super::declared::{Expected, attrs, docs, fault_of, root};
use bridge_ast::{
    Env, EnvFaultKind, EnvPart, EnvPlace, Item, LifetimeEnv, LifetimeNode, Module, Struct, Text,
};
use sqlite_items::Items;
use std::alloc::Global;
use std::test::Fail;

/// The name of a lifetime, and the digits of the numbers that it lists as longer and as shorter.
type Node = (&'static str, &'static str, &'static str);

fn numbers(alloc: Global, digits: &str) -> Result<Items<usize>, Fail> {
    let mut made = Items::new(alloc);
    for digit in digits.as_bytes() {
        made.push(digit.saturating_sub(b'0') as usize)?;
    }
    Ok(made)
}

fn node(alloc: Global, declared: &Node) -> Result<LifetimeNode, Fail> {
    let (name, longer, shorter) = declared;
    Ok(LifetimeNode {
        name: Text::new(alloc, name)?,
        longer: numbers(alloc, longer)?,
        shorter: numbers(alloc, shorter)?,
    })
}

fn environment(alloc: Global, nodes: &[Node]) -> Result<LifetimeEnv, Fail> {
    let mut made = Items::new(alloc);
    for declared in nodes {
        made.push(node(alloc, declared)?)?;
    }
    Ok(LifetimeEnv { nodes: made })
}

/// A struct that has those lifetimes.
fn struct_with(alloc: Global, lifetimes: LifetimeEnv) -> Result<Item, Fail> {
    Ok(Item::Struct(Struct {
        name: Text::new(alloc, "S")?,
        lifetimes,
        fields: Items::new(alloc),
        methods: Items::new(alloc),
        output_only: false,
        docs: docs(alloc),
        attrs: attrs(alloc),
    }))
}

/// The root with one struct that has those lifetimes.
fn root_with(alloc: Global, lifetimes: LifetimeEnv) -> Result<Vec<Module>, Fail> {
    let mut items = Items::new(alloc);
    items.push(struct_with(alloc, lifetimes)?)?;
    root(alloc, items, Items::new(alloc))
}

/// The first fault of the root with one struct that has those lifetimes.
fn fault_with(alloc: Global, lifetimes: LifetimeEnv) -> Result<Option<Expected>, Fail> {
    Ok(fault_of(Env::new(alloc, root_with(alloc, lifetimes)?)))
}

/// The lifetimes of a struct, and their first fault: its kind, its number, and the number of the earlier one.
const LIFETIMES: [(&[Node], Option<(EnvFaultKind, usize, Option<usize>)>); 9] = [
    (&[], None),
    // 'b: 'a
    (&[("a", "1", ""), ("b", "", "0")], None),
    (&[("a", "0", "0")], None),
    (
        &[("a", "0", "")],
        Some((EnvFaultKind::BoundOneSided, 0, None)),
    ),
    (
        &[("a", "", ""), ("b", "", "0")],
        Some((EnvFaultKind::BoundOneSided, 1, None)),
    ),
    (
        &[("a", "2", ""), ("b", "", "")],
        Some((EnvFaultKind::BoundOutOfRange, 0, None)),
    ),
    (
        &[("a", "", ""), ("b", "0", "7")],
        Some((EnvFaultKind::BoundOutOfRange, 1, None)),
    ),
    (
        &[("a", "", ""), ("a", "9", "")],
        Some((EnvFaultKind::DuplicateLifetime, 1, Some(0))),
    ),
    (
        &[("a", "1", ""), ("a", "", "")],
        Some((EnvFaultKind::BoundOneSided, 0, None)),
    ),
];

fn node_place(node: usize) -> EnvPlace {
    EnvPlace {
        module: 0,
        part: EnvPart::Node {
            item: 0,
            method: None,
            node,
        },
    }
}

fn node_fault(expected: Option<(EnvFaultKind, usize, Option<usize>)>) -> Option<Expected> {
    let (kind, node, earlier) = expected?;
    let other = match earlier {
        Some(earlier) => Some(node_place(earlier)),
        None => None,
    };
    Some((kind, node_place(node), other))
}

#[test]
fn first_faults_of_lifetimes(rt: HostRuntime) -> Result<(), Fail> {
    for (row, (nodes, expected)) in LIFETIMES.iter().enumerate() {
        let fault = fault_with(rt.alloc(), environment(rt.alloc(), nodes)?)?;
        assert!(rt; fault == node_fault(*expected), "in row {row}");
    }
    Ok(())
}

/// The lifetime of a number, with the same bounds on both sides.
fn numbered(alloc: Global, number: usize, bounds: Items<usize>) -> Result<LifetimeNode, Fail> {
    Ok(LifetimeNode {
        name: Text::new(alloc, format!(in alloc; "l{number}")?.as_str())?,
        longer: Items::from_slice(alloc, bounds.as_slice())?,
        shorter: bounds,
    })
}

/// The numbers below this one.
fn below(alloc: Global, count: usize) -> Result<Items<usize>, Fail> {
    let mut numbers = Items::new(alloc);
    for number in 0..count {
        numbers.push(number)?;
    }
    Ok(numbers)
}

/// So many lifetimes, each of which has bounds on both sides with so many of the first.
fn bound_to(alloc: Global, count: usize, others: usize) -> Result<LifetimeEnv, Fail> {
    let mut nodes = Items::new(alloc);
    for number in 0..count {
        nodes.push(numbered(alloc, number, below(alloc, others)?)?)?;
    }
    Ok(LifetimeEnv { nodes })
}

#[test]
fn many_lifetimes_without_bounds(rt: HostRuntime) -> Result<(), Fail> {
    let fault = fault_with(rt.alloc(), bound_to(rt.alloc(), 2000, 0)?)?;
    assert!(rt; fault == None);
    Ok(())
}

#[test]
fn many_lifetimes_that_outlive_all(rt: HostRuntime) -> Result<(), Fail> {
    let fault = fault_with(rt.alloc(), bound_to(rt.alloc(), 50, 50)?)?;
    assert!(rt; fault == None);
    Ok(())
}

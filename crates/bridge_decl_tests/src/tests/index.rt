use bridge_decl::{
    Items, LifetimeEnv, LifetimeNode, NameIndex, NoMemory, Text, index_lifetimes, take_name,
};
use std::alloc::Global;
use std::collections::BTreeMap;
use std::test::Fail;

/// The lifetimes of these names, without bounds.
fn lifetimes(alloc: Global, names: &[&str]) -> Result<LifetimeEnv, NoMemory> {
    let mut nodes = Items::new(alloc);
    for name in names {
        nodes.push(LifetimeNode {
            name: Text::new(alloc, name)?,
            longer: Items::new(alloc),
            shorter: Items::new(alloc),
        })?;
    }
    Ok(LifetimeEnv { nodes })
}

#[test]
fn lifetimes_have_numbers(rt: HostRuntime) -> Result<(), Fail> {
    // Of a name that stands twice the first counts.
    let env = lifetimes(rt.alloc(), &["a", "b", "a"])?;
    let index = index_lifetimes(rt.alloc(), &env)?;
    for (name, number) in [("a", Some(0)), ("b", Some(1)), ("c", None), ("", None)] {
        let name = Text::new(rt.alloc(), name)?;
        assert!(rt; index.get(&name).copied() == number);
    }
    Ok(())
}

#[test]
fn a_name_keeps_its_first_value(rt: HostRuntime) -> Result<(), Fail> {
    let mut index: NameIndex<char> = BTreeMap::new(rt.alloc());
    let rows = [
        ("a", 'x', None),
        ("b", 'y', None),
        ("a", 'z', Some('x')),
        ("a", 'w', Some('x')),
    ];
    for (name, value, earlier) in rows {
        let name = Text::new(rt.alloc(), name)?;
        assert!(rt; take_name(rt.alloc(), &mut index, &name, value)? == earlier);
    }
    assert!(rt; index.get(&Text::new(rt.alloc(), "b")?).copied() == Some('y'));
    Ok(())
}

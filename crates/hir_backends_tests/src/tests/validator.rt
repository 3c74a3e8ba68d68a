use bridge_decl::{NoMemory, Text};
use hir_backends::{
    AttributeValidator, BackendAttrSupport, BasicAttributeValidator, Names, Pairs, SupportFlag,
};
use sqlite_items::Items;
use std::alloc::Global;

fn named(alloc: Global, names: &[&str]) -> Result<Names, NoMemory> {
    let mut items = Items::new(alloc);
    for name in names {
        items.push(Text::new(alloc, name)?)?;
    }
    Names::new(alloc, items)
}

fn paired(alloc: Global, pairs: &[(&str, &str)]) -> Result<Pairs, NoMemory> {
    let mut items = Items::new(alloc);
    for (name, value) in pairs {
        items.push((Text::new(alloc, name)?, Text::new(alloc, value)?))?;
    }
    Pairs::new(alloc, items)
}

fn one(alloc: Global, s: &str) -> Result<Names, NoMemory> {
    named(alloc, &[s])
}

fn one_pair(alloc: Global, name: &str, value: &str) -> Result<Pairs, NoMemory> {
    paired(alloc, &[(name, value)])
}

fn is_one(items: &Names, s: &str) -> bool {
    match items.as_slice() {
        [text] => text.as_str() == s,
        _ => false,
    }
}

fn is_pair(pairs: &Pairs, name: &str, value: &str) -> bool {
    match pairs.as_slice() {
        [(first, second)] => first.as_str() == name && second.as_str() == value,
        _ => false,
    }
}

fn supports_nothing(support: BackendAttrSupport) -> bool {
    for flag in SupportFlag::all() {
        if support.has(*flag) {
            return false;
        }
    }
    true
}

// Whether the backend has the name and no other, supports nothing, and knows no pairs and no features.
fn is_new(backend: &BasicAttributeValidator, name: &str) -> bool {
    backend.backend_name.as_str() == name
        && supports_nothing(backend.support)
        && backend.other_backend_names.is_empty()
        && backend.name_values.is_empty()
        && backend.features_enabled.is_empty()
        && backend.semver_unstable_features.is_empty()
}

#[test]
fn a_new_backend_supports_nothing(rt: HostRuntime) -> Result<(), NoMemory> {
    let backend = BasicAttributeValidator::new(rt.alloc(), "kotlin")?;
    assert!(rt; is_new(&backend, "kotlin"));
    Ok(())
}

// A backend with something in each field.
fn full(alloc: Global) -> Result<BasicAttributeValidator, NoMemory> {
    let backend_name = Text::new(alloc, "cpp")?;
    let other_backend_names = one(alloc, "c++")?;
    let name_values = one_pair(alloc, "abi", "itanium")?;
    let features_enabled = one(alloc, "compiled_data")?;
    let semver_unstable_features = one(alloc, "unstable")?;
    Ok(BasicAttributeValidator {
        backend_name,
        support: BackendAttrSupport::none().with(SupportFlag::Traits),
        other_backend_names,
        name_values,
        features_enabled,
        semver_unstable_features,
    })
}

// A copy, of which the original is gone.
fn copied(alloc: Global) -> Result<BasicAttributeValidator, NoMemory> {
    let backend = full(alloc)?;
    backend.try_clone(alloc)
}

// Whether the backend is named so and supports traits, but not callbacks.
fn is_named(backend: &BasicAttributeValidator) -> bool {
    backend.backend_name.as_str() == "cpp"
        && backend.support.traits
        && !backend.support.callbacks
        && is_one(&backend.other_backend_names, "c++")
}

// Whether it knows these pairs and features.
fn knows_all(backend: &BasicAttributeValidator) -> bool {
    is_pair(&backend.name_values, "abi", "itanium")
        && is_one(&backend.features_enabled, "compiled_data")
        && is_one(&backend.semver_unstable_features, "unstable")
}

#[test]
fn a_backend_is_copied(rt: HostRuntime) -> Result<(), NoMemory> {
    let copy = copied(rt.alloc())?;
    assert!(rt; is_named(&copy));
    assert!(rt; knows_all(&copy));
    Ok(())
}

fn are_in_order(names: &Names, expected: &[&str]) -> bool {
    for (name, text) in names.as_slice().iter().zip(expected) {
        if name.as_str() != *text {
            return false;
        }
    }
    names.as_slice().len() == expected.len()
}

// Names out of order, one of them twice, and texts that are or aren't among them.
#[test]
fn names_are_found(rt: HostRuntime) -> Result<(), NoMemory> {
    let names = named(rt.alloc(), &["js", "cpp", "kotlin", "c", "cpp", "", "dart"])?;
    for name in &["js", "cpp", "kotlin", "c", "", "dart"] {
        assert!(rt; names.has(name));
    }
    for name in &["d", "cp", "cppp", "zig", "Js", "a"] {
        assert!(rt; !names.has(name));
    }
    assert!(rt; are_in_order(&names, &["js", "cpp", "kotlin", "c", "cpp", "", "dart"]));
    Ok(())
}

// Pairs out of order, of which some have one name and some one value.
#[test]
fn pairs_are_found(rt: HostRuntime) -> Result<(), NoMemory> {
    let given = [
        ("abi", "msvc"),
        ("abi", "itanium"),
        ("os", "linux"),
        ("", ""),
        ("abi", "gnu"),
    ];
    let pairs = paired(rt.alloc(), &given)?;
    for (name, value) in &given {
        assert!(rt; pairs.has(name, value));
    }
    for (name, value) in &[
        ("os", "msvc"),
        ("abi", "linux"),
        ("abi", ""),
        ("", "abi"),
        ("o", "s"),
    ] {
        assert!(rt; !pairs.has(name, value));
    }
    Ok(())
}

// What the backend says of a pair: 1, 0, or 2 for None.
fn says(backend: &BasicAttributeValidator, name: &str, value: &str) -> u8 {
    match backend.is_name_value(name, value) {
        Some(true) => 1,
        Some(false) => 0,
        None => 2,
    }
}

const PAIRS: [(&str, &str, u8); 10] = [
    ("supports", "traits", 1),
    ("supports", "callbacks", 0),
    ("supports", "nothing", 2),
    ("supports", "default", 2),
    ("supports", "defaults", 0),
    ("feature", "compiled_data", 1),
    ("feature", "unstable", 0),
    ("abi", "itanium", 1),
    ("abi", "msvc", 0),
    ("supported", "traits", 0),
];

#[test]
fn a_backend_answers(rt: HostRuntime) -> Result<(), NoMemory> {
    let backend = full(rt.alloc())?;
    for (name, value, said) in &PAIRS {
        assert!(rt; says(&backend, name, value) == *said);
    }
    for (name, is_name) in &[("cpp", true), ("c++", true), ("c", false), ("", false)] {
        assert!(rt; backend.is_backend(name) == *is_name);
    }
    assert!(rt; backend.is_unstable("unstable") && !backend.is_unstable("compiled_data"));
    assert!(rt; backend.primary_name() == "cpp");
    Ok(())
}

//! Default values.

use super::{backend, compare, read};
use bridge_decl::NoMemory;
use std::alloc::Global;

const ROWS: [(&str, &str); 24] = [
    ("*, default_value = true", "Bool(true)"),
    ("*, default_value = false", "Bool(false)"),
    ("*, default_value = c'x'", "Char(x)"),
    ("*, default_value = c'\u{fc}'", "Char(\u{fc})"),
    ("*, default_value = c'\u{10ffff}'", "Char(\u{10ffff})"),
    ("*, default_value = b'A'", "Char(A)"),
    ("*, default_value = b'~'", "Char(~)"),
    ("*, default_value = 0", "Integer(0)"),
    ("*, default_value = 007", "Integer(7)"),
    ("*, default_value = 4294967296", "Integer(4294967296)"),
    (
        "*, default_value = 170141183460469231731687303715884105726",
        "Integer(170141183460469231731687303715884105726)",
    ),
    (
        "*, default_value = 170141183460469231731687303715884105727",
        "Integer(170141183460469231731687303715884105727)",
    ),
    (
        "*, default_value = 000170141183460469231731687303715884105727",
        "Integer(170141183460469231731687303715884105727)",
    ),
    (
        "*, default_value = 170141183460469231731687303715884105728",
        "!BadDefaultValue",
    ),
    (
        "*, default_value = 170141183460469231731687303715884105730",
        "!BadDefaultValue",
    ),
    (
        "*, default_value = 340282366920938463463374607431768211456",
        "!BadDefaultValue",
    ),
    ("*, default_value = ", "!BadDefaultValue"),
    ("*, default_value = -1", "!BadDefaultValue"),
    ("*, default_value = 0x10", "!BadDefaultValue"),
    ("*, default_value = 1_000", "!BadDefaultValue"),
    ("*, default_value = 7u8", "!BadDefaultValue"),
    ("*, default_value = 1.5", "!BadDefaultValue"),
    ("*, default_value = other", "!BadDefaultValue"),
    ("*, default_value = 'x'", "!BadDefaultValue"),
];

#[test]
fn literals_are_default_values(rt: HostRuntime) -> Result<(), NoMemory> {
    compare(&rt, rt.alloc(), &ROWS)
}

/// A default value of that digit a million times, and a seven.
fn long(alloc: Global, digit: &str) -> Result<String, NoMemory> {
    let mut text = String::from_str(alloc, "*, default_value = ")?;
    for _ in 0..1000000usize {
        text.push_str(digit)?;
    }
    text.push_str("7")?;
    Ok(text)
}

/// What a default value of so many of that digit comes to.
fn of_million(alloc: Global, digit: &str) -> Result<String, NoMemory> {
    let backend = backend(alloc, true)?;
    let marks = long(alloc, digit)?;
    read(alloc, &backend, marks.as_str())
}

#[test]
fn a_million_digits_are_read(rt: HostRuntime) -> Result<(), NoMemory> {
    assert!(rt; of_million(rt.alloc(), "0")?.as_str() == "Integer(7)");
    assert!(rt; of_million(rt.alloc(), "1")?.as_str() == "!BadDefaultValue");
    Ok(())
}

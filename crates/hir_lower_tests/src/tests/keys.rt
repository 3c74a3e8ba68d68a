//! Marks and other keys of declarations, as JSON.

use crate::tests::pending::Pending;
use crate::tests::types::found;
use bridge_decl::NoMemory;

/// Marks with conditions or arguments of their own.
const MARKS: [(&str, &str); 17] = [
    ("not_auto", r#"{"if":{"not":"auto"},"mark":["tuple"]}"#),
    ("all_auto", r#"{"if":{"all":["auto"]},"mark":["tuple"]}"#),
    ("any_auto", r#"{"if":{"any":["auto"]},"mark":["tuple"]}"#),
    (
        "pair_nothing",
        r#"{"if":{"pair":["supports","nothing"]},"mark":["tuple"]}"#,
    ),
    (
        "pair_option",
        r#"{"if":{"pair":["supports","option"]},"mark":["tuple"]}"#,
    ),
    (
        "rename_x",
        r#"{"if":"*","mark":["rename"],"value":{"str":"x{0}"}}"#,
    ),
    (
        "disable_1",
        r#"{"if":"*","mark":["disable"],"value":{"int":"1"}}"#,
    ),
    (
        "rename_1",
        r#"{"if":"*","mark":["rename"],"value":{"int":"1"}}"#,
    ),
    (
        "include",
        r#"{"if":"*","mark":["custom_extra_code"],"list":[{"name":"location","value":{"str":"def_block"}},{"name":"source","value":{"str":"x"}}]}"#,
    ),
    (
        "include_nothing",
        r#"{"if":"*","mark":["custom_extra_code"],"list":[]}"#,
    ),
    (
        "include_nowhere",
        r#"{"if":"*","mark":["custom_extra_code"],"list":[{"name":"source","value":{"str":"x"}}]}"#,
    ),
    (
        "default_float",
        r#"{"if":"*","mark":["default_value"],"value":{"float":"1.5"}}"#,
    ),
    (
        "default_1",
        r#"{"if":"*","mark":["default_value"],"value":{"int":"1"}}"#,
    ),
    (
        "auto_default",
        r#"{"if":"auto","mark":["default_value"],"value":{"int":"1"}}"#,
    ),
    // No mark, but a key beside the marks.
    ("abi_rename", r#"],"abi_rename":"x{0}","features":["#),
    (
        "default_most",
        r#"{"if":"*","mark":["default_value"],"value":{"int":"170141183460469231731687303715884105727"}}"#,
    ),
    (
        "default_more",
        r#"{"if":"*","mark":["default_value"],"value":{"int":"170141183460469231731687303715884105728"}}"#,
    ),
];

/// Keys that are written out.
const KEYS: [(&str, &str); 16] = [
    ("mutable", r#""mutable":true,"#),
    ("send", r#""is_send":true,"#),
    ("sync", r#""is_sync":true,"#),
    ("abi", r#""abi_name":"1f","#),
    ("dtor", r#""dtor_abi_name":"1O","#),
    (
        "docs_auto",
        r#""docs":{"blocks":[{"if":"auto","lines":"x"}]},"#,
    ),
    (
        "docs_nothing",
        r#""docs":{"blocks":[{"if":{"pair":["supports","nothing"]},"lines":"x"}]},"#,
    ),
    ("docs", r#""docs":{"blocks":[{"if":"*","lines":"x"}]},"#),
    ("self_p", r#""self_type":{"segments":["P"]},"#),
    ("self_o", r#""self_type":{"segments":["O"]},"#),
    ("self_crate", r#""self_type":{"segments":["crate","O"]},"#),
    ("receiver_u", r#""self":{"path":{"segments":["U"]}},"#),
    (
        "f_outlives_a",
        r#""lifetimes":[{"name":"f","shorter":[1]},{"name":"a","longer":[0]}],"#,
    ),
    ("symbol", r#""abi_name":"O_m","#),
    ("destructor", r#""dtor_abi_name":"O_destroy","#),
    (
        "outlives",
        r#""lifetimes":[{"name":"a","longer":[1]},{"name":"b","shorter":[0]}],"#,
    ),
];

/// Reads keys of the next declaration.
pub fn read_key(pending: &mut Pending<'_>, name: &str) -> Result<(), NoMemory> {
    pending.keys.push_str(found(&KEYS, name).unwrap_or(""))
}

/// Adds a mark under a condition, with a text where it has one.
fn add_mark(marks: &mut String, condition: &str, mark: &str) -> Result<(), NoMemory> {
    let (name, value) = mark.split_once("=").unwrap_or((mark, ""));
    marks.push_str(condition)?;
    marks.push_str(name)?;
    if value.is_empty() {
        return marks.push_str(r#""]}"#);
    }
    marks.push_str(r#""],"value":{"str":""#)?;
    marks.push_str(value)?;
    marks.push_str(r#""}}"#)
}

/// Adds a mark that the table doesn't have.
fn add_plain(marks: &mut String, mark: &str) -> Result<(), NoMemory> {
    match mark.strip_prefix("auto.") {
        Some(mark) => add_mark(marks, r#"{"if":"auto","mark":[""#, mark),
        None => add_mark(marks, r#"{"if":"*","mark":[""#, mark),
    }
}

/// Reads a mark of the next declaration.
pub fn read_mark(pending: &mut Pending<'_>, mark: &str) -> Result<(), NoMemory> {
    let marks = &mut pending.marks;
    if !marks.is_empty() {
        marks.push_str(",")?;
    }
    match found(&MARKS, mark) {
        Some(text) => marks.push_str(text),
        None => add_plain(marks, mark),
    }
}

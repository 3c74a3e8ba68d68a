//! Each mark with each kind of argument.

use super::rows::row;
use super::{backend, read};
use bridge_decl::NoMemory;
use hir_attrs::BasicAttributeValidator;
use std::alloc::Global;
use std::process::Abort;

/// No argument, five texts, each other literal, and lists of none, of what includes code, and of something else.
pub const ARGUMENTS: [&str; 14] = [
    "",
    " = 'x'",
    " = ''",
    " = '{0}'",
    " = '{0}{0}'",
    " = true",
    " = c'x'",
    " = b'A'",
    " = 7",
    " = 1.5",
    " = other",
    "()",
    "(location = 'def_block', source = 'x')",
    "(name = 'x')",
];

/// A mark, and what it comes to with each of the arguments.
const ROWS: [(&str, &str); 32] = [
    ("disable", "disable / !MarkArgument(disable)*13"),
    ("default", "default / !MarkArgument(default)*13"),
    (
        "manually_disposable",
        "manually_disposable / !MarkArgument(manually_disposable)*13",
    ),
    (
        "rename",
        "!MarkArgument(rename) / rename(x) / rename() / rename({0}) / !MarkArgument(rename)*10",
    ),
    (
        "namespace",
        "!MarkArgument(namespace) / namespace(x) / - / namespace({0}) / namespace({0}{0}) / !MarkArgument(namespace)*9",
    ),
    ("error", "custom_errors*14"),
    ("precondition_violation", "precondition_violation*14"),
    (
        "generate_mocking_interface",
        "generate_mocking_interface*14",
    ),
    ("abi_compatible", "abi_compatible*14"),
    ("ffi_error", "ffi_error*14"),
    ("mut_struct_ref", "mut_struct_ref*14"),
    ("tuple", "tuple*14"),
    (
        "custom_extra_code",
        "!BadInclude*12 / DefBlock source(x) / !BadInclude",
    ),
    (
        "default_value",
        "!MarkArgument(default_value) / !BadDefaultValue*4 / Bool(true) / Char(x) / Char(A) / Integer(7) / !BadDefaultValue*2 / !MarkArgument(default_value)*3",
    ),
    ("constructor", "Constructor*14"),
    (
        "named_constructor",
        "NamedConstructor / NamedConstructor(x) / NamedConstructor() / NamedConstructor({0}) / NamedConstructor({0}{0}) / !MarkArgument(named_constructor)*9",
    ),
    (
        "getter",
        "Getter / Getter(x) / Getter() / Getter({0}) / Getter({0}{0}) / !MarkArgument(getter)*9",
    ),
    (
        "setter",
        "Setter / Setter(x) / Setter() / Setter({0}) / Setter({0}{0}) / !MarkArgument(setter)*9",
    ),
    ("stringifier", "Stringifier*14"),
    ("comparison", "Comparison*14"),
    ("iterator", "Iterator*14"),
    ("iterable", "Iterable*14"),
    ("indexer", "Indexer*14"),
    ("add", "Add*14"),
    ("sub", "Sub*14"),
    ("mul", "Mul*14"),
    ("div", "Div*14"),
    ("add_assign", "AddAssign*14"),
    ("sub_assign", "SubAssign*14"),
    ("mul_assign", "MulAssign*14"),
    ("div_assign", "DivAssign*14"),
    ("disabled", "!UnknownMark(disabled)*14"),
];

/// A mark that always counts, with that argument.
fn with_argument(alloc: Global, mark: &str, argument: &str) -> Result<String, NoMemory> {
    let mut text = String::from_str(alloc, "*, ")?;
    text.push_str(mark)?;
    text.push_str(argument)?;
    Ok(text)
}

fn with_all(
    alloc: Global,
    backend: &BasicAttributeValidator,
    mark: &str,
) -> Result<String, NoMemory> {
    let mut cells = Vec::new(alloc);
    for argument in &ARGUMENTS {
        let marks = with_argument(alloc, mark, argument)?;
        cells.push(read(alloc, backend, marks.as_str())?)?;
    }
    row(alloc, cells.as_slice())
}

/// Compares what each mark comes to.
fn compare_all(
    rt: &impl Abort,
    alloc: Global,
    backend: &BasicAttributeValidator,
) -> Result<(), NoMemory> {
    for (mark, cells) in &ROWS {
        assert!(rt; with_all(alloc, backend, mark)?.as_str() == *cells);
    }
    Ok(())
}

#[test]
fn each_mark_takes_its_arguments(rt: HostRuntime) -> Result<(), NoMemory> {
    let backend = backend(rt.alloc(), true)?;
    compare_all(&rt, rt.alloc(), &backend)
}

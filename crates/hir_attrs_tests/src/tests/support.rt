//! Marks where the backend doesn't support them.

use super::rows::row;
use super::{backend, compare_for, read};
use bridge_decl::NoMemory;
use hir_attrs::{BackendAttrSupport, BasicAttributeValidator, SupportFlag};
use std::alloc::Global;
use std::process::Abort;

type Flagged = (
    &'static str,
    SupportFlag,
    &'static str,
    &'static str,
    &'static str,
);

/// A mark, the flag that it needs, and what it comes to without that flag alone, with that flag alone, and with that flag under `auto`.
/// Without the flag nothing is told under `auto`, and nothing set.
const FLAGGED: [Flagged; 13] = [
    (
        "default",
        SupportFlag::Defaults,
        "!MarkUnsupported(default cpp)",
        "default",
        "default",
    ),
    (
        "default = 7",
        SupportFlag::Defaults,
        "!MarkUnsupported(default cpp)",
        "!MarkArgument(default)",
        "!MarkArgument(default)",
    ),
    (
        "manually_disposable",
        SupportFlag::ManuallyDisposable,
        "!MarkUnsupported(manually_disposable cpp)",
        "manually_disposable",
        "manually_disposable !AutoIneligible(manually_disposable)",
    ),
    (
        "generate_mocking_interface",
        SupportFlag::GenerateMockingInterface,
        "!MarkUnsupported(generate_mocking_interface cpp)",
        "generate_mocking_interface",
        "generate_mocking_interface",
    ),
    (
        "abi_compatible",
        SupportFlag::AbiCompatibles,
        "!MarkUnsupported(abi_compatible cpp)",
        "abi_compatible",
        "abi_compatible",
    ),
    (
        "ffi_error",
        SupportFlag::CallbackReturnsMustBeFallible,
        "!MarkUnsupported(ffi_error cpp)",
        "ffi_error",
        "ffi_error",
    ),
    (
        "mut_struct_ref",
        SupportFlag::MutStructRefs,
        "!MarkUnsupported(mut_struct_ref cpp)",
        "mut_struct_ref",
        "mut_struct_ref",
    ),
    (
        "tuple",
        SupportFlag::Tuples,
        "!MarkUnsupported(tuple cpp)",
        "tuple",
        "tuple",
    ),
    (
        "tuple = 'x'",
        SupportFlag::Tuples,
        "!MarkUnsupported(tuple cpp)",
        "tuple",
        "tuple",
    ),
    (
        "default_value = 7",
        SupportFlag::DefaultArgs,
        "!MarkUnsupported(default_value cpp)",
        "Integer(7)",
        "Integer(7)",
    ),
    (
        "default_value = 1.5",
        SupportFlag::DefaultArgs,
        "!MarkUnsupported(default_value cpp)",
        "!BadDefaultValue",
        "!BadDefaultValue",
    ),
    (
        "default_value",
        SupportFlag::DefaultArgs,
        "!MarkUnsupported(default_value cpp)",
        "!MarkArgument(default_value)",
        "!MarkArgument(default_value)",
    ),
    (
        "custom_errors",
        SupportFlag::CustomErrors,
        "!MarkUnsupported(custom_errors cpp)",
        "!UnknownMark(custom_errors)",
        "!UnknownMark(custom_errors)",
    ),
];

/// Every flag but one.
fn all_but(flag: SupportFlag) -> BackendAttrSupport {
    let mut support = BackendAttrSupport::none();
    for other in SupportFlag::all() {
        if other.text() != flag.text() {
            support = support.with(*other);
        }
    }
    support
}

/// Three texts in a row.
fn joined(alloc: Global, first: &str, second: &str, third: &str) -> Result<String, NoMemory> {
    let mut text = String::from_str(alloc, first)?;
    text.push_str(second)?;
    text.push_str(third)?;
    Ok(text)
}

/// What a mark under a condition comes to.
fn under(
    alloc: Global,
    backend: &BasicAttributeValidator,
    condition: &str,
    mark: &str,
) -> Result<String, NoMemory> {
    let text = joined(alloc, condition, ", ", mark)?;
    read(alloc, backend, text.as_str())
}

/// Conditions that are met without `auto`, and then those that are met by it, or aren't met.
const CONDITIONS: [&str; 8] = [
    "*",
    "cpp",
    "any( cpp auto )",
    "not( js )",
    "auto",
    "any( js auto )",
    "any( auto cpp )",
    "js",
];

/// What a mark comes to under each of the conditions.
fn under_all(
    alloc: Global,
    backend: &BasicAttributeValidator,
    mark: &str,
) -> Result<String, NoMemory> {
    let mut cells = Vec::new(alloc);
    for condition in &CONDITIONS {
        cells.push(under(alloc, backend, condition, mark)?)?;
    }
    row(alloc, cells.as_slice())
}

/// The backend `cpp` with that support.
fn supporting(
    alloc: Global,
    support: BackendAttrSupport,
) -> Result<BasicAttributeValidator, NoMemory> {
    let mut backend = backend(alloc, false)?;
    backend.support = support;
    Ok(backend)
}

/// Whether the mark comes to what the row says without its flag alone.
fn is_denied(
    alloc: Global,
    (mark, flag, denied, _taken, _by_auto): &Flagged,
) -> Result<bool, NoMemory> {
    let backend = supporting(alloc, all_but(*flag))?;
    let found = under_all(alloc, &backend, mark)?;
    Ok(found.as_str().strip_suffix("*4 / -*4") == Some(*denied))
}

#[test]
fn a_mark_needs_its_flag(rt: HostRuntime) -> Result<(), NoMemory> {
    for row in &FLAGGED {
        assert!(rt; is_denied(rt.alloc(), row)?);
    }
    Ok(())
}

/// Whether a mark comes to these texts under `*` and under `auto`.
fn comes_to(
    alloc: Global,
    backend: &BasicAttributeValidator,
    mark: &str,
    taken: &str,
    by_auto: &str,
) -> Result<bool, NoMemory> {
    Ok(
        under(alloc, backend, "*", mark)?.as_str() == taken
            && under(alloc, backend, "auto", mark)?.as_str() == by_auto,
    )
}

/// Whether the mark comes to what the row says with its flag alone, under `*` and under `auto`.
fn is_taken(
    alloc: Global,
    (mark, flag, _denied, taken, by_auto): &Flagged,
) -> Result<bool, NoMemory> {
    let backend = supporting(alloc, BackendAttrSupport::none().with(*flag))?;
    comes_to(alloc, &backend, mark, taken, by_auto)
}

#[test]
fn a_mark_needs_no_other_flag(rt: HostRuntime) -> Result<(), NoMemory> {
    for row in &FLAGGED {
        assert!(rt; is_taken(rt.alloc(), row)?);
    }
    Ok(())
}

/// Marks that a backend takes that supports nothing.
const UNFLAGGED: [(&str, &str); 28] = [
    ("*, disable", "disable"),
    ("auto, disable", "disable !AutoIneligible(disable)"),
    ("*, rename = 'x'", "rename(x)"),
    ("auto, rename = 'x'", "rename(x) !AutoIneligible(rename)"),
    ("*, namespace = 'x'", "namespace(x)"),
    ("auto, namespace = 'x'", "namespace(x)"),
    ("*, error", "custom_errors"),
    ("*, precondition_violation", "precondition_violation"),
    (
        "*, custom_extra_code(location = 'def_block', source = 'x')",
        "DefBlock source(x)",
    ),
    ("*, constructor", "Constructor"),
    ("*, named_constructor", "NamedConstructor"),
    ("*, getter", "Getter"),
    ("*, setter", "Setter"),
    ("*, stringifier", "Stringifier"),
    ("*, comparison", "Comparison"),
    ("*, iterator", "Iterator"),
    ("*, iterable", "Iterable"),
    ("*, indexer", "Indexer"),
    ("*, add", "Add"),
    ("auto, sub", "Sub"),
    ("auto, mul", "Mul"),
    ("*, div_assign", "DivAssign"),
    ("*, defaults", "!UnknownMark(defaults)"),
    (
        "*, callback_returns_must_be_fallible",
        "!UnknownMark(callback_returns_must_be_fallible)",
    ),
    ("*, static_accessors", "!UnknownMark(static_accessors)"),
    ("*, default_args", "!UnknownMark(default_args)"),
    ("*, opaque_slices", "!UnknownMark(opaque_slices)"),
    ("auto, opaque_slices", "!UnknownMark(opaque_slices)"),
];

#[test]
fn some_marks_need_no_flag(rt: HostRuntime) -> Result<(), NoMemory> {
    let backend = backend(rt.alloc(), false)?;
    compare_for(&rt, rt.alloc(), &backend, &UNFLAGGED)
}

/// The texts that ask for a flag and are no marks.
const KEYS: [&str; 35] = [
    "namespacing",
    "memory_sharing",
    "non_exhaustive_structs",
    "method_overloading",
    "utf8_strings",
    "utf16_strings",
    "static_slices",
    "constructors",
    "named_constructors",
    "fallible_constructors",
    "accessors",
    "stringifiers",
    "comparators",
    "partial_comparators",
    "iterators",
    "iterables",
    "indexing",
    "arithmetic",
    "option",
    "callbacks",
    "traits",
    "custom_errors",
    "traits_are_send",
    "traits_are_sync",
    "abi_compatibles",
    "struct_refs",
    "mut_struct_refs",
    "free_functions",
    "custom_bindings",
    "owned_slices",
    "mutable_slices",
    "tuples",
    "owned_byte_slice_returns",
    "generic_writeables",
    "utf16_writeables",
];

/// Whether the key under `*` breaks the rule of this beginning and this end.
fn breaks(
    alloc: Global,
    backend: &BasicAttributeValidator,
    key: &str,
    (beginning, end): (&str, &str),
) -> Result<bool, NoMemory> {
    let found = under(alloc, backend, "*", key)?;
    match found.as_str().strip_prefix(beginning) {
        Some(rest) => Ok(rest.strip_suffix(end) == Some(key)),
        None => Ok(false),
    }
}

/// Tests that each key breaks that rule for a backend.
fn compare_broken(
    rt: &impl Abort,
    alloc: Global,
    backend: &BasicAttributeValidator,
    ends: (&str, &str),
) -> Result<(), NoMemory> {
    for key in &KEYS {
        assert!(rt; breaks(alloc, backend, key, ends)?);
    }
    Ok(())
}

/// The same for a backend that supports everything or nothing.
fn compare_keys(
    rt: &impl Abort,
    alloc: Global,
    is_able: bool,
    ends: (&str, &str),
) -> Result<(), NoMemory> {
    let backend = backend(alloc, is_able)?;
    compare_broken(rt, alloc, &backend, ends)
}

#[test]
fn names_of_flags_are_no_marks(rt: HostRuntime) -> Result<(), NoMemory> {
    compare_keys(&rt, rt.alloc(), true, ("!UnknownMark(", ")"))
}

#[test]
fn names_of_flags_are_denied(rt: HostRuntime) -> Result<(), NoMemory> {
    compare_keys(&rt, rt.alloc(), false, ("!MarkUnsupported(", " cpp)"))
}

/// Tests that nothing comes of each key under `auto`.
fn compare_spared(
    rt: &impl Abort,
    alloc: Global,
    backend: &BasicAttributeValidator,
) -> Result<(), NoMemory> {
    for key in &KEYS {
        assert!(rt; under(alloc, backend, "auto", key)?.as_str() == "-");
    }
    Ok(())
}

#[test]
fn denied_names_are_spared_under_auto(rt: HostRuntime) -> Result<(), NoMemory> {
    let backend = backend(rt.alloc(), false)?;
    compare_spared(&rt, rt.alloc(), &backend)
}

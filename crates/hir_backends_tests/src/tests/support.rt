use hir_backends::{BackendAttrSupport, SupportFlag};

// As upstream lists them.
const NAMES: [&str; 42] = [
    "namespacing",
    "memory_sharing",
    "non_exhaustive_structs",
    "method_overloading",
    "utf8_strings",
    "utf16_strings",
    "static_slices",
    "defaults",
    "constructors",
    "named_constructors",
    "fallible_constructors",
    "accessors",
    "static_accessors",
    "stringifiers",
    "comparators",
    "partial_comparators",
    "iterators",
    "iterables",
    "indexing",
    "arithmetic",
    "option",
    "callbacks",
    "traits",
    "custom_errors",
    "traits_are_send",
    "traits_are_sync",
    "generate_mocking_interface",
    "manually_disposable",
    "abi_compatibles",
    "struct_refs",
    "mut_struct_refs",
    "free_functions",
    "custom_bindings",
    "owned_slices",
    "default_args",
    "mutable_slices",
    "tuples",
    "opaque_slices",
    "owned_byte_slice_returns",
    "callback_returns_must_be_fallible",
    "generic_writeables",
    "utf16_writeables",
];

#[test]
fn flags_have_the_names_of_the_fields(rt: HostRuntime) {
    let flags = SupportFlag::all();
    assert!(rt; flags.len() == NAMES.len());
    for (flag, name) in flags.iter().zip(NAMES.iter()) {
        assert!(rt; flag.text() == *name);
    }
}

// Whether the flag at that place is on, and no other.
fn has_only(support: BackendAttrSupport, at: usize) -> bool {
    for (other_at, other) in SupportFlag::all().iter().enumerate() {
        if support.has(*other) != (other_at == at) {
            return false;
        }
    }
    true
}

#[test]
fn one_flag_is_turned_on(rt: HostRuntime) {
    for (at, flag) in SupportFlag::all().iter().enumerate() {
        assert!(rt; has_only(BackendAttrSupport::none().with(*flag), at));
    }
}

// The support with these flags on.
fn with_all(flags: &[SupportFlag]) -> BackendAttrSupport {
    let mut support = BackendAttrSupport::none();
    for flag in flags {
        support = support.with(*flag);
    }
    support
}

// The first field, one in the middle and the last.
fn fields(support: BackendAttrSupport) -> [bool; 3] {
    [
        support.namespacing,
        support.option,
        support.utf16_writeables,
    ]
}

#[test]
fn flags_are_the_fields(rt: HostRuntime) {
    let first = SupportFlag::Namespacing;
    let middle = SupportFlag::Option;
    let last = SupportFlag::Utf16Writeables;
    assert!(rt; fields(with_all(&[])) == [false, false, false]);
    assert!(rt; fields(with_all(&[first])) == [true, false, false]);
    assert!(rt; fields(with_all(&[first, middle, middle])) == [true, true, false]);
    assert!(rt; fields(with_all(&[last])) == [false, false, true]);
}

// The keys that aren't names of flags, and the names of flags that aren't keys.
const KEYS: [(&str, Option<SupportFlag>); 8] = [
    ("default", Some(SupportFlag::Defaults)),
    (
        "ffi_error",
        Some(SupportFlag::CallbackReturnsMustBeFallible),
    ),
    ("defaults", None),
    ("callback_returns_must_be_fallible", None),
    ("static_accessors", None),
    ("generate_mocking_interface", None),
    ("default_args", None),
    ("opaque_slices", None),
];

// What a support of that one flag, and one of no flag, answer for the key: on and off, or None twice.
fn is_key_of(key: &str, flag: Option<SupportFlag>) -> bool {
    let none = BackendAttrSupport::none();
    match flag {
        Some(flag) => {
            none.with(flag).check_string(key) == Some(true) && none.check_string(key) == Some(false)
        }
        None => none.check_string(key).is_none(),
    }
}

#[test]
fn thirty_eight_texts_ask_for_flags(rt: HostRuntime) {
    for (key, flag) in &KEYS {
        assert!(rt; is_key_of(key, *flag));
    }
    let mut keys = 0usize;
    for flag in SupportFlag::all() {
        if is_key_of(flag.text(), Some(*flag)) {
            keys = keys.saturating_add(1);
        }
    }
    assert!(rt; keys == 36);
    assert!(rt; is_key_of("", None));
    assert!(rt; is_key_of("traits_are_Send", None));
}

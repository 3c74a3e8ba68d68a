//! The names of the features that a backend may support.

ghost use Rattle.std.specs.Prelude.{◌≡◌, find};
ghost use Rattle.std.specs.Option.{option_copied};
ghost use Rattle.hir_backends.specs.Support.{every_flag, flag_text, flag_key, has_name, has_key, flag_named, flag_keyed};

/// A flag of `BackendAttrSupport`, where its meaning is told.
#[derive(Clone, Copy)]
pub enum SupportFlag {
    Namespacing,
    MemorySharing,
    NonExhaustiveStructs,
    MethodOverloading,
    Utf8Strings,
    Utf16Strings,
    StaticSlices,
    Defaults,
    Constructors,
    NamedConstructors,
    FallibleConstructors,
    Accessors,
    StaticAccessors,
    Stringifiers,
    Comparators,
    PartialComparators,
    Iterators,
    Iterables,
    Indexing,
    Arithmetic,
    Option,
    Callbacks,
    Traits,
    CustomErrors,
    TraitsAreSend,
    TraitsAreSync,
    GenerateMockingInterface,
    ManuallyDisposable,
    AbiCompatibles,
    StructRefs,
    MutStructRefs,
    FreeFunctions,
    CustomBindings,
    OwnedSlices,
    DefaultArgs,
    MutableSlices,
    Tuples,
    OpaqueSlices,
    OwnedByteSliceReturns,
    CallbackReturnsMustBeFallible,
    GenericWriteables,
    Utf16Writeables,
}

impl SupportFlag {
    /// The flag's name: that of the field.
    #[tactic(auto, unfolding(crate::specs::Support::flag_text))]
    pub fn text(self) -> &'static str
        ensures { result.now ≡ flag_text self }
    {
        match self {
            SupportFlag::Namespacing => "namespacing",
            SupportFlag::MemorySharing => "memory_sharing",
            SupportFlag::NonExhaustiveStructs => "non_exhaustive_structs",
            SupportFlag::MethodOverloading => "method_overloading",
            SupportFlag::Utf8Strings => "utf8_strings",
            SupportFlag::Utf16Strings => "utf16_strings",
            SupportFlag::StaticSlices => "static_slices",
            SupportFlag::Defaults => "defaults",
            SupportFlag::Constructors => "constructors",
            SupportFlag::NamedConstructors => "named_constructors",
            SupportFlag::FallibleConstructors => "fallible_constructors",
            SupportFlag::Accessors => "accessors",
            SupportFlag::StaticAccessors => "static_accessors",
            SupportFlag::Stringifiers => "stringifiers",
            SupportFlag::Comparators => "comparators",
            SupportFlag::PartialComparators => "partial_comparators",
            SupportFlag::Iterators => "iterators",
            SupportFlag::Iterables => "iterables",
            SupportFlag::Indexing => "indexing",
            SupportFlag::Arithmetic => "arithmetic",
            SupportFlag::Option => "option",
            SupportFlag::Callbacks => "callbacks",
            SupportFlag::Traits => "traits",
            SupportFlag::CustomErrors => "custom_errors",
            SupportFlag::TraitsAreSend => "traits_are_send",
            SupportFlag::TraitsAreSync => "traits_are_sync",
            SupportFlag::GenerateMockingInterface => "generate_mocking_interface",
            SupportFlag::ManuallyDisposable => "manually_disposable",
            SupportFlag::AbiCompatibles => "abi_compatibles",
            SupportFlag::StructRefs => "struct_refs",
            SupportFlag::MutStructRefs => "mut_struct_refs",
            SupportFlag::FreeFunctions => "free_functions",
            SupportFlag::CustomBindings => "custom_bindings",
            SupportFlag::OwnedSlices => "owned_slices",
            SupportFlag::DefaultArgs => "default_args",
            SupportFlag::MutableSlices => "mutable_slices",
            SupportFlag::Tuples => "tuples",
            SupportFlag::OpaqueSlices => "opaque_slices",
            SupportFlag::OwnedByteSliceReturns => "owned_byte_slice_returns",
            SupportFlag::CallbackReturnsMustBeFallible => "callback_returns_must_be_fallible",
            SupportFlag::GenericWriteables => "generic_writeables",
            SupportFlag::Utf16Writeables => "utf16_writeables",
        }
    }

    /// The text by which `BackendAttrSupport::check_string` asks for the flag: its name, but for two of them, and none for four.
    #[tactic(auto, unfolding(crate::specs::Support::flag_key))]
    pub fn key(self) -> Option<&'static str>
        ensures { option_copied result ≡ flag_key self }
    {
        match self {
            SupportFlag::Namespacing => Some("namespacing"),
            SupportFlag::MemorySharing => Some("memory_sharing"),
            SupportFlag::NonExhaustiveStructs => Some("non_exhaustive_structs"),
            SupportFlag::MethodOverloading => Some("method_overloading"),
            SupportFlag::Utf8Strings => Some("utf8_strings"),
            SupportFlag::Utf16Strings => Some("utf16_strings"),
            SupportFlag::StaticSlices => Some("static_slices"),
            SupportFlag::Defaults => Some("default"),
            SupportFlag::Constructors => Some("constructors"),
            SupportFlag::NamedConstructors => Some("named_constructors"),
            SupportFlag::FallibleConstructors => Some("fallible_constructors"),
            SupportFlag::Accessors => Some("accessors"),
            SupportFlag::StaticAccessors => None,
            SupportFlag::Stringifiers => Some("stringifiers"),
            SupportFlag::Comparators => Some("comparators"),
            SupportFlag::PartialComparators => Some("partial_comparators"),
            SupportFlag::Iterators => Some("iterators"),
            SupportFlag::Iterables => Some("iterables"),
            SupportFlag::Indexing => Some("indexing"),
            SupportFlag::Arithmetic => Some("arithmetic"),
            SupportFlag::Option => Some("option"),
            SupportFlag::Callbacks => Some("callbacks"),
            SupportFlag::Traits => Some("traits"),
            SupportFlag::CustomErrors => Some("custom_errors"),
            SupportFlag::TraitsAreSend => Some("traits_are_send"),
            SupportFlag::TraitsAreSync => Some("traits_are_sync"),
            SupportFlag::GenerateMockingInterface => None,
            SupportFlag::ManuallyDisposable => Some("manually_disposable"),
            SupportFlag::AbiCompatibles => Some("abi_compatibles"),
            SupportFlag::StructRefs => Some("struct_refs"),
            SupportFlag::MutStructRefs => Some("mut_struct_refs"),
            SupportFlag::FreeFunctions => Some("free_functions"),
            SupportFlag::CustomBindings => Some("custom_bindings"),
            SupportFlag::OwnedSlices => Some("owned_slices"),
            SupportFlag::DefaultArgs => None,
            SupportFlag::MutableSlices => Some("mutable_slices"),
            SupportFlag::Tuples => Some("tuples"),
            SupportFlag::OpaqueSlices => None,
            SupportFlag::OwnedByteSliceReturns => Some("owned_byte_slice_returns"),
            SupportFlag::CallbackReturnsMustBeFallible => Some("ffi_error"),
            SupportFlag::GenericWriteables => Some("generic_writeables"),
            SupportFlag::Utf16Writeables => Some("utf16_writeables"),
        }
    }

    /// The flag of that name. None where no flag has it.
    pub fn named(name: &str) -> Option<SupportFlag>
        ensures { result ≡ flag_named name.now }
    {
        named_within(SupportFlag::all(), name)
    }

    /// The flag with that key. None where no flag has it.
    pub fn keyed(key: &str) -> Option<SupportFlag>
        ensures { result ≡ flag_keyed key.now }
    {
        keyed_within(SupportFlag::all(), key)
    }

    /// All flags, in the order of the fields.
    #[tactic(auto, unfolding(crate::specs::Support::every_flag))]
    pub fn all() -> &'static [SupportFlag]
        ensures { result.now ≡ every_flag }
    {
        &[
            SupportFlag::Namespacing,
            SupportFlag::MemorySharing,
            SupportFlag::NonExhaustiveStructs,
            SupportFlag::MethodOverloading,
            SupportFlag::Utf8Strings,
            SupportFlag::Utf16Strings,
            SupportFlag::StaticSlices,
            SupportFlag::Defaults,
            SupportFlag::Constructors,
            SupportFlag::NamedConstructors,
            SupportFlag::FallibleConstructors,
            SupportFlag::Accessors,
            SupportFlag::StaticAccessors,
            SupportFlag::Stringifiers,
            SupportFlag::Comparators,
            SupportFlag::PartialComparators,
            SupportFlag::Iterators,
            SupportFlag::Iterables,
            SupportFlag::Indexing,
            SupportFlag::Arithmetic,
            SupportFlag::Option,
            SupportFlag::Callbacks,
            SupportFlag::Traits,
            SupportFlag::CustomErrors,
            SupportFlag::TraitsAreSend,
            SupportFlag::TraitsAreSync,
            SupportFlag::GenerateMockingInterface,
            SupportFlag::ManuallyDisposable,
            SupportFlag::AbiCompatibles,
            SupportFlag::StructRefs,
            SupportFlag::MutStructRefs,
            SupportFlag::FreeFunctions,
            SupportFlag::CustomBindings,
            SupportFlag::OwnedSlices,
            SupportFlag::DefaultArgs,
            SupportFlag::MutableSlices,
            SupportFlag::Tuples,
            SupportFlag::OpaqueSlices,
            SupportFlag::OwnedByteSliceReturns,
            SupportFlag::CallbackReturnsMustBeFallible,
            SupportFlag::GenericWriteables,
            SupportFlag::Utf16Writeables,
        ]
    }
}

/// Whether the flag has that name.
fn has_name(flag: SupportFlag, name: &str) -> bool
    ensures { result ≡ has_name name.now flag }
{
    flag.text() == name
}

/// Whether the flag has that key.
fn has_key(flag: SupportFlag, key: &str) -> bool
    ensures { result ≡ has_key key.now flag }
{
    match flag.key() {
        Some(own) => own == key,
        None => false,
    }
}

/// The first of these flags that has that name.
fn named_within(flags: &[SupportFlag], name: &str) -> Option<SupportFlag>
    ensures { result ≡ find (has_name name.now) flags.now }
{
    match flags {
        [] => None,
        [first, ..] if has_name(*first, name) => Some(*first),
        [_, rest @ ..] => named_within(rest, name),
    }
}

/// The first of these flags that has that key.
fn keyed_within(flags: &[SupportFlag], key: &str) -> Option<SupportFlag>
    ensures { result ≡ find (has_key key.now) flags.now }
{
    match flags {
        [] => None,
        [first, ..] if has_key(*first, key) => Some(*first),
        [_, rest @ ..] => keyed_within(rest, key),
    }
}

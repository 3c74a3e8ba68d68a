//! What a backend supports: one flag for each feature of the language that bindings are generated for.

mod flag;

ghost use Rattle.std.specs.Prelude.{◌≡◌, ◌≢◌, ◌↔◌, true, false, None};
ghost use Rattle.hir_backends.specs.Support.{checked, flag_keyed, flag_on, no_flags, with_flag};
ghost use Rattle.hir_backends.specs.declared.support.flag.SupportFlag.{SupportFlag};

pub use flag::SupportFlag;

/// The features that a backend supports, as in `diplomat_core::hir::BackendAttrSupport`. A mark that needs one of them is kept
/// only for backends that support it.
#[derive(Clone, Copy)]
pub struct BackendAttrSupport {
    /// Types may stand in namespaces, as in C++.
    pub namespacing: bool,
    /// Rust's memory can be read directly, as in C and C++.
    pub memory_sharing: bool,
    /// A struct may gain fields without breaking its users.
    pub non_exhaustive_structs: bool,
    /// Methods of one name may differ in their parameters.
    pub method_overloading: bool,
    /// A string is UTF-8, or there is a string type that is.
    pub utf8_strings: bool,
    /// A string is UTF-16, or there is a string type that is.
    pub utf16_strings: bool,
    /// Slices may live for `'static`.
    pub static_slices: bool,
    /// A type may be marked as having a default value.
    pub defaults: bool,
    /// A method may be marked as a constructor.
    pub constructors: bool,
    /// A method may be marked as a constructor with a name of its own.
    pub named_constructors: bool,
    /// A constructor may answer an error.
    pub fallible_constructors: bool,
    /// A method may be marked as a getter or a setter.
    pub accessors: bool,
    /// So may a method without a receiver.
    pub static_accessors: bool,
    /// A method may be marked as the one that makes a text of a value.
    pub stringifiers: bool,
    /// A method may be marked as the one that compares two values.
    pub comparators: bool,
    /// Such a method may leave two values incomparable.
    pub partial_comparators: bool,
    /// A method may be marked as the one that gives the next element.
    pub iterators: bool,
    /// A method may be marked as the one that makes an iterator.
    pub iterables: bool,
    /// A method may be marked as the operator `[]`.
    pub indexing: bool,
    /// A method may be marked as an operator such as `+` or `+=`.
    pub arithmetic: bool,
    /// Structs and primitives may be optional.
    pub option: bool,
    /// Parameters may be callbacks.
    pub callbacks: bool,
    /// There are traits.
    pub traits: bool,
    /// A type may be marked as an error.
    pub custom_errors: bool,
    /// Values of traits may go to another thread.
    pub traits_are_send: bool,
    /// Values of traits may be shared between threads.
    pub traits_are_sync: bool,
    /// Interfaces for mocks are generated.
    pub generate_mocking_interface: bool,
    /// The older mark `manually_disposable` is accepted, and does nothing.
    pub manually_disposable: bool,
    /// A struct of primitives alone may be marked as laid out as in Rust.
    pub abi_compatibles: bool,
    /// Structs may be passed by `&`.
    pub struct_refs: bool,
    /// Structs may be passed by `&mut`.
    pub mut_struct_refs: bool,
    /// Functions may stand outside types.
    pub free_functions: bool,
    /// Bindings written by hand may be included.
    pub custom_bindings: bool,
    /// Slices that Rust allocated may be taken in.
    pub owned_slices: bool,
    /// Parameters may have default values.
    pub default_args: bool,
    /// Slices may be mutable.
    pub mutable_slices: bool,
    /// There are tuples.
    pub tuples: bool,
    /// Slices of opaques may be taken in.
    pub opaque_slices: bool,
    /// A method may return a slice of bytes that Rust allocated.
    pub owned_byte_slice_returns: bool,
    /// A callback that returns a value may always fail.
    pub callback_returns_must_be_fallible: bool,
    /// Primitives may be written one after another, in place of a text.
    pub generic_writeables: bool,
    /// UTF-16 texts may be written.
    pub utf16_writeables: bool,
}

impl BackendAttrSupport {
    /// The support of a backend that supports nothing: every flag is off. Upstream has it as the default value.
    pub fn none() -> BackendAttrSupport
        ensures value { result ≡ no_flags }
        ensures off { (flag : SupportFlag) → flag_on result flag ≡ false }
    {
        BackendAttrSupport {
            namespacing: false,
            memory_sharing: false,
            non_exhaustive_structs: false,
            method_overloading: false,
            utf8_strings: false,
            utf16_strings: false,
            static_slices: false,
            defaults: false,
            constructors: false,
            named_constructors: false,
            fallible_constructors: false,
            accessors: false,
            static_accessors: false,
            stringifiers: false,
            comparators: false,
            partial_comparators: false,
            iterators: false,
            iterables: false,
            indexing: false,
            arithmetic: false,
            option: false,
            callbacks: false,
            traits: false,
            custom_errors: false,
            traits_are_send: false,
            traits_are_sync: false,
            generate_mocking_interface: false,
            manually_disposable: false,
            abi_compatibles: false,
            struct_refs: false,
            mut_struct_refs: false,
            free_functions: false,
            custom_bindings: false,
            owned_slices: false,
            default_args: false,
            mutable_slices: false,
            tuples: false,
            opaque_slices: false,
            owned_byte_slice_returns: false,
            callback_returns_must_be_fallible: false,
            generic_writeables: false,
            utf16_writeables: false,
        }
    }

    /// The same support with that flag on.
    pub fn with(self, flag: SupportFlag) -> BackendAttrSupport
        ensures value { result ≡ with_flag self flag }
        ensures on { flag_on result flag ≡ true }
        ensures others { (other : SupportFlag) → other ≢ flag
            → flag_on result other ≡ flag_on self other }
    {
        self.turned_on(flag)
    }

    #[tactic(auto, unfolding(crate::specs::Support::with_flag))]
    fn turned_on(self, flag: SupportFlag) -> BackendAttrSupport
        ensures { result ≡ with_flag self flag }
    {
        let mut support = self;
        match flag {
            SupportFlag::Namespacing => support.namespacing = true,
            SupportFlag::MemorySharing => support.memory_sharing = true,
            SupportFlag::NonExhaustiveStructs => support.non_exhaustive_structs = true,
            SupportFlag::MethodOverloading => support.method_overloading = true,
            SupportFlag::Utf8Strings => support.utf8_strings = true,
            SupportFlag::Utf16Strings => support.utf16_strings = true,
            SupportFlag::StaticSlices => support.static_slices = true,
            SupportFlag::Defaults => support.defaults = true,
            SupportFlag::Constructors => support.constructors = true,
            SupportFlag::NamedConstructors => support.named_constructors = true,
            SupportFlag::FallibleConstructors => support.fallible_constructors = true,
            SupportFlag::Accessors => support.accessors = true,
            SupportFlag::StaticAccessors => support.static_accessors = true,
            SupportFlag::Stringifiers => support.stringifiers = true,
            SupportFlag::Comparators => support.comparators = true,
            SupportFlag::PartialComparators => support.partial_comparators = true,
            SupportFlag::Iterators => support.iterators = true,
            SupportFlag::Iterables => support.iterables = true,
            SupportFlag::Indexing => support.indexing = true,
            SupportFlag::Arithmetic => support.arithmetic = true,
            SupportFlag::Option => support.option = true,
            SupportFlag::Callbacks => support.callbacks = true,
            SupportFlag::Traits => support.traits = true,
            SupportFlag::CustomErrors => support.custom_errors = true,
            SupportFlag::TraitsAreSend => support.traits_are_send = true,
            SupportFlag::TraitsAreSync => support.traits_are_sync = true,
            SupportFlag::GenerateMockingInterface => support.generate_mocking_interface = true,
            SupportFlag::ManuallyDisposable => support.manually_disposable = true,
            SupportFlag::AbiCompatibles => support.abi_compatibles = true,
            SupportFlag::StructRefs => support.struct_refs = true,
            SupportFlag::MutStructRefs => support.mut_struct_refs = true,
            SupportFlag::FreeFunctions => support.free_functions = true,
            SupportFlag::CustomBindings => support.custom_bindings = true,
            SupportFlag::OwnedSlices => support.owned_slices = true,
            SupportFlag::DefaultArgs => support.default_args = true,
            SupportFlag::MutableSlices => support.mutable_slices = true,
            SupportFlag::Tuples => support.tuples = true,
            SupportFlag::OpaqueSlices => support.opaque_slices = true,
            SupportFlag::OwnedByteSliceReturns => support.owned_byte_slice_returns = true,
            SupportFlag::CallbackReturnsMustBeFallible =>
                support.callback_returns_must_be_fallible = true,
            SupportFlag::GenericWriteables => support.generic_writeables = true,
            SupportFlag::Utf16Writeables => support.utf16_writeables = true,
        }
        support
    }

    /// Whether that flag is on.
    #[tactic(auto, unfolding(crate::specs::Support::flag_on))]
    pub fn has(self, flag: SupportFlag) -> bool
        ensures { result ≡ flag_on self flag }
    {
        match flag {
            SupportFlag::Namespacing => self.namespacing,
            SupportFlag::MemorySharing => self.memory_sharing,
            SupportFlag::NonExhaustiveStructs => self.non_exhaustive_structs,
            SupportFlag::MethodOverloading => self.method_overloading,
            SupportFlag::Utf8Strings => self.utf8_strings,
            SupportFlag::Utf16Strings => self.utf16_strings,
            SupportFlag::StaticSlices => self.static_slices,
            SupportFlag::Defaults => self.defaults,
            SupportFlag::Constructors => self.constructors,
            SupportFlag::NamedConstructors => self.named_constructors,
            SupportFlag::FallibleConstructors => self.fallible_constructors,
            SupportFlag::Accessors => self.accessors,
            SupportFlag::StaticAccessors => self.static_accessors,
            SupportFlag::Stringifiers => self.stringifiers,
            SupportFlag::Comparators => self.comparators,
            SupportFlag::PartialComparators => self.partial_comparators,
            SupportFlag::Iterators => self.iterators,
            SupportFlag::Iterables => self.iterables,
            SupportFlag::Indexing => self.indexing,
            SupportFlag::Arithmetic => self.arithmetic,
            SupportFlag::Option => self.option,
            SupportFlag::Callbacks => self.callbacks,
            SupportFlag::Traits => self.traits,
            SupportFlag::CustomErrors => self.custom_errors,
            SupportFlag::TraitsAreSend => self.traits_are_send,
            SupportFlag::TraitsAreSync => self.traits_are_sync,
            SupportFlag::GenerateMockingInterface => self.generate_mocking_interface,
            SupportFlag::ManuallyDisposable => self.manually_disposable,
            SupportFlag::AbiCompatibles => self.abi_compatibles,
            SupportFlag::StructRefs => self.struct_refs,
            SupportFlag::MutStructRefs => self.mut_struct_refs,
            SupportFlag::FreeFunctions => self.free_functions,
            SupportFlag::CustomBindings => self.custom_bindings,
            SupportFlag::OwnedSlices => self.owned_slices,
            SupportFlag::DefaultArgs => self.default_args,
            SupportFlag::MutableSlices => self.mutable_slices,
            SupportFlag::Tuples => self.tuples,
            SupportFlag::OpaqueSlices => self.opaque_slices,
            SupportFlag::OwnedByteSliceReturns => self.owned_byte_slice_returns,
            SupportFlag::CallbackReturnsMustBeFallible => self.callback_returns_must_be_fallible,
            SupportFlag::GenericWriteables => self.generic_writeables,
            SupportFlag::Utf16Writeables => self.utf16_writeables,
        }
    }

    /// Whether the flag is on that `v` asks for. None exactly where `v` is none of the 38 keys ([`SupportFlag::key`]).
    pub fn check_string(&self, v: &str) -> Option<bool>
        ensures value { result ≡ checked self.now v.now }
        ensures none { (result ≡ None) ↔ (flag_keyed v.now ≡ None) }
    {
        match SupportFlag::keyed(v) {
            Some(flag) => Some(self.has(flag)),
            None => None,
        }
    }
}

//! The marks by their names, and what each takes: one row a mark.

ghost use Rattle.std.specs.Prelude.{◌≡◌, find};
ghost use Rattle.hir_attrs.specs.Marks.{every_mark, is_mark_called, is_set, mark_flag, mark_form, mark_named, mark_text, refuses_auto};

use crate::attrs::Attrs;
use hir_backends::SupportFlag;

/// What a mark takes as its argument, and what it does.
#[derive(Clone, Copy)]
pub enum Form {
    /// No argument; it sets its field, and stands once.
    Once,
    /// Any argument; it sets its field.
    Plain,
    /// A string with a place for the name at most; it replaces the name.
    Pattern,
    /// A string; it sets the namespace, and the empty one clears it.
    Text,
    /// A list of a location, and a source or a file; it adds them.
    Include,
    /// A literal; it sets the default value.
    Value,
}

/// A mark other than that of a special method.
#[derive(Clone, Copy)]
pub enum MarkName {
    /// Leaves the declaration out.
    Disable,
    /// Gives a default.
    Default,
    /// Lets values be disposed of by hand.
    ManuallyDisposable,
    /// Changes the name.
    Rename,
    /// Sets the namespace.
    Namespace,
    /// Makes a type an error.
    Error,
    /// Tells violated preconditions in a way of their own.
    PreconditionViolation,
    /// Generates an interface for mocks.
    GenerateMockingInterface,
    /// Lays a type out as in Rust.
    AbiCompatible,
    /// Tells an error of the interface itself.
    FfiError,
    /// Lets a struct be passed by `&mut`.
    MutStructRef,
    /// Makes a struct a tuple.
    Tuple,
    /// Includes code that is written by hand.
    CustomExtraCode,
    /// Gives a parameter a default value.
    DefaultValue,
}

impl MarkName {
    /// The name by which a mark spells it.
    #[tactic(auto, unfolding(crate::specs::Marks::mark_text))]
    pub fn text(self) -> &'static str
        ensures { result.now ≡ mark_text self }
    {
        match self {
            MarkName::Disable => "disable",
            MarkName::Default => "default",
            MarkName::ManuallyDisposable => "manually_disposable",
            MarkName::Rename => "rename",
            MarkName::Namespace => "namespace",
            MarkName::Error => "error",
            MarkName::PreconditionViolation => "precondition_violation",
            MarkName::GenerateMockingInterface => "generate_mocking_interface",
            MarkName::AbiCompatible => "abi_compatible",
            MarkName::FfiError => "ffi_error",
            MarkName::MutStructRef => "mut_struct_ref",
            MarkName::Tuple => "tuple",
            MarkName::CustomExtraCode => "custom_extra_code",
            MarkName::DefaultValue => "default_value",
        }
    }

    /// All of them.
    #[tactic(auto, unfolding(crate::specs::Marks::every_mark))]
    pub fn all() -> &'static [MarkName]
        ensures { result.now ≡ every_mark }
    {
        &[
            MarkName::Disable,
            MarkName::Default,
            MarkName::ManuallyDisposable,
            MarkName::Rename,
            MarkName::Namespace,
            MarkName::Error,
            MarkName::PreconditionViolation,
            MarkName::GenerateMockingInterface,
            MarkName::AbiCompatible,
            MarkName::FfiError,
            MarkName::MutStructRef,
            MarkName::Tuple,
            MarkName::CustomExtraCode,
            MarkName::DefaultValue,
        ]
    }

    /// The one of that name, if there is one.
    pub fn named(name: &str) -> Option<MarkName>
        ensures { result ≡ mark_named name.now }
    {
        first_named(MarkName::all(), name)
    }

    /// The flag that a backend needs for the mark, where it needs one that `check_string` hasn't.
    #[tactic(auto, unfolding(crate::specs::Marks::mark_flag))]
    pub(crate) fn flag(self) -> Option<SupportFlag>
        ensures { result ≡ mark_flag self }
    {
        match self {
            MarkName::Disable => None,
            MarkName::Default => None,
            MarkName::ManuallyDisposable => None,
            MarkName::Rename => None,
            MarkName::Namespace => None,
            MarkName::Error => None,
            MarkName::PreconditionViolation => None,
            MarkName::GenerateMockingInterface => Some(SupportFlag::GenerateMockingInterface),
            MarkName::AbiCompatible => Some(SupportFlag::AbiCompatibles),
            MarkName::FfiError => Some(SupportFlag::CallbackReturnsMustBeFallible),
            MarkName::MutStructRef => Some(SupportFlag::MutStructRefs),
            MarkName::Tuple => Some(SupportFlag::Tuples),
            MarkName::CustomExtraCode => None,
            MarkName::DefaultValue => Some(SupportFlag::DefaultArgs),
        }
    }

    /// What the mark takes and does.
    #[tactic(auto, unfolding(crate::specs::Marks::mark_form))]
    pub(crate) fn form(self) -> Form
        ensures { result ≡ mark_form self }
    {
        match self {
            MarkName::Disable => Form::Once,
            MarkName::Default => Form::Once,
            MarkName::ManuallyDisposable => Form::Once,
            MarkName::Rename => Form::Pattern,
            MarkName::Namespace => Form::Text,
            MarkName::Error => Form::Plain,
            MarkName::PreconditionViolation => Form::Plain,
            MarkName::GenerateMockingInterface => Form::Plain,
            MarkName::AbiCompatible => Form::Plain,
            MarkName::FfiError => Form::Plain,
            MarkName::MutStructRef => Form::Plain,
            MarkName::Tuple => Form::Plain,
            MarkName::CustomExtraCode => Form::Include,
            MarkName::DefaultValue => Form::Value,
        }
    }

    /// Whether the mark can't stand under `auto`.
    #[tactic(auto, unfolding(crate::specs::Marks::refuses_auto))]
    pub(crate) fn refuses_auto(self) -> bool
        ensures { result ≡ refuses_auto self }
    {
        match self {
            MarkName::Disable => true,
            MarkName::Default => false,
            MarkName::ManuallyDisposable => true,
            MarkName::Rename => true,
            MarkName::Namespace => false,
            MarkName::Error => false,
            MarkName::PreconditionViolation => false,
            MarkName::GenerateMockingInterface => false,
            MarkName::AbiCompatible => false,
            MarkName::FfiError => false,
            MarkName::MutStructRef => false,
            MarkName::Tuple => false,
            MarkName::CustomExtraCode => false,
            MarkName::DefaultValue => false,
        }
    }

    /// Whether the mark's field is set.
    #[tactic(auto, unfolding(crate::specs::Marks::is_set))]
    pub(crate) fn is_set(self, attrs: &Attrs) -> bool
        ensures { result ≡ is_set self attrs.now }
    {
        match self {
            MarkName::Disable => attrs.disable,
            MarkName::Default => attrs.default,
            MarkName::ManuallyDisposable => attrs.manually_disposable,
            MarkName::Rename => false,
            MarkName::Namespace => false,
            MarkName::Error => attrs.custom_errors,
            MarkName::PreconditionViolation => attrs.precondition_violation,
            MarkName::GenerateMockingInterface => attrs.generate_mocking_interface,
            MarkName::AbiCompatible => attrs.abi_compatible,
            MarkName::FfiError => attrs.ffi_error,
            MarkName::MutStructRef => attrs.mut_struct_ref,
            MarkName::Tuple => attrs.tuple,
            MarkName::CustomExtraCode => false,
            MarkName::DefaultValue => false,
        }
    }
}

/// Whether it has that name.
fn is_mark_called(it: MarkName, name: &str) -> bool
    ensures { result ≡ is_mark_called name.now it }
{
    it.text() == name
}

/// The first of these that has that name.
fn first_named(all: &[MarkName], name: &str) -> Option<MarkName>
    ensures { result ≡ find (is_mark_called name.now) all.now }
{
    match all {
        [] => None,
        [first, ..] if is_mark_called(*first, name) => Some(*first),
        [_, rest @ ..] => first_named(rest, name),
    }
}

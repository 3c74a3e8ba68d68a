//! What a mark changes in a set of marks, and which rules it breaks.

ghost use Rattle.std.specs.Prelude.{◌≡◌, OnOk, Some, None};
ghost use Rattle.hir_attrs.specs.declared.change.Change.{Change};
ghost use Rattle.hir_attrs.specs.Marks.{with_mark};
ghost use Rattle.hir_attrs.specs.Reading.{change_alone, changed, error_alone, skipped};

use crate::attrs::Attrs;
use crate::includes::{IncludeLocation, IncludeSource};
use crate::names::MarkName;
use crate::special::SpecialMethod;
use crate::values::DefaultArgValue;
use bridge_decl::{NoMemory, RenameAttr, Text};
use hir_reports::LoweringError;

/// What a mark changes.
#[derive(Drop)]
pub enum Change {
    /// Nothing.
    Nothing,
    /// It sets the field of that mark.
    Marks(MarkName),
    /// It replaces the name.
    Renames(RenameAttr),
    /// It sets the namespace, or clears it.
    Names(Option<Text>),
    /// It makes the method a special one.
    Specializes(SpecialMethod),
    /// It includes code.
    Includes(IncludeLocation, IncludeSource),
    /// It gives a default value.
    Defaults(DefaultArgValue),
}

/// What a mark is read as: a change, and up to two broken rules in order.
#[derive(Drop)]
pub struct Reading {
    /// What the mark changes.
    pub change: Change,
    /// A rule that it breaks.
    pub first: Option<LoweringError>,
    /// One that it breaks besides.
    pub second: Option<LoweringError>,
}

impl Reading {
    /// A change alone.
    pub fn only(change: Change) -> Reading
        ensures { result ≡ change_alone change }
    {
        Reading {
            change,
            first: None,
            second: None,
        }
    }

    /// Nothing.
    pub fn skipped() -> Reading
        ensures { result ≡ skipped }
    {
        Reading::only(Change::Nothing)
    }

    /// A broken rule alone.
    pub fn told(error: LoweringError) -> Reading
        ensures { result ≡ error_alone error }
    {
        Reading {
            change: Change::Nothing,
            first: Some(error),
            second: None,
        }
    }
}

/// A set with the field of a mark set besides.
#[tactic(auto, unfolding(crate::specs::Marks::with_mark))]
fn set_mark(attrs: &mut Attrs, mark: MarkName)
    ensures { attrs.new ≡ with_mark mark attrs.old }
{
    match mark {
        MarkName::Disable => attrs.disable = true,
        MarkName::Default => attrs.default = true,
        MarkName::ManuallyDisposable => attrs.manually_disposable = true,
        MarkName::Rename => {}
        MarkName::Namespace => {}
        MarkName::Error => attrs.custom_errors = true,
        MarkName::PreconditionViolation => attrs.precondition_violation = true,
        MarkName::GenerateMockingInterface => attrs.generate_mocking_interface = true,
        MarkName::AbiCompatible => attrs.abi_compatible = true,
        MarkName::FfiError => attrs.ffi_error = true,
        MarkName::MutStructRef => attrs.mut_struct_ref = true,
        MarkName::Tuple => attrs.tuple = true,
        MarkName::CustomExtraCode => {}
        MarkName::DefaultValue => {}
    }
}

impl Attrs {
    /// Adds included code. `NoMemory` where there is no memory for it.
    fn include(&mut self, location: IncludeLocation, source: IncludeSource) -> Result<(), NoMemory>
        ensures { OnOk result (self.new ≡ changed (Change.Includes location source) self.old) }
    {
        self.custom_extra_code.push((location, source))?;
        Ok(())
    }

    /// Makes a change. `NoMemory` where there is no memory for it.
    pub(crate) fn change(&mut self, change: Change) -> Result<(), NoMemory>
        ensures { OnOk result (self.new ≡ changed change self.old) }
    {
        match change {
            Change::Nothing => {}
            Change::Marks(mark) => set_mark(self, mark),
            Change::Renames(pattern) => self.rename = pattern,
            Change::Names(namespace) => self.namespace = namespace,
            Change::Specializes(method) => self.special_method = Some(method),
            Change::Includes(location, source) => return self.include(location, source),
            Change::Defaults(value) => self.default_value = Some(value),
        }
        Ok(())
    }
}

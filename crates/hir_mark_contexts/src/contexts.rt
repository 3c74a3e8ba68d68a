//! The kinds of what is marked, and which marks may stand on which.

ghost use Rattle.std.specs.Prelude.{◌≡◌};
ghost use Rattle.hir_mark_contexts.specs.Contexts.{allows, is_enum, is_field, is_item, is_method, may_be_renamed, is_opaque, is_out_struct, is_param, is_struct, is_tested, is_trait, is_variant};

use hir_attrs::{Attrs, MarkName};

/// What is marked, by its kind alone. As `diplomat_core::hir::AttributeContext` without what it holds.
#[derive(Clone, Copy)]
pub enum MarkContext {
    /// A struct.
    Struct,
    /// A struct that is only returned.
    OutStruct,
    /// An opaque.
    Opaque,
    /// An enum.
    Enum,
    /// A trait.
    Trait,
    /// A variant of an enum.
    EnumVariant,
    /// A method of a type.
    Method,
    /// A function outside types.
    Function,
    /// A parameter of a method or a function.
    Param,
    /// The receiver of a method.
    SelfParam,
    /// A field of a struct.
    Field,
    /// A field of a struct that is only returned.
    OutStructField,
}

impl MarkContext {
    /// Whether the set is tested there: fields of out-structs aren't, nor is a disabled method.
    #[tactic(auto, unfolding(crate::specs::Contexts::is_tested))]
    pub fn is_tested(self, attrs: &Attrs) -> bool
        ensures { result ≡ is_tested self attrs.now }
    {
        match self {
            MarkContext::OutStructField => false,
            MarkContext::Method => !attrs.disable,
            _ => true,
        }
    }

    /// Whether it is a type, a trait or a function.
    fn is_item(self) -> bool
        ensures { result ≡ is_item self }
    {
        matches!(
            self,
            MarkContext::Struct
                | MarkContext::OutStruct
                | MarkContext::Opaque
                | MarkContext::Enum
                | MarkContext::Trait
                | MarkContext::Function
        )
    }

    /// Whether it is what backends call by a name: an item, a method or a variant.
    pub(crate) fn may_be_renamed(self) -> bool
        ensures { result ≡ may_be_renamed self }
    {
        self.is_item() || self.is_method() || self.is_variant()
    }

    pub(crate) fn is_method(self) -> bool
        ensures { result ≡ is_method self }
    {
        matches!(self, MarkContext::Method)
    }

    fn is_variant(self) -> bool
        ensures { result ≡ is_variant self }
    {
        matches!(self, MarkContext::EnumVariant)
    }

    fn is_struct(self) -> bool
        ensures { result ≡ is_struct self }
    {
        matches!(self, MarkContext::Struct)
    }

    fn is_out_struct(self) -> bool
        ensures { result ≡ is_out_struct self }
    {
        matches!(self, MarkContext::OutStruct)
    }

    fn is_opaque(self) -> bool
        ensures { result ≡ is_opaque self }
    {
        matches!(self, MarkContext::Opaque)
    }

    fn is_enum(self) -> bool
        ensures { result ≡ is_enum self }
    {
        matches!(self, MarkContext::Enum)
    }

    fn is_trait(self) -> bool
        ensures { result ≡ is_trait self }
    {
        matches!(self, MarkContext::Trait)
    }

    fn is_param(self) -> bool
        ensures { result ≡ is_param self }
    {
        matches!(self, MarkContext::Param)
    }

    fn is_field(self) -> bool
        ensures { result ≡ is_field self }
    {
        matches!(self, MarkContext::Field)
    }

    /// Whether the mark may stand there: one row a mark.
    #[tactic(auto, unfolding(crate::specs::Contexts::allows))]
    pub fn allows(self, mark: MarkName) -> bool
        ensures { result ≡ allows mark self }
    {
        match mark {
            MarkName::Disable => self.is_item() || self.is_method(),
            MarkName::Default => self.is_variant(),
            MarkName::ManuallyDisposable => self.is_opaque(),
            MarkName::Rename => self.may_be_renamed(),
            MarkName::Namespace => self.is_item(),
            MarkName::Error => self.is_item(),
            MarkName::PreconditionViolation => true,
            MarkName::GenerateMockingInterface => self.is_opaque(),
            MarkName::AbiCompatible => self.is_struct() || self.is_enum(),
            MarkName::FfiError => self.is_variant() || self.is_field(),
            MarkName::MutStructRef => self.is_struct(),
            MarkName::Tuple => self.is_struct() || self.is_out_struct(),
            MarkName::CustomExtraCode => self.is_item() && !self.is_trait(),
            MarkName::DefaultValue => self.is_param(),
        }
    }
}

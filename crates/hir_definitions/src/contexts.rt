//! What marks stand at.

use crate::definitions::{EnumVariant, TraitDef};
use crate::methods::Method;
use crate::special::SpecialMethodPresence;
use crate::type_defs::TypeDef;
use hir_ids::TypeId;

/// What a mark stands at, with what is needed to tell whether it may stand there.
pub enum AttributeContext<'a, 'b> {
    /// A type.
    OfType(TypeDef<'a>),
    /// A trait.
    Trait(&'a TraitDef),
    /// A variant of an enum.
    EnumVariant(&'a EnumVariant),
    /// A method, the type that it is one of where it is one of a type, and what is known of that
    /// type's other methods.
    Method(&'a Method, Option<TypeId>, &'b mut SpecialMethodPresence),
    /// A function.
    Function(&'a Method),
    /// A module.
    Module,
    /// A parameter.
    Param,
    /// A receiver.
    SelfParam,
    /// A field.
    Field,
}

//! Returns.

ghost use Rattle.std.specs.Prelude.{◌≡◌, ◌↔◌, IsTrue, option_copied};
ghost use Rattle.hir_types.specs.Returns.{GivesNothing, IsWritten, error_of, primitive_written, success_of, type_in};

use crate::positions::TyPosition;
use crate::types::HirType;
use crate::writers::WriteType;
use hir_ids::PrimitiveType;

/// What comes of success.
pub enum SuccessType<P: TyPosition> {
    /// Nothing is returned, and a text or a list is written.
    Write(WriteType),
    /// A value.
    OutType(HirType<P>),
    /// Nothing.
    Unit,
}

/// By hand, so that where one is let go the proof has one call.
impl<P: TyPosition + Drop> Drop for SuccessType<P> {
    fn drop(self) {
        match self {
            SuccessType::Write(_) | SuccessType::OutType(_) | SuccessType::Unit => (),
        }
    }
}

impl<P: TyPosition> SuccessType<P> {
    /// Whether something is written.
    pub fn is_write(&self) -> bool
        ensures { IsTrue result ↔ IsWritten self.now }
    {
        matches!(self, SuccessType::Write(_))
    }

    /// Whether a text in UTF-16 is written.
    pub fn is_write_16(&self) -> bool
        ensures { IsTrue result ↔ (self.now ≡ SuccessType.Write WriteType.Str16) }
    {
        matches!(self, SuccessType::Write(WriteType::Str16))
    }

    /// Of what a list is written, where one is.
    pub fn write_primitive(&self) -> Option<PrimitiveType>
        ensures { result ≡ primitive_written self.now }
    {
        match self {
            SuccessType::Write(WriteType::Primitive(primitive)) => Some(*primitive),
            _ => None,
        }
    }

    /// Whether there is nothing.
    pub fn is_unit(&self) -> bool
        ensures { IsTrue result ↔ (self.now ≡ SuccessType.Unit) }
    {
        matches!(self, SuccessType::Unit)
    }

    /// The type of the value, where there is one.
    pub fn as_type(&self) -> Option<&HirType<P>>
        ensures { option_copied result ≡ type_in self.now }
    {
        match self {
            SuccessType::OutType(ty) => Some(ty),
            _ => None,
        }
    }
}

/// What is returned.
pub enum ReturnType<P: TyPosition> {
    /// Success always.
    Infallible(SuccessType<P>),
    /// Success, or an error, which may have a type.
    Fallible(SuccessType<P>, Option<HirType<P>>),
    /// Success, or nothing.
    Nullable(SuccessType<P>),
}

/// By hand, so that where one is let go the proof has one call.
impl<P: TyPosition + Drop> Drop for ReturnType<P> {
    fn drop(self) {
        match self {
            ReturnType::Infallible(_) | ReturnType::Fallible(_, _) | ReturnType::Nullable(_) => (),
        }
    }
}

impl<P: TyPosition> ReturnType<P> {
    /// Whether the function in C returns nothing: success always, and then nothing or something
    /// that is written.
    pub fn is_ffi_unit(&self) -> bool
        ensures { IsTrue result ↔ GivesNothing self.now }
    {
        match self {
            ReturnType::Infallible(success) => success.is_unit() || success.is_write(),
            ReturnType::Fallible(_, _) | ReturnType::Nullable(_) => false,
        }
    }

    /// What comes of success.
    pub fn success_type(&self) -> &SuccessType<P>
        ensures { result.now ≡ success_of self.now }
    {
        match self {
            ReturnType::Infallible(success)
            | ReturnType::Fallible(success, _)
            | ReturnType::Nullable(success) => success,
        }
    }

    /// The type of the error, where there is one.
    pub fn error_type(&self) -> Option<&HirType<P>>
        ensures { option_copied result ≡ error_of self.now }
    {
        match self {
            ReturnType::Fallible(_, Some(error)) => Some(error),
            _ => None,
        }
    }
}

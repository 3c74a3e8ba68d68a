//! How a definition is used.

ghost use Rattle.std.specs.Prelude.{◌≡◌};
ghost use Rattle.hir_usage.specs.Seen.{id_lent, used};
ghost use Rattle.hir_usage.specs.Uses.{used_id};

use hir_ids::{EnumId, OpaqueId, OutStructId, StructId, TypeId};
use hir_types::{CallbackReturn, HirType, OutType, OutputOnly, SuccessType};

/// The id of a definition, lent from a path to it.
#[derive(Clone, Copy)]
pub enum LentId<'a> {
    /// Of a struct.
    Struct(&'a StructId),
    /// Of a struct that is only returned.
    OutStruct(&'a OutStructId),
    /// Of an opaque.
    Opaque(&'a OpaqueId),
    /// Of an enum.
    Enum(&'a EnumId),
}

impl<'a> LentId<'a> {
    /// The id.
    pub fn id(&self) -> TypeId
        ensures { result ≡ id_lent self.now }
    {
        match self {
            LentId::Struct(id) => TypeId::Struct(**id),
            LentId::OutStruct(id) => TypeId::OutStruct(**id),
            LentId::Opaque(id) => TypeId::Opaque(**id),
            LentId::Enum(id) => TypeId::Enum(**id),
        }
    }
}

/// A use of a definition, lent from where it is used.
#[derive(Clone, Copy)]
pub enum Use<'a> {
    /// The definition is the element of a slice.
    Sliced(LentId<'a>),
    /// It is in an option.
    Optioned(LentId<'a>),
    /// It is the success or the error of a result that a callback or a method of a trait returns,
    /// of which the success and the error are lent.
    Input(LentId<'a>, &'a SuccessType<CallbackReturn>, &'a Option<HirType<CallbackReturn>>),
    /// It is the success or the error of a result that a method or a function returns, of which
    /// the success and the error are lent.
    Output(LentId<'a>, &'a SuccessType<OutputOnly>, &'a Option<OutType>),
}

impl<'a> Use<'a> {
    /// The definition.
    pub fn id(&self) -> TypeId
        ensures { result ≡ used_id (used self.now) }
    {
        match self {
            Use::Sliced(id) | Use::Optioned(id) | Use::Input(id, _, _) | Use::Output(id, _, _) => {
                id.id()
            }
        }
    }
}

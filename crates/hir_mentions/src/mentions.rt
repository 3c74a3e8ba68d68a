//! What a definition names.

ghost use Rattle.std.specs.Prelude.{◌≡◌, option_copied};
ghost use Rattle.hir_mentions.specs.Mentions.{borrowed_by, given_by, named_by};
ghost use Rattle.hir_mentions.specs.Seen.{mentioned};

use hir_ids::{EnumId, OpaqueId, OutStructId, StructId, SymbolId, TraitId, TypeId};
use hir_life::{Lifetime, Lifetimes, MaybeStatic};

/// Something that a definition names, lent from the definition.
#[derive(Clone, Copy)]
pub enum Mention<'a> {
    /// A struct, with the lifetimes that a path gives it.
    Struct(&'a StructId, &'a Lifetimes),
    /// A struct that is only returned, with the lifetimes that a path gives it.
    OutStruct(&'a OutStructId, &'a Lifetimes),
    /// An opaque, with the lifetimes that a path gives it.
    Opaque(&'a OpaqueId, &'a Lifetimes),
    /// A trait, with the lifetimes that a path gives it.
    Trait(&'a TraitId, &'a Lifetimes),
    /// An enum, which has no lifetimes.
    Enum(&'a EnumId),
    /// An opaque without a path.
    OpaqueAlone(&'a OpaqueId),
    /// The lifetime of a reference or of a slice.
    Borrow(&'a MaybeStatic<Lifetime>),
}

impl<'a> Mention<'a> {
    /// The definition that is named. None of a lifetime.
    pub fn id(&self) -> Option<SymbolId>
        ensures { result ≡ named_by (mentioned self.now) }
    {
        match self {
            Mention::Struct(id, _) => Some(SymbolId::TypeId(TypeId::Struct(**id))),
            Mention::OutStruct(id, _) => Some(SymbolId::TypeId(TypeId::OutStruct(**id))),
            Mention::Opaque(id, _) | Mention::OpaqueAlone(id) => {
                Some(SymbolId::TypeId(TypeId::Opaque(**id)))
            }
            Mention::Trait(id, _) => Some(SymbolId::TraitId(**id)),
            Mention::Enum(id) => Some(SymbolId::TypeId(TypeId::Enum(**id))),
            Mention::Borrow(_) => None,
        }
    }

    /// The lifetimes that a path gives what is named. None where there is no path.
    pub fn lifetimes(&self) -> Option<&'a Lifetimes>
        ensures { option_copied result ≡ given_by (mentioned self.now) }
    {
        match *self {
            Mention::Struct(_, lifetimes)
            | Mention::OutStruct(_, lifetimes)
            | Mention::Opaque(_, lifetimes)
            | Mention::Trait(_, lifetimes) => Some(lifetimes),
            Mention::Enum(_) | Mention::OpaqueAlone(_) | Mention::Borrow(_) => None,
        }
    }

    /// The lifetime of a reference or of a slice. None where a definition is named.
    pub fn borrow(&self) -> Option<MaybeStatic<Lifetime>>
        ensures { result ≡ borrowed_by (mentioned self.now) }
    {
        match self {
            Mention::Borrow(lifetime) => Some(**lifetime),
            _ => None,
        }
    }
}

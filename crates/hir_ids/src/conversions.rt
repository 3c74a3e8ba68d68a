//! Conversions of ids: from a narrower kind to a wider one, and back where the id is of the
//! narrower.

use crate::ids::{EnumId, FunctionId, OpaqueId, OutStructId, StructId, SymbolId, TraitId, TypeId};

impl From<StructId> for TypeId {
    ghost use Rattle.std.specs.Prelude.{◌≡◌};
    ghost use Rattle.hir_ids.specs.declared.ids.TypeId.{TypeId};

    ghost from_gives = { λ id made. made ≡ TypeId.Struct id };

    fn from(id: StructId) -> TypeId {
        TypeId::Struct(id)
    }
}

impl From<OutStructId> for TypeId {
    ghost use Rattle.std.specs.Prelude.{◌≡◌};
    ghost use Rattle.hir_ids.specs.declared.ids.TypeId.{TypeId};

    ghost from_gives = { λ id made. made ≡ TypeId.OutStruct id };

    fn from(id: OutStructId) -> TypeId {
        TypeId::OutStruct(id)
    }
}

impl From<OpaqueId> for TypeId {
    ghost use Rattle.std.specs.Prelude.{◌≡◌};
    ghost use Rattle.hir_ids.specs.declared.ids.TypeId.{TypeId};

    ghost from_gives = { λ id made. made ≡ TypeId.Opaque id };

    fn from(id: OpaqueId) -> TypeId {
        TypeId::Opaque(id)
    }
}

impl From<EnumId> for TypeId {
    ghost use Rattle.std.specs.Prelude.{◌≡◌};
    ghost use Rattle.hir_ids.specs.declared.ids.TypeId.{TypeId};

    ghost from_gives = { λ id made. made ≡ TypeId.Enum id };

    fn from(id: EnumId) -> TypeId {
        TypeId::Enum(id)
    }
}

impl From<StructId> for SymbolId {
    ghost use Rattle.std.specs.Prelude.{◌≡◌};
    ghost use Rattle.hir_ids.specs.declared.ids.TypeId.{TypeId};
    ghost use Rattle.hir_ids.specs.declared.ids.SymbolId.{SymbolId};

    ghost from_gives = { λ id made. made ≡ SymbolId.TypeId (TypeId.Struct id) };

    fn from(id: StructId) -> SymbolId {
        SymbolId::TypeId(TypeId::Struct(id))
    }
}

impl From<OutStructId> for SymbolId {
    ghost use Rattle.std.specs.Prelude.{◌≡◌};
    ghost use Rattle.hir_ids.specs.declared.ids.TypeId.{TypeId};
    ghost use Rattle.hir_ids.specs.declared.ids.SymbolId.{SymbolId};

    ghost from_gives = { λ id made. made ≡ SymbolId.TypeId (TypeId.OutStruct id) };

    fn from(id: OutStructId) -> SymbolId {
        SymbolId::TypeId(TypeId::OutStruct(id))
    }
}

impl From<OpaqueId> for SymbolId {
    ghost use Rattle.std.specs.Prelude.{◌≡◌};
    ghost use Rattle.hir_ids.specs.declared.ids.TypeId.{TypeId};
    ghost use Rattle.hir_ids.specs.declared.ids.SymbolId.{SymbolId};

    ghost from_gives = { λ id made. made ≡ SymbolId.TypeId (TypeId.Opaque id) };

    fn from(id: OpaqueId) -> SymbolId {
        SymbolId::TypeId(TypeId::Opaque(id))
    }
}

impl From<EnumId> for SymbolId {
    ghost use Rattle.std.specs.Prelude.{◌≡◌};
    ghost use Rattle.hir_ids.specs.declared.ids.TypeId.{TypeId};
    ghost use Rattle.hir_ids.specs.declared.ids.SymbolId.{SymbolId};

    ghost from_gives = { λ id made. made ≡ SymbolId.TypeId (TypeId.Enum id) };

    fn from(id: EnumId) -> SymbolId {
        SymbolId::TypeId(TypeId::Enum(id))
    }
}

impl From<TypeId> for SymbolId {
    ghost use Rattle.std.specs.Prelude.{◌≡◌};
    ghost use Rattle.hir_ids.specs.declared.ids.SymbolId.{SymbolId};

    ghost from_gives = { λ id made. made ≡ SymbolId.TypeId id };

    fn from(id: TypeId) -> SymbolId {
        SymbolId::TypeId(id)
    }
}

impl From<TraitId> for SymbolId {
    ghost use Rattle.std.specs.Prelude.{◌≡◌};
    ghost use Rattle.hir_ids.specs.declared.ids.SymbolId.{SymbolId};

    ghost from_gives = { λ id made. made ≡ SymbolId.TraitId id };

    fn from(id: TraitId) -> SymbolId {
        SymbolId::TraitId(id)
    }
}

impl From<FunctionId> for SymbolId {
    ghost use Rattle.std.specs.Prelude.{◌≡◌};
    ghost use Rattle.hir_ids.specs.declared.ids.SymbolId.{SymbolId};

    ghost from_gives = { λ id made. made ≡ SymbolId.FunctionId id };

    fn from(id: FunctionId) -> SymbolId {
        SymbolId::FunctionId(id)
    }
}

/// The error comes exactly where the id isn't one of a type.
impl TryFrom<SymbolId> for TypeId {
    type Error = ();

    ghost use Rattle.hir_ids.specs.Conversions.{GivesType};

    ghost try_from_gives = { GivesType };

    fn try_from(symbol: SymbolId) -> Result<TypeId, ()> {
        match symbol {
            SymbolId::TypeId(id) => Ok(id),
            SymbolId::TraitId(_) | SymbolId::FunctionId(_) => Err(()),
        }
    }
}

/// The error comes exactly where the id isn't one of a trait.
impl TryFrom<SymbolId> for TraitId {
    type Error = ();

    ghost use Rattle.hir_ids.specs.Conversions.{GivesTrait};

    ghost try_from_gives = { GivesTrait };

    fn try_from(symbol: SymbolId) -> Result<TraitId, ()> {
        match symbol {
            SymbolId::TraitId(id) => Ok(id),
            SymbolId::TypeId(_) | SymbolId::FunctionId(_) => Err(()),
        }
    }
}

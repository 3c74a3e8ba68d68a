//! Whether the definitions of a context fit together.

ghost use Rattle.std.specs.Prelude.{◌≡◌, IfOk, map};
ghost use Rattle.hir_context.specs.inside.Telling.{TellsOfKind};
ghost use Rattle.hir_fitting.specs.Answering.{AnswersFitting};
ghost use Rattle.hir_fitting.specs.Parts.{parts_of_enum, parts_of_function, parts_of_opaque, parts_of_struct, parts_of_trait};
ghost use Rattle.hir_mentions.specs.Types.{type_mentions};

use bridge_decl::{Items, NoMemory};
use hir_definitions::{EnumDef, Method, OpaqueDef, StructDef, TraitDef};
use hir_fitting::{
    Census, Unfit, enum_misfit, function_misfit, opaque_misfit, struct_misfit, trait_misfit,
};
use hir_ids::{EnumId, FunctionId, OpaqueId, OutStructId, StructId, SymbolId, TraitId, TypeId};
use hir_mentions::PositionMentions;
use hir_types::{Everywhere, OutputOnly};
use std::alloc::Global;

/// A position at which structs are defined.
pub trait StructPosition: PositionMentions {
    ghost use Rattle.std.specs.Prelude.{ℕ};
    ghost use Rattle.hir_ids.specs.declared.ids.SymbolId.{SymbolId};

    /// The id of the struct at a place.
    ghost struct_at: { ℕ → SymbolId };

    /// The id of the struct at a place.
    fn struct_id(place: usize) -> SymbolId
        ensures { result ≡ struct_at place };
}

impl StructPosition for Everywhere {
    ghost use Rattle.hir_ids.specs.declared.ids.SymbolId.TheVariants as symbol;
    ghost use Rattle.hir_ids.specs.declared.ids.TypeId.TheVariants as type;

    ghost struct_at = { λ place. symbol.TypeId (type.Struct place) };

    fn struct_id(place: usize) -> SymbolId {
        SymbolId::TypeId(TypeId::Struct(StructId::new(place)))
    }
}

impl StructPosition for OutputOnly {
    ghost use Rattle.hir_ids.specs.declared.ids.SymbolId.TheVariants as symbol;
    ghost use Rattle.hir_ids.specs.declared.ids.TypeId.TheVariants as type;

    ghost struct_at = { λ place. symbol.TypeId (type.OutStruct place) };

    fn struct_id(place: usize) -> SymbolId {
        SymbolId::TypeId(TypeId::OutStruct(OutStructId::new(place)))
    }
}

/// A definition of any kind.
pub trait Definition {
    ghost use Rattle.std.specs.Prelude.{List, ℕ};
    ghost use Rattle.hir_fitting.specs.Parts.{Part};
    ghost use Rattle.hir_ids.specs.declared.ids.SymbolId.{SymbolId};

    /// The parts of the definition.
    ghost parts_of: { Self → List Part };

    /// The id of the definition at a place among those of its kind.
    ghost symbol_at: { ℕ → SymbolId };

    /// The id of the definition at a place among those of its kind.
    fn symbol(place: usize) -> SymbolId
        ensures { result ≡ symbol_at place };

    /// What doesn't fit in the definition, which has this id.
    fn misfit(
        &self,
        alloc: Global,
        census: &Census,
        id: SymbolId,
    ) -> Result<Option<Unfit>, NoMemory>
        ensures { IfOk result (AnswersFitting census.now id (parts_of self.now)) };
}

impl<P: StructPosition> Definition for StructDef<P> {
    ghost parts_of = { parts_of_struct
        (type_mentions P.OpaqueOwnership.borrow_of P.of_struct P.of_trait P.of_callback) };

    ghost symbol_at = { P.struct_at };

    fn symbol(place: usize) -> SymbolId {
        P::struct_id(place)
    }

    fn misfit(
        &self,
        alloc: Global,
        census: &Census,
        id: SymbolId,
    ) -> Result<Option<Unfit>, NoMemory> {
        struct_misfit(alloc, census, id, self)
    }
}

impl Definition for OpaqueDef {
    ghost use Rattle.hir_ids.specs.declared.ids.SymbolId.TheVariants as symbol;
    ghost use Rattle.hir_ids.specs.declared.ids.TypeId.TheVariants as type;

    ghost parts_of = { parts_of_opaque };

    ghost symbol_at = { λ place. symbol.TypeId (type.Opaque place) };

    fn symbol(place: usize) -> SymbolId {
        SymbolId::TypeId(TypeId::Opaque(OpaqueId::new(place)))
    }

    fn misfit(
        &self,
        alloc: Global,
        census: &Census,
        id: SymbolId,
    ) -> Result<Option<Unfit>, NoMemory> {
        opaque_misfit(alloc, census, id, self)
    }
}

impl Definition for EnumDef {
    ghost use Rattle.hir_ids.specs.declared.ids.SymbolId.TheVariants as symbol;
    ghost use Rattle.hir_ids.specs.declared.ids.TypeId.TheVariants as type;

    ghost parts_of = { parts_of_enum };

    ghost symbol_at = { λ place. symbol.TypeId (type.Enum place) };

    fn symbol(place: usize) -> SymbolId {
        SymbolId::TypeId(TypeId::Enum(EnumId::new(place)))
    }

    fn misfit(
        &self,
        alloc: Global,
        census: &Census,
        id: SymbolId,
    ) -> Result<Option<Unfit>, NoMemory> {
        enum_misfit(alloc, census, id, self)
    }
}

impl Definition for TraitDef {
    ghost use Rattle.hir_ids.specs.declared.ids.SymbolId.TheVariants as symbol;

    ghost parts_of = { parts_of_trait };

    ghost symbol_at = { λ place. symbol.TraitId place };

    fn symbol(place: usize) -> SymbolId {
        SymbolId::TraitId(TraitId::new(place))
    }

    fn misfit(
        &self,
        alloc: Global,
        census: &Census,
        id: SymbolId,
    ) -> Result<Option<Unfit>, NoMemory> {
        trait_misfit(alloc, census, id, self)
    }
}

impl Definition for Method {
    ghost use Rattle.hir_ids.specs.declared.ids.SymbolId.TheVariants as symbol;

    ghost parts_of = { parts_of_function };

    ghost symbol_at = { λ place. symbol.FunctionId place };

    fn symbol(place: usize) -> SymbolId {
        SymbolId::FunctionId(FunctionId::new(place))
    }

    fn misfit(
        &self,
        alloc: Global,
        census: &Census,
        id: SymbolId,
    ) -> Result<Option<Unfit>, NoMemory> {
        function_misfit(alloc, census, id, self)
    }
}

/// What doesn't fit in the first definition of a kind that doesn't fit.
fn first_misfit<D: Definition>(
    alloc: Global,
    census: &Census,
    defs: &[D],
) -> Result<Option<Unfit>, NoMemory>
    ensures { IfOk result (TellsOfKind census.now D.symbol_at (map D.parts_of defs.now)) }
{
    for (place, def) in defs.iter().enumerate() {
        let unfit = def.misfit(alloc, census, D::symbol(place))?;
        if unfit.is_some() {
            return Ok(unfit);
        }
    }
    Ok(None)
}

/// The same of a list of definitions.
pub fn kind_misfit<D: Definition>(
    alloc: Global,
    census: &Census,
    defs: &Items<D>,
) -> Result<Option<Unfit>, NoMemory>
    ensures { IfOk result (TellsOfKind census.now D.symbol_at (map D.parts_of defs.now)) }
{
    first_misfit(alloc, census, defs.as_slice())
}

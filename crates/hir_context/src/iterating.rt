//! All definitions of a context with their ids, one after another.

ghost use Rattle.std.specs.Prelude.{◌≡◌, ◌+◌, ◌^◌, ◌<◌, length};

use crate::context::TypeContext;
use hir_definitions::{EnumDef, Method, OpaqueDef, OutStructDef, StructDef, TraitDef, TypeDef};
use hir_ids::{EnumId, FunctionId, OpaqueId, OutStructId, StructId, TraitId, TypeId};
use hir_types::Everywhere;

/// Definitions of one kind with their places, one after another.
#[derive(Drop)]
pub struct Numbered<'a, D> {
    rest: &'a [D],
    next: usize,
    /// No place is too great for a number.
    ghost counted: { next + length rest.now < 2 ^ 64 },
}

impl<'a, D> Numbered<'a, D> {
    ghost use Rattle.std.specs.List.{enumerate_from};
    ghost use Rattle.hir_context.specs.Iterating.{numbered_left};

    /// All of these, counted from 0 on.
    fn new(defs: &'a [D]) -> Numbered<'a, D>
        ensures { numbered_left result ≡ enumerate_from 0 defs.now }
    {
        // A slice has fewer than 2^64 elements, as its length says.
        let _count = defs.len();
        Numbered {
            rest: defs,
            next: 0,
        }
    }
}

impl<'a, D> Iterator for Numbered<'a, D> {
    type Item = (usize, &'a D);

    ghost use Rattle.std.specs.Iterator.{YieldsFirstBy, item_count};
    ghost use Rattle.hir_context.specs.Iterating.{numbered_left};

    ghost next_gives = { YieldsFirstBy (λ item. (item.0, item.1.now)) numbered_left };

    ghost remaining = { item_count numbered_left };

    fn next(&mut self) -> Option<(usize, &'a D)> {
        let (first, rest) = self.rest.split_first()?;
        let place = self.next;
        self.rest = rest;
        self.next += 1;
        Some((place, first))
    }
}

/// All types with their ids: structs, structs that only go out, opaques, enums, each kind in the
/// order of its ids.
#[derive(Drop)]
pub struct AllTypes<'a> {
    structs: Numbered<'a, StructDef<Everywhere>>,
    out_structs: Numbered<'a, OutStructDef>,
    opaques: Numbered<'a, OpaqueDef>,
    enums: Numbered<'a, EnumDef>,
}

impl<'a> Iterator for AllTypes<'a> {
    type Item = (TypeId, TypeDef<'a>);

    ghost use Rattle.std.specs.Iterator.{YieldsFirstBy, item_count};
    ghost use Rattle.hir_context.specs.Iterating.{types_left};
    ghost use Rattle.hir_context.specs.Lookups.{lent_type};

    ghost next_gives = { YieldsFirstBy (λ item. (item.0, lent_type item.1)) types_left };

    ghost remaining = { item_count types_left };

    fn next(&mut self) -> Option<(TypeId, TypeDef<'a>)> {
        if let Some((place, def)) = self.structs.next() {
            return Some((TypeId::Struct(StructId::new(place)), TypeDef::Struct(def)));
        }
        if let Some((place, def)) = self.out_structs.next() {
            return Some((
                TypeId::OutStruct(OutStructId::new(place)),
                TypeDef::OutStruct(def),
            ));
        }
        if let Some((place, def)) = self.opaques.next() {
            return Some((TypeId::Opaque(OpaqueId::new(place)), TypeDef::Opaque(def)));
        }
        let (place, def) = self.enums.next()?;
        Some((TypeId::Enum(EnumId::new(place)), TypeDef::Enum(def)))
    }
}

/// All traits with their ids, in order.
#[derive(Drop)]
pub struct AllTraits<'a> {
    traits: Numbered<'a, TraitDef>,
}

impl<'a> Iterator for AllTraits<'a> {
    type Item = (TraitId, &'a TraitDef);

    ghost use Rattle.std.specs.Iterator.{YieldsFirstBy, item_count};
    ghost use Rattle.hir_context.specs.Iterating.{traits_left};

    ghost next_gives = { YieldsFirstBy (λ item. (item.0, item.1.now)) traits_left };

    ghost remaining = { item_count traits_left };

    fn next(&mut self) -> Option<(TraitId, &'a TraitDef)> {
        let (place, def) = self.traits.next()?;
        Some((TraitId::new(place), def))
    }
}

/// All functions that belong to no type with their ids, in order.
#[derive(Drop)]
pub struct AllFunctions<'a> {
    functions: Numbered<'a, Method>,
}

impl<'a> Iterator for AllFunctions<'a> {
    type Item = (FunctionId, &'a Method);

    ghost use Rattle.std.specs.Iterator.{YieldsFirstBy, item_count};
    ghost use Rattle.hir_context.specs.Iterating.{functions_left};

    ghost next_gives = { YieldsFirstBy (λ item. (item.0, item.1.now)) functions_left };

    ghost remaining = { item_count functions_left };

    fn next(&mut self) -> Option<(FunctionId, &'a Method)> {
        let (place, def) = self.functions.next()?;
        Some((FunctionId::new(place), def))
    }
}

impl TypeContext {
    ghost use Rattle.std.specs.List.{enumerate_from};
    ghost use Rattle.hir_context.specs.Iterating.{all_types, functions_left, traits_left, types_left};

    /// All types with their ids: structs, structs that only go out, opaques and enums.
    pub fn all_types(&self) -> AllTypes<'_>
        ensures { types_left result ≡ all_types self.now.definitions }
    {
        AllTypes {
            structs: Numbered::new(self.structs()),
            out_structs: Numbered::new(self.out_structs()),
            opaques: Numbered::new(self.opaques()),
            enums: Numbered::new(self.enums()),
        }
    }

    /// All traits with their ids.
    pub fn all_traits(&self) -> AllTraits<'_>
        ensures { traits_left result ≡ enumerate_from 0 self.now.definitions.traits.defs }
    {
        AllTraits {
            traits: Numbered::new(self.traits()),
        }
    }

    /// All functions that belong to no type, with their ids.
    pub fn all_free_functions(&self) -> AllFunctions<'_>
        ensures { functions_left result ≡ enumerate_from 0 self.now.definitions.functions.defs }
    {
        AllFunctions {
            functions: Numbered::new(self.functions()),
        }
    }
}

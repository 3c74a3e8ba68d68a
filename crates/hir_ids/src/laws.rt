//! Laws of ids and owners that callers may rely on: each is the contract of a function without a
//! body.

ghost use Rattle.std.specs.Prelude.{◌≡◌, Result, Ok, Some, IsErr, ℕ};
ghost use Rattle.hir_life.specs.Comparing.{Agree};
ghost use Rattle.hir_ids.specs.declared.owners.Borrow.{Borrow};
ghost use Rattle.hir_ids.specs.declared.ids.TypeId.{TypeId as TypesId};
ghost use Rattle.hir_ids.specs.declared.ids.SymbolId.{SymbolId as SymbolsId};

use crate::ids::{EnumId, FunctionId, OpaqueId, OutStructId, StructId, SymbolId, TraitId, TypeId};
use crate::owners::{Borrow, OpaqueOwner};
use std::hash::Hash;

/// The id of anything that was made of a type's id converts back to that id, and to no trait's;
/// likewise that of a trait's id. One that was made of a function's id converts to neither.
pub fn symbols_convert_back()
    ensures type_back { (id : TypesId) (symbol : SymbolsId) (r : Result TypesId (Unit {0}))
        → ⟦<SymbolId as From<TypeId>>⟧.from_gives id symbol
        → ⟦<TypeId as TryFrom<SymbolId>>⟧.try_from_gives symbol r → r ≡ Ok id }
    ensures type_is_no_trait { (id : TypesId) (symbol : SymbolsId) (r : Result ℕ (Unit {0}))
        → ⟦<SymbolId as From<TypeId>>⟧.from_gives id symbol
        → ⟦<TraitId as TryFrom<SymbolId>>⟧.try_from_gives symbol r → IsErr r }
    ensures trait_back { (id : ℕ) (symbol : SymbolsId) (r : Result ℕ (Unit {0}))
        → ⟦<SymbolId as From<TraitId>>⟧.from_gives id symbol
        → ⟦<TraitId as TryFrom<SymbolId>>⟧.try_from_gives symbol r → r ≡ Ok id }
    ensures trait_is_no_type { (id : ℕ) (symbol : SymbolsId) (r : Result TypesId (Unit {0}))
        → ⟦<SymbolId as From<TraitId>>⟧.from_gives id symbol
        → ⟦<TypeId as TryFrom<SymbolId>>⟧.try_from_gives symbol r → IsErr r }
    ensures function_is_no_type { (id : ℕ) (symbol : SymbolsId) (r : Result TypesId (Unit {0}))
        → ⟦<SymbolId as From<FunctionId>>⟧.from_gives id symbol
        → ⟦<TypeId as TryFrom<SymbolId>>⟧.try_from_gives symbol r → IsErr r }
    ensures function_is_no_trait { (id : ℕ) (symbol : SymbolsId) (r : Result ℕ (Unit {0}))
        → ⟦<SymbolId as From<FunctionId>>⟧.from_gives id symbol
        → ⟦<TraitId as TryFrom<SymbolId>>⟧.try_from_gives symbol r → IsErr r }
{}

/// Order, equality and hash of each kind of id agree.
pub fn ids_agree()
    ensures structs { Agree ⟦<StructId as Ord>⟧.cmp ⟦<StructId as PartialEq>⟧.eq
        ⟦<StructId as Hash>⟧.hash_input }
    ensures out_structs { Agree ⟦<OutStructId as Ord>⟧.cmp ⟦<OutStructId as PartialEq>⟧.eq
        ⟦<OutStructId as Hash>⟧.hash_input }
    ensures opaques { Agree ⟦<OpaqueId as Ord>⟧.cmp ⟦<OpaqueId as PartialEq>⟧.eq
        ⟦<OpaqueId as Hash>⟧.hash_input }
    ensures enums { Agree ⟦<EnumId as Ord>⟧.cmp ⟦<EnumId as PartialEq>⟧.eq
        ⟦<EnumId as Hash>⟧.hash_input }
    ensures traits { Agree ⟦<TraitId as Ord>⟧.cmp ⟦<TraitId as PartialEq>⟧.eq
        ⟦<TraitId as Hash>⟧.hash_input }
    ensures functions { Agree ⟦<FunctionId as Ord>⟧.cmp ⟦<FunctionId as PartialEq>⟧.eq
        ⟦<FunctionId as Hash>⟧.hash_input }
    ensures types { Agree ⟦<TypeId as Ord>⟧.cmp ⟦<TypeId as PartialEq>⟧.eq
        ⟦<TypeId as Hash>⟧.hash_input }
    ensures symbols { Agree ⟦<SymbolId as Ord>⟧.cmp ⟦<SymbolId as PartialEq>⟧.eq
        ⟦<SymbolId as Hash>⟧.hash_input }
{}

/// A borrow is an owner that has itself as its borrow: it is never owned, and always has a
/// lifetime.
pub fn a_borrow_is_never_owned()
    ensures { (b : Borrow) → ⟦<Borrow as OpaqueOwner>⟧.borrow_of b ≡ Some b }
{}

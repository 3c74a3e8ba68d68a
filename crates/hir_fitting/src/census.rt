//! How many definitions there are, and how many lifetimes each has.

ghost use Rattle.std.specs.Prelude.{◌≡◌, ◌↔◌, IfOk, IsSome, map, slice_get};
ghost use Rattle.hir_fitting.specs.Census.{IsThere, arity_in, none_within};

use bridge_decl::{Items, NoMemory};
use hir_definitions::{OpaqueDef, StructDef, TraitDef};
use hir_ids::{SymbolId, TypeId};
use hir_types::TyPosition;
use std::alloc::Global;

/// A definition to which a path gives lifetimes.
pub trait TakesLifetimes {
    ghost use Rattle.std.specs.Prelude.{ℕ};

    /// How many lifetimes it has.
    ghost arity_of: { Self → ℕ };

    /// How many lifetimes it has.
    fn arity(&self) -> usize
        ensures { result ≡ arity_of self.now };
}

impl<P: TyPosition> TakesLifetimes for StructDef<P> {
    ghost arity_of = { λ def. def.lifetimes.count };

    fn arity(&self) -> usize {
        self.lifetimes.num_lifetimes()
    }
}

impl TakesLifetimes for OpaqueDef {
    ghost arity_of = { λ def. def.lifetimes.count };

    fn arity(&self) -> usize {
        self.lifetimes.num_lifetimes()
    }
}

impl TakesLifetimes for TraitDef {
    ghost arity_of = { λ def. def.lifetimes.count };

    fn arity(&self) -> usize {
        self.lifetimes.num_lifetimes()
    }
}

/// How many definitions there are of each kind, and how many lifetimes each has. An id is the
/// place of a definition among those of its kind.
#[derive(Drop)]
pub struct Census {
    out_structs: Items<usize>,
    structs: Items<usize>,
    opaques: Items<usize>,
    traits: Items<usize>,
    enums: usize,
    functions: usize,
}

/// How many lifetimes each has.
fn arities<D: TakesLifetimes>(alloc: Global, defs: &[D]) -> Result<Items<usize>, NoMemory>
    ensures { IfOk result (λ counts. counts ≡ map D.arity_of defs.now) }
{
    let mut counts = Items::new(alloc);
    for def in defs {
        counts.push(def.arity())?;
    }
    Ok(counts)
}

impl Census {
    /// The census of these definitions, of which enums and functions are only counted.
    pub fn of<O: TakesLifetimes, S: TakesLifetimes, Q: TakesLifetimes, T: TakesLifetimes>(
        alloc: Global,
        out_structs: &[O],
        structs: &[S],
        opaques: &[Q],
        traits: &[T],
        enums: usize,
        functions: usize,
    ) -> Result<Census, NoMemory>
        ensures { IfOk result (λ census. census ≡ record {
          out_structs = map O.arity_of out_structs.now;
          structs = map S.arity_of structs.now;
          opaques = map Q.arity_of opaques.now;
          traits = map T.arity_of traits.now;
          enums = enums;
          functions = functions;
        }) }
    {
        let out_structs = arities(alloc, out_structs)?;
        let structs = arities(alloc, structs)?;
        let opaques = arities(alloc, opaques)?;
        let traits = arities(alloc, traits)?;
        Ok(Census {
            out_structs,
            structs,
            opaques,
            traits,
            enums,
            functions,
        })
    }

    /// How many lifetimes the definition of this id has. None exactly where there is no such
    /// definition. Enums have none, and functions, which no path names, count as having none.
    pub fn arity_of(&self, id: SymbolId) -> Option<usize>
        ensures arity { result ≡ arity_in self.now id }
        ensures there { IsSome result ↔ IsThere self.now id }
    {
        match &id {
            SymbolId::TypeId(TypeId::OutStruct(id)) => arity_at(&self.out_structs, id.index()),
            SymbolId::TypeId(TypeId::Struct(id)) => arity_at(&self.structs, id.index()),
            SymbolId::TypeId(TypeId::Opaque(id)) => arity_at(&self.opaques, id.index()),
            SymbolId::TypeId(TypeId::Enum(id)) => none_below(self.enums, id.index()),
            SymbolId::TraitId(id) => arity_at(&self.traits, id.index()),
            SymbolId::FunctionId(id) => none_below(self.functions, id.index()),
        }
    }
}

/// The count at this place.
fn arity_at(counts: &Items<usize>, place: usize) -> Option<usize>
    ensures { result ≡ slice_get counts.now place }
{
    counts.get(place).copied()
}

/// No lifetimes, where the place is one of so many.
fn none_below(count: usize, place: usize) -> Option<usize>
    ensures { result ≡ none_within count place }
{
    if place < count { Some(0) } else { None }
}

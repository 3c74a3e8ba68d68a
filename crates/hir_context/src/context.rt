//! The store of all definitions.

ghost use Rattle.std.specs.Prelude.{◌≡◌, IfOk, IfErr, length};
ghost use Rattle.hir_context.specs.Fitness.{AllFit, census_of, nesting_of};
ghost use Rattle.hir_context.specs.inside.Telling.{TellsNamed, TellsUnfit};
ghost use Rattle.hir_context.specs.Faults.{IsContextFault};
ghost use Rattle.hir_ids.specs.declared.ids.SymbolId.TheVariants as symbol;
ghost use Rattle.hir_nesting.specs.Faults.{TellsMisfit};
ghost use Rattle.hir_context.specs.Listing.{AreDefinitions};

use crate::fitting::kind_misfit;
use crate::parts::{ContextParts, Definitions};
use bridge_decl::NoMemory;
use hir_fitting::{Census, Unfit};
use hir_ids::{SymbolId, TypeId};
use hir_nesting::nesting_misfit;
use std::alloc::{AllocError, Global};

/// Why parts make no context.
#[derive(Clone, Copy, PartialEq, Eq, Debug)]
pub enum ContextFault {
    /// Something in them doesn't fit.
    Unfit(Unfit),
    /// There was no memory.
    NoMemory,
}

/// The census of definitions.
fn census(alloc: Global, defs: &Definitions) -> Result<Census, NoMemory>
    ensures { IfOk result (λ census. census ≡ census_of defs.now) }
{
    Census::of(
        alloc,
        defs.out_structs.defs.as_slice(),
        defs.structs.defs.as_slice(),
        defs.opaques.defs.as_slice(),
        defs.traits.defs.as_slice(),
        defs.enums.defs.len(),
        defs.functions.defs.len(),
    )
}

/// What doesn't fit of what definitions name, of which this is the census.
fn census_misfit(
    alloc: Global,
    census: &Census,
    defs: &Definitions,
) -> Result<Option<Unfit>, NoMemory>
    requires { census.now ≡ census_of defs.now }
    ensures { IfOk result (TellsNamed defs.now) }
{
    let out_structs = kind_misfit(alloc, census, &defs.out_structs.defs)?;
    if out_structs.is_some() {
        return Ok(out_structs);
    }
    let structs = kind_misfit(alloc, census, &defs.structs.defs)?;
    if structs.is_some() {
        return Ok(structs);
    }
    let opaques = kind_misfit(alloc, census, &defs.opaques.defs)?;
    if opaques.is_some() {
        return Ok(opaques);
    }
    let enums = kind_misfit(alloc, census, &defs.enums.defs)?;
    if enums.is_some() {
        return Ok(enums);
    }
    let traits = kind_misfit(alloc, census, &defs.traits.defs)?;
    if traits.is_some() {
        return Ok(traits);
    }
    kind_misfit(alloc, census, &defs.functions.defs)
}

/// What doesn't fit of what definitions name.
fn named_misfit(alloc: Global, defs: &Definitions) -> Result<Option<Unfit>, NoMemory>
    ensures { IfOk result (TellsNamed defs.now) }
{
    let census = census(alloc, defs)?;
    census_misfit(alloc, &census, defs)
}

/// A struct whose nesting doesn't fit: it is the holder and what is named.
fn of_nesting(id: &TypeId) -> Unfit
    ensures { result ≡ record { holder = symbol.TypeId id.now; named = symbol.TypeId id.now } }
{
    Unfit {
        holder: SymbolId::TypeId(*id),
        named: SymbolId::TypeId(*id),
    }
}

/// A struct that doesn't nest well.
fn nested_misfit(alloc: Global, defs: &Definitions) -> Result<Option<TypeId>, NoMemory>
    ensures { IfOk result
        (TellsMisfit (nesting_of defs.now) (length defs.now.out_structs.defs)) }
{
    nesting_misfit(
        alloc,
        defs.out_structs.defs.as_slice(),
        defs.structs.defs.as_slice(),
    )
}

/// What doesn't fit in definitions.
fn misfit(alloc: Global, defs: &Definitions) -> Result<Option<Unfit>, NoMemory>
    ensures { IfOk result (TellsUnfit defs.now) }
{
    let named = named_misfit(alloc, defs)?;
    if named.is_some() {
        return Ok(named);
    }
    match nested_misfit(alloc, defs)? {
        Some(id) => Ok(Some(of_nesting(&id))),
        None => Ok(None),
    }
}

/// The definitions of an interface, which fit together: all that they name is there, and their
/// structs nest well.
#[derive(Drop)]
pub struct TypeContext {
    /// The definitions, by their kinds.
    pub definitions: Definitions,
    /// They fit together.
    ghost fits: { ∥ AllFit definitions ∥₁ },
}

impl TypeContext {
    /// The context of these parts, which fit. `Unfit` tells something in them that doesn't fit, and
    /// `NoMemory` that there was no memory.
    pub fn new(alloc: Global, parts: ContextParts) -> Result<TypeContext, ContextFault>
        ensures kept { IfOk result (λ tcx. AreDefinitions parts tcx.definitions) }
        ensures fits { IfOk result (λ tcx. AllFit tcx.definitions) }
        ensures fault { IfErr result (IsContextFault parts) }
    {
        let definitions = match Definitions::of(alloc, parts) {
            Ok(definitions) => definitions,
            Err(AllocError) => return Err(ContextFault::NoMemory),
        };
        match misfit(alloc, &definitions) {
            Ok(None) => Ok(TypeContext { definitions }),
            Ok(Some(unfit)) => Err(ContextFault::Unfit(unfit)),
            Err(AllocError) => Err(ContextFault::NoMemory),
        }
    }
}

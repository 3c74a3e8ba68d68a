//! What the cells of the table ask.

mod elements;
mod simple_tests;

ghost use Rattle.std.specs.Prelude.{◌≡◌, ◌++◌, ◌∷◌, [], IfOk};
ghost use Rattle.bridge_grid.specs.Asked.{bytes, cell_faults, denied, denied_if, mark_faults, muts, of_box, of_opaque, of_value, statics, told_if};

use crate::fault::{TypeFault, TypeFaults};
use crate::part::Part;
use bridge_decl::{Items, Mutability, NoMemory, PrimitiveType, StdlibOrDiplomat};
use bridge_rules::Cell;
use elements::{element_in, element_out, slice_borrows};
use hir_backends::{BackendAttrSupport, SupportFlag};
use hir_life::{Lifetime, MaybeStatic};
use hir_reports::Rule;
use simple_tests::{is_byte, is_diplomat, is_error, is_mutable, is_static, is_whole};
use std::alloc::Global;

/// One list after another.
pub fn both(first: TypeFaults, second: TypeFaults) -> Result<TypeFaults, NoMemory>
    ensures { IfOk result (λ faults. faults ≡ first ++ second) }
{
    let mut faults = first;
    faults.append(second)?;
    Ok(faults)
}

/// That fault alone.
pub fn told(alloc: Global, fault: TypeFault) -> Result<TypeFaults, NoMemory>
    ensures { IfOk result (λ faults. faults ≡ fault ∷ []) }
{
    let mut faults = Items::new(alloc);
    faults.push(fault)?;
    Ok(faults)
}

/// That fault, if it is one.
pub fn told_if(alloc: Global, is_broken: bool, fault: TypeFault) -> Result<TypeFaults, NoMemory>
    ensures { IfOk result (λ faults. faults ≡ told_if is_broken fault) }
{
    if is_broken {
        told(alloc, fault)
    } else {
        Ok(Items::new(alloc))
    }
}

/// That a feature is missing, if it is asked.
pub fn denied_if(
    alloc: Global,
    support: &BackendAttrSupport,
    is_asked: bool,
    flag: SupportFlag,
) -> Result<TypeFaults, NoMemory>
    ensures { IfOk result (λ faults. faults ≡ denied_if support.now is_asked flag) }
{
    let is_missing = is_asked && !support.has(flag);
    told_if(alloc, is_missing, TypeFault::Denied(flag))
}

/// That a feature is missing.
pub fn denied(
    alloc: Global,
    support: &BackendAttrSupport,
    flag: SupportFlag,
) -> Result<TypeFaults, NoMemory>
    ensures { IfOk result (λ faults. faults ≡ denied support.now flag) }
{
    denied_if(alloc, support, true, flag)
}

/// A reference to an opaque that isn't marked as mutable may not be written through.
pub fn mark_faults(
    alloc: Global,
    mutability: Mutability,
    mark: Mutability,
) -> Result<TypeFaults, NoMemory>
    ensures { IfOk result (λ faults. faults ≡ mark_faults mutability mark) }
{
    let is_unmarked = is_mutable(mutability) && !is_mutable(mark);
    told_if(
        alloc,
        is_unmarked,
        TypeFault::Broken(Rule::MutOpaqueUnmarked),
    )
}

fn of_opaque(alloc: Global, spelling: StdlibOrDiplomat) -> Result<TypeFaults, NoMemory>
    ensures { IfOk result (λ faults. faults ≡ of_opaque spelling) }
{
    told_if(
        alloc,
        is_diplomat(spelling),
        TypeFault::Broken(Rule::DiplomatOptionOpaque),
    )
}

fn of_box(alloc: Global, part: Part, spelling: StdlibOrDiplomat) -> Result<TypeFaults, NoMemory>
    ensures { IfOk result (λ faults. faults ≡ of_box part spelling) }
{
    if is_whole(part) && is_diplomat(spelling) {
        told(alloc, TypeFault::Broken(Rule::DiplomatOptionOpaque))
    } else {
        told(alloc, TypeFault::Broken(Rule::OptionShape))
    }
}

fn of_value(
    alloc: Global,
    support: &BackendAttrSupport,
    spelling: StdlibOrDiplomat,
) -> Result<TypeFaults, NoMemory>
    ensures { IfOk result (λ faults. faults ≡ of_value support.now spelling) }
{
    both(
        told_if(
            alloc,
            !is_diplomat(spelling),
            TypeFault::Broken(Rule::StdOptionPlace),
        )?,
        denied(alloc, support, SupportFlag::Option)?,
    )
}

fn statics(
    alloc: Global,
    support: &BackendAttrSupport,
    lifetime: MaybeStatic<Lifetime>,
) -> Result<TypeFaults, NoMemory>
    ensures { IfOk result (λ faults. faults ≡ statics support.now lifetime) }
{
    denied_if(
        alloc,
        support,
        is_static(lifetime),
        SupportFlag::StaticSlices,
    )
}

fn muts(
    alloc: Global,
    support: &BackendAttrSupport,
    mutability: Mutability,
) -> Result<TypeFaults, NoMemory>
    ensures { IfOk result (λ faults. faults ≡ muts support.now mutability) }
{
    denied_if(
        alloc,
        support,
        is_mutable(mutability),
        SupportFlag::MutableSlices,
    )
}

fn bytes(
    alloc: Global,
    support: &BackendAttrSupport,
    part: Part,
    primitive: PrimitiveType,
) -> Result<TypeFaults, NoMemory>
    ensures { IfOk result (λ faults. faults ≡ bytes support.now part primitive) }
{
    if is_byte(primitive) && !is_error(part) {
        denied(alloc, support, SupportFlag::OwnedByteSliceReturns)
    } else {
        told(alloc, TypeFault::Broken(Rule::OwnedSliceMisplaced))
    }
}

/// What is wrong in a shape of which a cell asks something.
pub fn cell_faults(
    alloc: Global,
    support: &BackendAttrSupport,
    part: Part,
    cell: Cell,
) -> Result<TypeFaults, NoMemory>
    ensures { IfOk result (λ faults. faults ≡ cell_faults support.now part cell) }
{
    match cell {
        Cell::Fine | Cell::Inside => Ok(Items::new(alloc)),
        Cell::Broken(rule) => told(alloc, TypeFault::Broken(rule)),
        Cell::UnlessInside(rule) => told_if(alloc, is_whole(part), TypeFault::Broken(rule)),
        Cell::Needs(flag) => denied(alloc, support, flag),
        Cell::Marked(mutability, mark) => mark_faults(alloc, mutability, mark),
        Cell::OfOpaque(spelling) => of_opaque(alloc, spelling),
        Cell::OfBox(spelling) => of_box(alloc, part, spelling),
        Cell::OfValue(spelling) => of_value(alloc, support, spelling),
        Cell::Static(lifetime, mutability) => both(
            statics(alloc, support, lifetime)?,
            muts(alloc, support, mutability)?,
        ),
        Cell::Mut(mutability) => muts(alloc, support, mutability),
        Cell::Bytes(primitive) => bytes(alloc, support, part, primitive),
        Cell::SliceIn(borrow, element) => both(
            slice_borrows(alloc, support, borrow)?,
            element_in(alloc, support, borrow, element)?,
        ),
        Cell::SliceOut(borrow, element) => both(
            slice_borrows(alloc, support, borrow)?,
            element_out(alloc, element)?,
        ),
    }
}

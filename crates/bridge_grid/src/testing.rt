//! The tests of types where they stand: which rules each breaks.

ghost use Rattle.std.specs.Prelude.{◌≡◌, IfOk};
ghost use Rattle.bridge_grid.specs.Exactly.{AreExactly};
ghost use Rattle.bridge_grid.specs.Breaks.{TypeBreaks};
ghost use Rattle.bridge_grid.specs.Faults.{type_faults};
ghost use Rattle.bridge_grid.specs.ItemBreaks.{FreeFunctionBreaks, ReceiverBreaks, TraitBreaks, WriterBreaks};
ghost use Rattle.bridge_grid.specs.Items.{free_function_faults, receiver_faults, trait_faults, writer_faults};
ghost use Rattle.bridge_grid.specs.ParamBreaks.{CallbackParamBreaks, ParamBreaks};
ghost use Rattle.bridge_grid.specs.Params.{callback_param_faults, param_faults};
ghost use Rattle.bridge_grid.specs.ReturnBreaks.{ReturnBreaks};
ghost use Rattle.bridge_grid.specs.Returns.{returned_faults};

use crate::fault::TypeFaults;
use crate::items::{free_function_faults, receiver_faults, trait_faults, writer_faults};
use crate::params::{callback_param_faults, param_faults};
use crate::part::Part;
use crate::returns::returned_faults;
use crate::types::type_faults;
use bridge_ast::ItemPlace;
use bridge_decl::{Mutability, NoMemory, WriteType};
use bridge_rules::{Catalog, Position};
use hir_backends::BackendAttrSupport;
use hir_config::LoweringConfig;
use hir_life::{Lifetime, MaybeStatic};
use hir_number::NumberedType;
use std::alloc::Global;

/// The rules that a type breaks that stands at a position as a whole, as that of a field does, in
/// order. `NoMemory` where there is no memory for the list.
pub fn test_type(
    alloc: Global,
    support: &BackendAttrSupport,
    catalog: &Catalog,
    at: Position,
    ty: &NumberedType,
) -> Result<TypeFaults, NoMemory>
    ensures exact { IfOk result
        (λ faults. faults ≡ type_faults support.now catalog.now at Part.Whole ty.now) }
    ensures rules { IfOk result (λ faults. AreExactly faults
        (TypeBreaks support.now catalog.now at Part.Whole ty.now)) }
{
    type_faults(alloc, support, catalog, at, Part::Whole, ty)
}

/// The rules that what is returned breaks, in order: by a method or a function, at
/// `Position::Return`, or by a callback or a trait's method, at `Position::CallbackReturn`.
/// `NoMemory` where there is no memory for the list.
pub fn test_return(
    alloc: Global,
    support: &BackendAttrSupport,
    catalog: &Catalog,
    at: Position,
    ty: &NumberedType,
) -> Result<TypeFaults, NoMemory>
    ensures exact { IfOk result
        (λ faults. faults ≡ returned_faults support.now catalog.now at ty.now) }
    ensures rules { IfOk result (λ faults. AreExactly faults
        (ReturnBreaks support.now catalog.now at ty.now)) }
{
    returned_faults(alloc, support, catalog, at, ty)
}

/// The rules that a parameter of a callback or of a trait's method breaks, in order. `NoMemory`
/// where there is no memory for the list.
pub fn test_callback_param(
    alloc: Global,
    support: &BackendAttrSupport,
    config: LoweringConfig,
    catalog: &Catalog,
    ty: &NumberedType,
) -> Result<TypeFaults, NoMemory>
    ensures exact { IfOk result
        (λ faults. faults ≡ callback_param_faults support.now config catalog.now ty.now) }
    ensures rules { IfOk result (λ faults. AreExactly faults
        (CallbackParamBreaks support.now config catalog.now ty.now)) }
{
    callback_param_faults(alloc, support, config, catalog, ty)
}

/// The rules that a parameter of a method or a function breaks, in order. Those that the parameters
/// and the return of a callback break are its own. `NoMemory` where there is no memory for the list.
pub fn test_param(
    alloc: Global,
    support: &BackendAttrSupport,
    config: LoweringConfig,
    catalog: &Catalog,
    ty: &NumberedType,
) -> Result<TypeFaults, NoMemory>
    ensures exact { IfOk result
        (λ faults. faults ≡ param_faults support.now config catalog.now ty.now) }
    ensures rules { IfOk result (λ faults. AreExactly faults
        (ParamBreaks support.now config catalog.now ty.now)) }
{
    param_faults(alloc, support, config, catalog, ty)
}

/// The rules that a receiver breaks, in order: `self` of the type that stands at a place, or a
/// reference to it. `NoMemory` where there is no memory for the list.
pub fn test_receiver(
    alloc: Global,
    support: &BackendAttrSupport,
    catalog: &Catalog,
    borrow: Option<(MaybeStatic<Lifetime>, Mutability)>,
    place: ItemPlace,
) -> Result<TypeFaults, NoMemory>
    ensures exact { IfOk result
        (λ faults. faults ≡ receiver_faults support.now catalog.now borrow place) }
    ensures rules { IfOk result (λ faults. AreExactly faults
        (ReceiverBreaks support.now catalog.now borrow place)) }
{
    receiver_faults(alloc, support, catalog, borrow, place)
}

/// The rules that the trailing writer of a method or a function breaks, in order. `NoMemory` where
/// there is no memory for the list.
pub fn test_writer(
    alloc: Global,
    support: &BackendAttrSupport,
    writer: WriteType,
) -> Result<TypeFaults, NoMemory>
    ensures exact { IfOk result
        (λ faults. faults ≡ writer_faults support.now writer) }
    ensures rules { IfOk result (λ faults. AreExactly faults
        (WriterBreaks support.now writer)) }
{
    writer_faults(alloc, support, writer)
}

/// The rules that a trait breaks by being `Send` or `Sync`, in order. `NoMemory` where there is no
/// memory for the list.
pub fn test_trait(
    alloc: Global,
    support: &BackendAttrSupport,
    is_send: bool,
    is_sync: bool,
) -> Result<TypeFaults, NoMemory>
    ensures exact { IfOk result
        (λ faults. faults ≡ trait_faults support.now is_send is_sync) }
    ensures rules { IfOk result (λ faults. AreExactly faults
        (TraitBreaks support.now is_send is_sync)) }
{
    trait_faults(alloc, support, is_send, is_sync)
}

/// The rules that a function breaks by standing outside types. `NoMemory` where there is no memory
/// for the list.
pub fn test_free_function(
    alloc: Global,
    support: &BackendAttrSupport,
) -> Result<TypeFaults, NoMemory>
    ensures exact { IfOk result
        (λ faults. faults ≡ free_function_faults support.now) }
    ensures rules { IfOk result (λ faults. AreExactly faults
        (FreeFunctionBreaks support.now)) }
{
    free_function_faults(alloc, support)
}

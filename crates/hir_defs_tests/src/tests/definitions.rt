//! What is asked of definitions and methods.

use crate::tests::made::{
    enumeration, function, input_struct, lifetime, opaque, out_struct, shared, struct_path,
};
use bridge_decl::{IdentBuf, Items, Mutability};
use hir_attrs::{Attrs, DefaultArgValue};
use hir_definitions::{Method, Param, ParamSelf, TypeDef};
use hir_ids::{Borrow, EnumId, MaybeOwn, NonOptional, OpaqueId};
use hir_life::{LifetimeEnv, Lifetimes};
use hir_types::{EnumPath, HirType, OpaquePath, SelfType};
use std::alloc::Global;
use std::process::Abort;
use std::test::Fail;

/// `&'0 mut T`.
fn exclusive() -> Borrow {
    Borrow {
        mutability: Mutability::Mutable,
        ..shared(0)
    }
}

/// Whether a method may write through this receiver.
fn may_write(alloc: Global, ty: SelfType) -> bool {
    let attrs = Attrs::empty(alloc);
    ParamSelf { ty, attrs }.get_mutability().is_mutable()
}

/// An opaque so borrowed.
fn page(alloc: Global, owner: Borrow) -> SelfType {
    SelfType::Opaque(OpaquePath {
        lifetimes: Lifetimes::new(alloc),
        optional: NonOptional,
        owner,
        tcx_id: OpaqueId::new(0),
    })
}

/// A struct so held.
fn line(alloc: Global, owner: MaybeOwn) -> Result<SelfType, Fail> {
    Ok(SelfType::Struct(struct_path(alloc, 0, &[], owner)?))
}

/// Whether a method may write through an opaque so borrowed.
fn may_write_page(alloc: Global, owner: Borrow) -> bool {
    may_write(alloc, page(alloc, owner))
}

/// Whether a method may write through a struct so held.
fn may_write_line(alloc: Global, owner: MaybeOwn) -> Result<bool, Fail> {
    let receiver = line(alloc, owner)?;
    Ok(may_write(alloc, receiver))
}

#[test]
fn what_may_be_written_is_held_so(rt: HostRuntime) -> Result<(), Fail> {
    let alloc = rt.alloc();
    assert!(rt; may_write_line(alloc, MaybeOwn::Own)?);
    assert!(rt; !may_write_line(alloc, MaybeOwn::Borrow(shared(0)))?);
    assert!(rt; may_write_line(alloc, MaybeOwn::Borrow(exclusive()))?);
    Ok(())
}

#[test]
fn opaques_are_written_through_their_borrow(rt: HostRuntime) {
    let alloc = rt.alloc();
    assert!(rt; !may_write_page(alloc, shared(0)));
    assert!(rt; may_write_page(alloc, exclusive()));
}

#[test]
fn enums_are_not_written(rt: HostRuntime) {
    let color = SelfType::Enum(EnumPath {
        tcx_id: EnumId::new(0),
    });
    assert!(rt; !may_write(rt.alloc(), color));
}

/// A parameter whose mark gives it this value.
fn param(alloc: Global, name: IdentBuf, value: Option<i128>) -> Param {
    let mut attrs = Attrs::empty(alloc);
    attrs.default_value = value.map(DefaultArgValue::Integer);
    let ty = HirType::Enum(EnumPath {
        tcx_id: EnumId::new(0),
    });
    Param { name, ty, attrs }
}

/// The number that stands for a parameter that isn't passed.
fn number_of(param: &Param) -> Option<i128> {
    match param.default_value() {
        Some(DefaultArgValue::Integer(number)) => Some(*number),
        _ => None,
    }
}

/// The number that stands for a parameter whose mark gives it this value.
fn number_given(alloc: Global, value: Option<i128>) -> Result<Option<i128>, Fail> {
    let name = IdentBuf::new(alloc, "depth")?;
    let made = param(alloc, name, value);
    let number = number_of(&made);
    drop(made);
    Ok(number)
}

#[test]
fn a_parameter_may_have_a_value(rt: HostRuntime) -> Result<(), Fail> {
    assert!(rt; number_given(rt.alloc(), None)? == None);
    assert!(rt; number_given(rt.alloc(), Some(7))? == Some(7));
    Ok(())
}

/// Whether these are three lifetimes, each with the number of its place.
fn are_three(all: &Lifetimes) -> bool {
    for (number, found) in all.as_slice().iter().enumerate() {
        if *found != lifetime(number) {
            return false;
        }
    }
    all.len() == 3
}

/// Compares all lifetimes of a method that has three.
fn compare_lifetimes(rt: &impl Abort, alloc: Global, method: &Method) -> Result<(), Fail> {
    let all = method.method_lifetimes(alloc)?;
    assert!(rt; are_three(&all));
    Ok(())
}

#[test]
fn a_method_has_all_its_lifetimes(rt: HostRuntime) -> Result<(), Fail> {
    let alloc = rt.alloc();
    let mut method = function(alloc, "find")?;
    method.lifetime_env = LifetimeEnv::new(Items::new(alloc), 3);
    let compared = compare_lifetimes(&rt, alloc, &method);
    drop(method);
    compared
}

/// Whether what is asked of a type is as its name says, and as something iterates over it or not.
fn is_so(def: TypeDef<'_>, name: &str, iterable: bool) -> bool {
    def.name().as_str() == name
        && def.docs().is_empty()
        && def.methods().len() == 0
        && !def.attrs().disable
        && def.special_method_presence().iterable.is_some() == iterable
}

/// Compares what is asked of a type with its name, and with whether something iterates over it.
fn compare(rt: &impl Abort, def: TypeDef<'_>, name: &str, iterable: bool) {
    assert!(rt; is_so(def, name, iterable));
}

#[test]
fn structs_are_asked_as_types(rt: HostRuntime) -> Result<(), Fail> {
    let def = input_struct(rt.alloc(), "Line", 0, &[])?;
    compare(&rt, TypeDef::Struct(&def), "Line", false);
    drop(def);
    Ok(())
}

#[test]
fn out_structs_are_asked_as_types(rt: HostRuntime) -> Result<(), Fail> {
    let def = out_struct(rt.alloc(), "Found", 0)?;
    compare(&rt, TypeDef::OutStruct(&def), "Found", false);
    drop(def);
    Ok(())
}

#[test]
fn opaques_are_asked_as_types(rt: HostRuntime) -> Result<(), Fail> {
    let def = opaque(rt.alloc(), "Page", 0, Some(4))?;
    compare(&rt, TypeDef::from(&def), "Page", true);
    drop(def);
    Ok(())
}

#[test]
fn enums_are_asked_as_types(rt: HostRuntime) -> Result<(), Fail> {
    let def = enumeration(rt.alloc(), "Color")?;
    compare(&rt, TypeDef::from(&def), "Color", false);
    drop(def);
    Ok(())
}

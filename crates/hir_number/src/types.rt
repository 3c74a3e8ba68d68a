//! NumberLists of the lifetimes of a type.

ghost use Rattle.std.specs.Prelude.{◌<◌, length};
ghost use Rattle.hir_elide.specs.Occurrences.{Signature};
ghost use Rattle.hir_number.specs.Naming.{IsNaming, Naming};
ghost use Rattle.hir_number.specs.inside.Threads.{Meets, each_run, type_run};

use crate::fault::NumberFault;
use crate::generics::{number_borrow, number_lifetime, number_optional, number_path, number_trait};
use crate::numbered::NumberedType;
use bridge_ast::Env;
use bridge_decl::{Boxed, Items, TypeName};
use hir_elide::LifetimeLowerer;
use std::alloc::Global;

/// A type that is written in the module of a number.
#[cycle(types)]
pub fn number_type<L: LifetimeLowerer>(
    alloc: Global,
    env: &Env,
    number: usize,
    lowerer: &mut L,
    ty: &TypeName,
) -> Result<NumberedType, NumberFault>
    requires { number < length env.now }
    ensures { (names : Naming) (s : Signature) → IsNaming env.now number names
        → L.stands lowerer.old s
        → Meets (L.stands lowerer.new) result (type_run L.phase names ty.now s) }
{
    match ty {
        TypeName::Primitive(primitive) => Ok(NumberedType::Primitive(*primitive)),
        TypeName::Ordering => Ok(NumberedType::Ordering),
        TypeName::Named(path) => {
            let target = number_path(alloc, env, number, lowerer, path, false)?;
            Ok(NumberedType::Named(target))
        }
        TypeName::SelfType(path) => {
            let target = number_path(alloc, env, number, lowerer, path, true)?;
            Ok(NumberedType::SelfType(target))
        }
        TypeName::ImplTrait(path) => {
            let target = number_trait(alloc, env, number, lowerer, path, false)?;
            Ok(NumberedType::ImplTrait(target))
        }
        TypeName::Reference(lifetime, mutability, inner) => {
            let borrow = number_lifetime(lowerer, lifetime)?;
            let inner = number_boxed(alloc, env, number, lowerer, inner)?;
            Ok(NumberedType::Reference(borrow, *mutability, inner))
        }
        TypeName::Box(inner) => {
            let inner = number_boxed(alloc, env, number, lowerer, inner)?;
            Ok(NumberedType::Box(inner))
        }
        TypeName::Option(inner, spelling) => {
            let inner = number_boxed(alloc, env, number, lowerer, inner)?;
            Ok(NumberedType::Option(inner, *spelling))
        }
        TypeName::Result(ok, err, spelling) => {
            let ok = number_boxed(alloc, env, number, lowerer, ok)?;
            let err = number_boxed(alloc, env, number, lowerer, err)?;
            Ok(NumberedType::Result(ok, err, *spelling))
        }
        TypeName::Write(target) => Ok(NumberedType::Write(*target)),
        TypeName::StrReference(lifetime, encoding, spelling) => {
            let lifetime = number_optional(lowerer, lifetime)?;
            Ok(NumberedType::StrReference(lifetime, *encoding, *spelling))
        }
        TypeName::StrSlice(encoding, spelling) => {
            Ok(NumberedType::StrSlice(*encoding, *spelling))
        }
        TypeName::PrimitiveSlice(borrow, primitive, spelling) => {
            let borrow = number_borrow(lowerer, borrow)?;
            Ok(NumberedType::PrimitiveSlice(borrow, *primitive, *spelling))
        }
        TypeName::CustomTypeSlice(borrow, element, spelling) => {
            let borrow = number_borrow(lowerer, borrow)?;
            let element = number_boxed(alloc, env, number, lowerer, element)?;
            Ok(NumberedType::CustomTypeSlice(borrow, element, *spelling))
        }
        TypeName::Function(inputs, output, mutability) => {
            let inputs = number_each(alloc, env, number, lowerer, inputs)?;
            let output = number_boxed(alloc, env, number, lowerer, output)?;
            Ok(NumberedType::Function(inputs, output, *mutability))
        }
        TypeName::Unit => Ok(NumberedType::Unit),
    }
}

#[cycle(types)]
fn number_boxed<L: LifetimeLowerer>(
    alloc: Global,
    env: &Env,
    number: usize,
    lowerer: &mut L,
    ty: &Boxed<TypeName>,
) -> Result<Boxed<NumberedType>, NumberFault>
    requires { number < length env.now }
    ensures { (names : Naming) (s : Signature) → IsNaming env.now number names
        → L.stands lowerer.old s
        → Meets (L.stands lowerer.new) result (type_run L.phase names ty.now s) }
{
    let numbered = number_type(alloc, env, number, lowerer, ty.get())?;
    Ok(Boxed::new(alloc, numbered)?)
}

#[cycle(types)]
fn number_each<L: LifetimeLowerer>(
    alloc: Global,
    env: &Env,
    number: usize,
    lowerer: &mut L,
    types: &Items<TypeName>,
) -> Result<Items<NumberedType>, NumberFault>
    requires { number < length env.now }
    ensures { (names : Naming) (s : Signature) → IsNaming env.now number names
        → L.stands lowerer.old s
        → Meets (L.stands lowerer.new) result (each_run L.phase names types.now s) }
{
    let mut numbered = Items::new(alloc);
    for ty in types.as_slice() {
        numbered.push(number_type(alloc, env, number, lowerer, ty)?)?;
    }
    Ok(numbered)
}

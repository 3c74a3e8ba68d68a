//! The uses of lifetimes and paths in a type, as a flat list.

ghost use Rattle.std.specs.Prelude.{◌≡◌, ◌<◌, ◌++◌, ◌∷◌, [], length, map, OnOk};
ghost use Rattle.std.specs.Option.{option_copied};
ghost use Rattle.hir_number.specs.Naming.{IsNaming, Naming};
ghost use Rattle.hir_number.specs.Uses.{borrow_uses, concatenated, optional_uses, trait_use, type_use, type_uses};
ghost use Rattle.hir_number_slow.specs.Seen.{use_seen};

use crate::finding::{find_trait, find_type};
use crate::uses::Use;
use bridge_ast::Env;
use bridge_decl::{Boxed, Items, Lifetime, Mutability, PathType, TypeName};
use std::alloc::AllocError;

/// The borrow of a slice or of a receiver.
pub fn push_borrow<'m>(
    uses: &mut Vec<Use<'m>>,
    borrow: Option<&'m (Lifetime, Mutability)>,
) -> Result<(), AllocError>
    ensures { OnOk result (map use_seen uses.new.items
        ≡ map use_seen uses.old.items ++ borrow_uses (option_copied borrow.entry)) }
{
    match borrow {
        Some((lifetime, _)) => uses.push(Use::One(lifetime))?,
        None => {}
    }
    Ok(())
}

/// The lifetime of a string slice.
fn push_optional<'m>(
    uses: &mut Vec<Use<'m>>,
    lifetime: &'m Option<Lifetime>,
) -> Result<(), AllocError>
    ensures { OnOk result (map use_seen uses.new.items
        ≡ map use_seen uses.old.items ++ optional_uses lifetime.now) }
{
    match lifetime {
        Some(lifetime) => uses.push(Use::One(lifetime))?,
        None => {}
    }
    Ok(())
}

/// A path to a type, which may be that of `Self`.
pub fn push_path<'m>(
    uses: &mut Vec<Use<'m>>,
    env: &Env,
    number: usize,
    path: &'m PathType,
    is_self: bool,
) -> Result<(), AllocError>
    requires { number < length env.now }
    ensures { (names : Naming) → IsNaming env.now number names
        → OnOk result (map use_seen uses.new.items
        ≡ map use_seen uses.old.items ++ type_use names is_self path.now ∷ []) }
{
    uses.push(Use::Path(is_self, path, find_type(env, number, path)))?;
    Ok(())
}

/// A path to a trait, which may be that of a trait's receiver.
pub fn push_trait<'m>(
    uses: &mut Vec<Use<'m>>,
    env: &Env,
    number: usize,
    path: &'m PathType,
    is_self: bool,
) -> Result<(), AllocError>
    requires { number < length env.now }
    ensures { (names : Naming) → IsNaming env.now number names
        → OnOk result (map use_seen uses.new.items
        ≡ map use_seen uses.old.items ++ trait_use names is_self path.now ∷ []) }
{
    uses.push(Use::Path(is_self, path, find_trait(env, number, path)))?;
    Ok(())
}

/// Those of a type, the outer before the inner.
#[cycle(flat)]
pub fn push_type<'m>(
    uses: &mut Vec<Use<'m>>,
    env: &Env,
    number: usize,
    ty: &'m TypeName,
) -> Result<(), AllocError>
    requires { number < length env.now }
    ensures { (names : Naming) → IsNaming env.now number names
        → OnOk result (map use_seen uses.new.items
        ≡ map use_seen uses.old.items ++ type_uses names ty.now) }
{
    match ty {
        TypeName::Named(path) => push_path(uses, env, number, path, false),
        TypeName::SelfType(path) => push_path(uses, env, number, path, true),
        TypeName::ImplTrait(path) => push_trait(uses, env, number, path, false),
        TypeName::Reference(lifetime, _, inner) => {
            uses.push(Use::One(lifetime))?;
            push_type(uses, env, number, inner.get())
        }
        TypeName::Box(inner) => push_type(uses, env, number, inner.get()),
        TypeName::Option(inner, _) => push_type(uses, env, number, inner.get()),
        TypeName::Result(ok, err, _) => {
            push_type(uses, env, number, ok.get())?;
            push_type(uses, env, number, err.get())
        }
        TypeName::StrReference(lifetime, _, _) => push_optional(uses, lifetime),
        TypeName::PrimitiveSlice(borrow, _, _) => push_borrow(uses, borrow.as_ref()),
        TypeName::CustomTypeSlice(borrow, element, _) => {
            push_borrow(uses, borrow.as_ref())?;
            push_type(uses, env, number, element.get())
        }
        TypeName::Function(inputs, output, _) => {
            push_each(uses, env, number, inputs)?;
            push_type(uses, env, number, output.get())
        }
        TypeName::Primitive(_)
        | TypeName::Ordering
        | TypeName::Write(_)
        | TypeName::StrSlice(_, _)
        | TypeName::Unit => Ok(()),
    }
}

/// Those of the parameters of a callback.
#[cycle(flat)]
fn push_each<'m>(
    uses: &mut Vec<Use<'m>>,
    env: &Env,
    number: usize,
    types: &'m Items<TypeName>,
) -> Result<(), AllocError>
    requires { number < length env.now }
    ensures { (names : Naming) → IsNaming env.now number names
        → OnOk result (map use_seen uses.new.items
        ≡ map use_seen uses.old.items ++ concatenated (map (type_uses names) types.now)) }
{
    for ty in types.as_slice() {
        push_type(uses, env, number, ty)?;
    }
    Ok(())
}

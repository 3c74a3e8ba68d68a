//! Types with lifetimes other than `'static`.

ghost use Rattle.std.specs.Prelude.{◌≡◌, map};
ghost use Rattle.std.specs.List.{list_any};
ghost use Rattle.bridge_grid.specs.Carrying.{carries, is_bound, is_bound_optional, is_bound_borrow, is_slice};

use bridge_decl::{Boxed, Items, Mutability};
use hir_life::{Lifetime, Lifetimes, MaybeStatic};
use hir_number::NumberedType;

fn is_bound(lifetime: &MaybeStatic<Lifetime>) -> bool
    ensures { result ≡ is_bound lifetime.now }
{
    match lifetime {
        MaybeStatic::Static => false,
        MaybeStatic::NonStatic(_) => true,
    }
}

fn is_bound_optional(lifetime: &Option<MaybeStatic<Lifetime>>) -> bool
    ensures { result ≡ is_bound_optional lifetime.now }
{
    match lifetime {
        Some(lifetime) => is_bound(lifetime),
        None => false,
    }
}

fn is_bound_borrow(borrow: &Option<(MaybeStatic<Lifetime>, Mutability)>) -> bool
    ensures { result ≡ is_bound_borrow borrow.now }
{
    match borrow {
        Some((lifetime, _)) => is_bound(lifetime),
        None => false,
    }
}

fn has_bound(lifetimes: &Lifetimes) -> bool
    ensures { result ≡ list_any is_bound lifetimes.now }
{
    lifetimes
        .as_slice()
        .iter()
        .any(|lifetime| is_bound(lifetime))
}

/// Whether a type has a lifetime other than `'static`.
#[cycle(carrying)]
pub fn carries(ty: &NumberedType) -> bool
    ensures { result ≡ carries ty.now }
{
    match ty {
        NumberedType::Named(target) => has_bound(&target.lifetimes),
        NumberedType::SelfType(target) => has_bound(&target.lifetimes),
        NumberedType::ImplTrait(target) => has_bound(&target.lifetimes),
        NumberedType::Reference(lifetime, _, inner) => is_bound(lifetime) || carries_boxed(inner),
        NumberedType::Box(inner) => carries_boxed(inner),
        NumberedType::Option(inner, _) => carries_boxed(inner),
        NumberedType::Result(ok, err, _) => carries_boxed(ok) || carries_boxed(err),
        NumberedType::StrReference(lifetime, _, _) => is_bound_optional(lifetime),
        NumberedType::PrimitiveSlice(borrow, _, _) => is_bound_borrow(borrow),
        NumberedType::CustomTypeSlice(borrow, element, _) => {
            is_bound_borrow(borrow) || carries_boxed(element)
        }
        NumberedType::Function(inputs, output, _) => carries_any(inputs) || carries_boxed(output),
        NumberedType::Primitive(_)
        | NumberedType::Ordering
        | NumberedType::Write(_)
        | NumberedType::StrSlice(_, _)
        | NumberedType::Unit => false,
    }
}

#[cycle(carrying)]
fn carries_boxed(ty: &Boxed<NumberedType>) -> bool
    ensures { result ≡ carries ty.now }
{
    carries(ty.get())
}

#[cycle(carrying)]
fn carries_any(types: &Items<NumberedType>) -> bool
    ensures { result ≡ list_any (λ b. b) (map carries types.now) }
{
    let mut found = false;
    for ty in types.as_slice() {
        if carries(ty) {
            found = true;
        }
    }
    found
}

/// Whether a type is a slice.
pub fn is_slice(ty: &NumberedType) -> bool
    ensures { result ≡ is_slice ty.now }
{
    match ty {
        NumberedType::StrReference(_, _, _) => true,
        NumberedType::StrSlice(_, _) => true,
        NumberedType::PrimitiveSlice(_, _, _) => true,
        NumberedType::CustomTypeSlice(_, _, _) => true,
        _ => false,
    }
}

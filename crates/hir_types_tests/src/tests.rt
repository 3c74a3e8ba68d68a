//! Worked examples.

mod lifetimes;
mod paths;
mod positions;
mod queries;
mod receivers;
mod returns;
mod slices;

use bridge_decl::{Items, Mutability};
use hir_ids::{Borrow, EnumId, MaybeOwn, OpaqueId, Optional, OutStructId, StructId, TraitId};
use hir_life::{Lifetime, Lifetimes, MaybeStatic};
use hir_types::{
    Callback, CallbackParam, EnumPath, HirType, OpaquePath, OutStructPath, ReturnType, StructPath,
    SuccessType, TraitPath, TyPosition,
};
use std::alloc::Global;
use std::test::Fail;

/// The lifetime of that number; `'static` where there is none.
fn lifetime(number: Option<usize>) -> MaybeStatic<Lifetime> {
    match number {
        Some(number) => MaybeStatic::NonStatic(Lifetime::new(number)),
        None => MaybeStatic::Static,
    }
}

/// The lifetimes of these numbers.
fn lifetime_list(alloc: Global, numbers: &[Option<usize>]) -> Result<Lifetimes, Fail> {
    let mut list = Lifetimes::new(alloc);
    for number in numbers {
        list.push(lifetime(*number))?;
    }
    Ok(list)
}

/// `&'n T`.
fn shared(number: usize) -> Borrow {
    Borrow {
        lifetime: lifetime(Some(number)),
        mutability: Mutability::Immutable,
    }
}

/// `&'n mut T`.
fn exclusive(number: usize) -> Borrow {
    Borrow {
        lifetime: lifetime(Some(number)),
        mutability: Mutability::Mutable,
    }
}

/// How a thing may be held: owned or for `'0`, and whether that is by `&` and by `&mut`.
const HELD: [(Option<Mutability>, bool, bool); 3] = [
    (None, false, false),
    (Some(Mutability::Immutable), true, false),
    (Some(Mutability::Mutable), false, true),
];

/// What holds it so.
fn owner_of(borrowed: Option<Mutability>) -> MaybeOwn {
    match borrowed {
        None => MaybeOwn::Own,
        Some(mutability) => MaybeOwn::Borrow(Borrow {
            lifetime: lifetime(Some(0)),
            mutability,
        }),
    }
}

/// Whether the type has the lifetimes of these numbers, in their order and no others.
fn has_lifetimes<P: TyPosition>(ty: &HirType<P>, numbers: &[Option<usize>]) -> bool {
    let mut rest = numbers;
    for found in ty.lifetimes() {
        let Some((first, others)) = rest.split_first() else {
            return false;
        };
        if found != lifetime(*first) {
            return false;
        }
        rest = others;
    }
    rest.is_empty()
}

/// A path to the third opaque with these lifetimes.
fn opaque<Owner>(
    alloc: Global,
    numbers: &[Option<usize>],
    optional: bool,
    owner: Owner,
) -> Result<OpaquePath<Optional, Owner>, Fail>
where
    Owner: Drop,
{
    Ok(OpaquePath {
        lifetimes: lifetime_list(alloc, numbers)?,
        optional: Optional::new(optional),
        owner,
        tcx_id: OpaqueId::new(2),
    })
}

/// A path to the second struct with these lifetimes.
fn structure(
    alloc: Global,
    numbers: &[Option<usize>],
    owner: MaybeOwn,
) -> Result<StructPath, Fail> {
    Ok(StructPath {
        lifetimes: lifetime_list(alloc, numbers)?,
        tcx_id: StructId::new(1),
        owner,
    })
}

/// A path to the fourth out-struct with these lifetimes.
fn out_structure(alloc: Global, numbers: &[Option<usize>]) -> Result<OutStructPath, Fail> {
    Ok(OutStructPath {
        lifetimes: lifetime_list(alloc, numbers)?,
        tcx_id: OutStructId::new(3),
        owner: MaybeOwn::Own,
    })
}

/// A path to the first enum.
fn enumeration() -> EnumPath {
    EnumPath {
        tcx_id: EnumId::new(0),
    }
}

/// A path to the sixth trait.
fn trait_path(alloc: Global) -> TraitPath {
    TraitPath {
        lifetimes: Lifetimes::new(alloc),
        tcx_id: TraitId::new(5),
    }
}

/// A callback that takes and returns nothing.
fn callback(alloc: Global) -> Callback {
    let params: Items<CallbackParam> = Items::new(alloc);
    Callback {
        param_self: None,
        params,
        output: ReturnType::Nullable(SuccessType::Unit),
        name: None,
        attrs: None,
        docs: None,
    }
}

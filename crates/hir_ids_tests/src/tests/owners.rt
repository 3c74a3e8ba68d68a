//! Owned and borrowed.

use bridge_decl::Mutability;
use hir_ids::{Borrow, MaybeOwn, OpaqueOwner, Optional};
use hir_life::{Lifetime, MaybeStatic};

/// What is said of an owner in one line of the table.
#[derive(Clone, Copy)]
struct Row {
    owner: MaybeOwn,
    owned: bool,
    mutable: bool,
    lifetime: Option<MaybeStatic<Lifetime>>,
}

/// A borrow for the lifetime of that number, or for `'static` where there is none.
fn borrow(number: Option<usize>, mutability: Mutability) -> MaybeOwn {
    let lifetime = match number {
        Some(number) => MaybeStatic::NonStatic(Lifetime::new(number)),
        None => MaybeStatic::Static,
    };
    MaybeOwn::Borrow(Borrow {
        lifetime,
        mutability,
    })
}

/// What a caller that knows no more than the trait learns of an owner.
fn told<O: OpaqueOwner>(owner: &O) -> (bool, Option<bool>, Option<MaybeStatic<Lifetime>>) {
    let mutable = match owner.mutability() {
        Some(mutability) => Some(mutability.is_mutable()),
        None => None,
    };
    (owner.is_owned(), mutable, owner.lifetime())
}

#[test]
fn owners_tell_what_they_are(rt: HostRuntime) {
    let rows = [
        Row {
            owner: MaybeOwn::Own,
            owned: true,
            mutable: true,
            lifetime: None,
        },
        Row {
            owner: borrow(Some(3), Mutability::Immutable),
            owned: false,
            mutable: false,
            lifetime: Some(MaybeStatic::NonStatic(Lifetime::new(3))),
        },
        Row {
            owner: borrow(None, Mutability::Mutable),
            owned: false,
            mutable: true,
            lifetime: Some(MaybeStatic::Static),
        },
    ];
    for row in &rows {
        assert!(rt; MaybeOwn::is_owned(&row.owner) == row.owned);
        assert!(rt; MaybeOwn::mutability(&row.owner).is_mutable() == row.mutable);
        let (owned, mutable, lifetime) = told(&row.owner);
        assert!(rt; owned == row.owned);
        assert!(rt; mutable.is_none() == row.owned);
        assert!(rt; mutable.unwrap_or(true) == row.mutable);
        assert!(rt; lifetime == row.lifetime);
        let Some(borrow) = row.owner.as_borrowed() else {
            assert!(rt; row.owned);
            continue;
        };
        assert!(rt; told(borrow).2 == row.lifetime);
        assert!(rt; !MaybeOwn::is_owned(&MaybeOwn::from(Some(*borrow))));
    }
    assert!(rt; MaybeOwn::is_owned(&MaybeOwn::from(None)));
}

#[test]
fn a_marker_says_what_it_was_made_of(rt: HostRuntime) {
    for optional in [true, false] {
        assert!(rt; Optional::new(optional).get() == optional);
    }
}

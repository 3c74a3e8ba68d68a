//! Slices.

ghost use Rattle.std.specs.Prelude.{◌≡◌, option_copied};
ghost use Rattle.hir_types.specs.Slices.{lifetime_of, slice_lifetime, slice_lifetimes};

use crate::iterating::TypeLifetimes;
use crate::paths::{EnumPath, OpaquePath, StructPathLike};
use crate::positions::TyPosition;
use bridge_decl::StringEncoding;
use hir_ids::{Borrow, MaybeOwn, Optional, PrimitiveType};
use hir_life::{Lifetime, MaybeStatic};

/// A slice at a position.
pub enum Slice<P: TyPosition> {
    /// A text, as `&str`; owned where it has no lifetime.
    Str(Option<MaybeStatic<Lifetime>>, StringEncoding),
    /// Primitives, as `&[u8]`.
    Primitive(MaybeOwn, PrimitiveType),
    /// A list of texts, as `&[DiplomatStrSlice]`.
    Strs(StringEncoding),
    /// Structs by value, as `&[Point]`.
    Struct(MaybeOwn, P::StructPath),
    /// Enums, as `&[Color]`.
    Enum(MaybeOwn, EnumPath),
    /// Borrowed opaques, as `&[&Page]` or `&[Option<&Page>]`.
    Opaque(MaybeOwn, OpaquePath<Optional, Borrow>),
}

/// By hand, so that where one is let go the proof has one call.
impl<P: TyPosition + Drop> Drop for Slice<P> {
    fn drop(self) {
        match self {
            Slice::Str(_, _)
            | Slice::Primitive(_, _)
            | Slice::Strs(_)
            | Slice::Struct(_, _)
            | Slice::Enum(_, _)
            | Slice::Opaque(_, _) => (),
        }
    }
}

impl<P: TyPosition> Slice<P> {
    /// The lifetime of the slice, where it is borrowed: none of a list of texts. An owned slice of
    /// opaques has the lifetime of these.
    pub fn lifetime(&self) -> Option<&MaybeStatic<Lifetime>>
        ensures { option_copied result ≡ slice_lifetime self.now }
    {
        match self {
            Slice::Str(lifetime, _) => lifetime.as_ref(),
            Slice::Primitive(owner, _) => lifetime_of(owner),
            Slice::Strs(_) => None,
            Slice::Struct(owner, _) => lifetime_of(owner),
            Slice::Enum(owner, _) => lifetime_of(owner),
            Slice::Opaque(MaybeOwn::Borrow(borrow), _) => Some(&borrow.lifetime),
            Slice::Opaque(MaybeOwn::Own, path) => Some(&path.owner.lifetime),
        }
    }

    /// All lifetimes of the slice: those that its elements give their definition, that of the
    /// elements where they are borrowed, and its own.
    pub(crate) fn lifetimes(&self) -> TypeLifetimes<'_>
        ensures { result
            ≡ slice_lifetimes P.StructPath.lifetimes_of P.StructPath.held_of self.now }
    {
        match self {
            Slice::Str(lifetime, _) => TypeLifetimes::new(&[], None, *lifetime),
            Slice::Primitive(owner, _) => TypeLifetimes::new(&[], None, lifetime_in(owner)),
            Slice::Strs(_) => TypeLifetimes::new(&[], None, None),
            Slice::Struct(owner, path) => TypeLifetimes::new(
                path.lifetimes().as_slice(),
                lifetime_in(&path.owner()),
                lifetime_in(owner),
            ),
            Slice::Enum(owner, _) => TypeLifetimes::new(&[], None, lifetime_in(owner)),
            Slice::Opaque(owner, path) => TypeLifetimes::new(
                path.lifetimes.as_slice(),
                Some(path.owner.lifetime),
                lifetime_in(owner),
            ),
        }
    }
}

/// The lifetime of what is borrowed.
fn lifetime_of(owner: &MaybeOwn) -> Option<&MaybeStatic<Lifetime>>
    ensures { option_copied result ≡ lifetime_of owner.now }
{
    match owner {
        MaybeOwn::Own => None,
        MaybeOwn::Borrow(borrow) => Some(&borrow.lifetime),
    }
}

/// The lifetime of what is borrowed, as a copy.
fn lifetime_in(owner: &MaybeOwn) -> Option<MaybeStatic<Lifetime>>
    ensures { result ≡ lifetime_of owner.now }
{
    match owner {
        MaybeOwn::Own => None,
        MaybeOwn::Borrow(borrow) => Some(borrow.lifetime),
    }
}

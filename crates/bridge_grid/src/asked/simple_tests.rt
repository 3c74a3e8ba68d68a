//! Tests of what a shape carries.

ghost use Rattle.std.specs.Prelude.{◌≡◌};
ghost use Rattle.bridge_grid.specs.Asked.{is_byte, is_diplomat, is_error, is_fixed, is_fixed_slice, is_mutable, is_static, is_whole};

use crate::part::Part;
use bridge_decl::{Mutability, PrimitiveType, StdlibOrDiplomat};
use hir_ids::Borrow;
use hir_life::{Lifetime, MaybeStatic};

pub fn is_mutable(mutability: Mutability) -> bool
    ensures { result ≡ is_mutable mutability }
{
    match mutability {
        Mutability::Mutable => true,
        Mutability::Immutable => false,
    }
}

pub fn is_static(lifetime: MaybeStatic<Lifetime>) -> bool
    ensures { result ≡ is_static lifetime }
{
    match lifetime {
        MaybeStatic::Static => true,
        MaybeStatic::NonStatic(_) => false,
    }
}

pub fn is_diplomat(spelling: StdlibOrDiplomat) -> bool
    ensures { result ≡ is_diplomat spelling }
{
    match spelling {
        StdlibOrDiplomat::Diplomat => true,
        StdlibOrDiplomat::Stdlib => false,
    }
}

pub fn is_byte(primitive: PrimitiveType) -> bool
    ensures { result ≡ is_byte primitive }
{
    match primitive {
        PrimitiveType::u8 | PrimitiveType::byte => true,
        _ => false,
    }
}

pub fn is_whole(part: Part) -> bool
    ensures { result ≡ is_whole part }
{
    match part {
        Part::Whole => true,
        Part::Inside | Part::Error => false,
    }
}

pub fn is_error(part: Part) -> bool
    ensures { result ≡ is_error part }
{
    match part {
        Part::Error => true,
        Part::Whole | Part::Inside => false,
    }
}

/// Whether a borrow is mutable or for `'static`.
pub fn is_fixed(borrow: Borrow) -> bool
    ensures { result ≡ is_fixed borrow }
{
    is_mutable(borrow.mutability) || is_static(borrow.lifetime)
}

pub fn is_fixed_slice(borrow: Option<Borrow>) -> bool
    ensures { result ≡ is_fixed_slice borrow }
{
    match borrow {
        Some(borrow) => is_fixed(borrow),
        None => false,
    }
}

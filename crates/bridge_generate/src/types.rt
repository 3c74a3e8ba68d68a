//! The types of fields, parameters and returns.

ghost use Rattle.std.specs.Prelude.{◌≡◌, IfOk};
ghost use Rattle.bridge_generate.specs.Generated.{opaque_borrowed_for, path_to_opaque, struct_by_value};

use crate::names::struct_name;
use crate::parts::one;
use bridge_ast::{Boxed, Items, Lifetime, Mutability, NoMemory, PathType, Text, TypeName};
use std::alloc::Global;

/// `O`.
fn path_to_opaque(alloc: Global) -> Result<PathType, NoMemory>
    ensures { IfOk result (λ path. path ≡ path_to_opaque) }
{
    Ok(PathType {
        segments: one(alloc, Text::new(alloc, "O")?)?,
        lifetimes: Items::new(alloc),
    })
}

/// `&'a O`, for the lifetime of that name.
pub fn opaque_borrowed_for(alloc: Global, lifetime: &str) -> Result<TypeName, NoMemory>
    ensures { IfOk result (λ ty. ty ≡ opaque_borrowed_for lifetime.now) }
{
    let lifetime = Lifetime::Named(Text::new(alloc, lifetime)?);
    let to = Boxed::new(alloc, TypeName::Named(path_to_opaque(alloc)?))?;
    Ok(TypeName::Reference(lifetime, Mutability::Immutable, to))
}

/// `S7<'a>`, by the struct's number.
pub fn struct_by_value(alloc: Global, number: usize) -> Result<TypeName, NoMemory>
    ensures { IfOk result (λ ty. ty ≡ struct_by_value number) }
{
    let segments = one(alloc, struct_name(alloc, number)?)?;
    let lifetimes = one(alloc, Lifetime::Named(Text::new(alloc, "a")?))?;
    Ok(TypeName::Named(PathType {
        segments,
        lifetimes,
    }))
}

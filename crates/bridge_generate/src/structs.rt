//! Structs.

ghost use Rattle.std.specs.Prelude.{◌≡◌, ◌++◌, codes, IfOk, OnOk};
ghost use Rattle.bridge_generate.specs.Generated.{fields_of, one_lifetime, opaque_borrowed_for, plain_field, struct_by_value, struct_numbered, structs_below};

use crate::names::struct_name;
use crate::parts::{one, plain_attrs, plain_docs};
use crate::types::{opaque_borrowed_for, struct_by_value};
use bridge_ast::{Field, Item, Items, LifetimeEnv, LifetimeNode, NoMemory, Struct, Text, TypeName};
use std::alloc::Global;

/// `<'a>`.
fn one_lifetime(alloc: Global) -> Result<LifetimeEnv, NoMemory>
    ensures { IfOk result (λ lifetimes. lifetimes ≡ one_lifetime) }
{
    let node = LifetimeNode {
        name: Text::new(alloc, "a")?,
        longer: Items::new(alloc),
        shorter: Items::new(alloc),
    };
    Ok(LifetimeEnv {
        nodes: one(alloc, node)?,
    })
}

/// A field of the name and the type.
fn plain_field(alloc: Global, name: Text, ty: TypeName) -> Field
    ensures { result ≡ plain_field name ty }
{
    Field {
        name,
        ty,
        docs: plain_docs(alloc),
        attrs: plain_attrs(alloc),
    }
}

/// `x: &'a O`.
fn opaque_field(alloc: Global) -> Result<Field, NoMemory>
    ensures { IfOk result
        (λ it. it ≡ plain_field (codes "x") (opaque_borrowed_for (codes "a"))) }
{
    let name = Text::new(alloc, "x")?;
    let ty = opaque_borrowed_for(alloc, "a")?;
    Ok(plain_field(alloc, name, ty))
}

/// `s: S7<'a>`, by the struct's number.
fn struct_field(alloc: Global, number: usize) -> Result<Field, NoMemory>
    ensures { IfOk result (λ it. it ≡ plain_field (codes "s") (struct_by_value number)) }
{
    let name = Text::new(alloc, "s")?;
    let ty = struct_by_value(alloc, number)?;
    Ok(plain_field(alloc, name, ty))
}

/// The fields of the struct of a number.
fn fields_of(alloc: Global, number: usize) -> Result<Items<Field>, NoMemory>
    ensures { IfOk result (λ fields. fields ≡ fields_of number) }
{
    let mut fields = one(alloc, opaque_field(alloc)?)?;
    if number % 8 != 0 {
        fields.push(struct_field(alloc, number - 1)?)?;
    }
    Ok(fields)
}

/// The struct of a number.
fn struct_numbered(alloc: Global, number: usize) -> Result<Struct, NoMemory>
    ensures { IfOk result (λ it. it ≡ struct_numbered number) }
{
    let name = struct_name(alloc, number)?;
    let lifetimes = one_lifetime(alloc)?;
    let fields = fields_of(alloc, number)?;
    Ok(Struct {
        name,
        lifetimes,
        fields,
        methods: Items::new(alloc),
        output_only: false,
        docs: plain_docs(alloc),
        attrs: plain_attrs(alloc),
    })
}

/// Adds so many structs, by their numbers from 0.
#[tactic(auto, unfolding(crate::specs::Generated::structs_below))]
pub fn add_structs(alloc: Global, items: &mut Items<Item>, count: usize) -> Result<(), NoMemory>
    ensures { OnOk result (items.new ≡ items.old ++ structs_below count) }
{
    for number in 0..count {
        items.push(Item::Struct(struct_numbered(alloc, number)?))?;
    }
    Ok(())
}

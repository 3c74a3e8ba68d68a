//! Definitions with nothing in them but what a test is about.

ghost use Rattle.std.specs.Prelude.{◌≡◌, IfOk};

use bridge_decl::{Boxed, IdentBuf, Items, Mutability, Text};
use hir_attrs::Attrs;
use hir_context::{ContextParts, Placed};
use hir_definitions::{
    EnumDef, Method, OpaqueDef, OutStructDef, SpecialMethodPresence, StructDef, StructField,
    TraitDef, TypingUseInfo,
};
use hir_docs::Docs;
use hir_ids::{Borrow, Ident, MaybeOwn, OpaqueId, Optional, StructId};
use hir_life::{Lifetime, LifetimeEnv, Lifetimes, MaybeStatic};
use hir_types::{
    Everywhere, HirType, OpaquePath, ReturnType, Slice, StructPath, SuccessType, TyPosition,
};
use std::alloc::Global;
use std::test::Fail;

/// What a field holds: a definition by its id, with the numbers of the lifetimes that it is given.
#[derive(Drop)]
pub enum Of {
    /// `&'0 Opaque<..>`.
    Opaque(usize, &'static [usize]),
    /// The struct itself.
    Struct(usize, &'static [usize]),
    /// `&'0 Struct`.
    Lent(usize, &'static [usize]),
    /// `DiplomatOption<Struct>`.
    Optional(usize, &'static [usize]),
    /// `&'0 [Struct]`.
    Listed(usize, &'static [usize]),
}

/// How many lifetimes a struct has, and what its fields hold.
pub type Made = (usize, &'static [Of]);

/// The lifetime of this number.
pub fn lifetime(number: usize) -> MaybeStatic<Lifetime> {
    MaybeStatic::NonStatic(Lifetime::new(number))
}

/// The lifetimes of these numbers.
pub fn lifetime_list(alloc: Global, numbers: &[usize]) -> Result<Lifetimes, Fail> {
    let mut list = Lifetimes::new(alloc);
    for number in numbers {
        list.push(lifetime(*number))?;
    }
    Ok(list)
}

/// `&'n T`.
pub fn shared(number: usize) -> Borrow {
    Borrow {
        lifetime: lifetime(number),
        mutability: Mutability::Immutable,
    }
}

/// A path to the struct of this id.
pub fn struct_path(
    alloc: Global,
    id: usize,
    numbers: &[usize],
    owner: MaybeOwn,
) -> Result<StructPath, Fail> {
    Ok(StructPath {
        lifetimes: lifetime_list(alloc, numbers)?,
        tcx_id: StructId::new(id),
        owner,
    })
}

/// A borrow, for `'0`, of the opaque of this id.
pub fn opaque_path(
    alloc: Global,
    id: usize,
    numbers: &[usize],
) -> Result<OpaquePath<Optional, Borrow>, Fail> {
    Ok(OpaquePath {
        lifetimes: lifetime_list(alloc, numbers)?,
        optional: Optional::new(false),
        owner: shared(0),
        tcx_id: OpaqueId::new(id),
    })
}

/// The type of a field.
type FieldType = HirType<Everywhere>;

/// `&'0 Opaque<..>`.
fn to_opaque(alloc: Global, id: usize, numbers: &[usize]) -> Result<FieldType, Fail> {
    Ok(HirType::Opaque(opaque_path(alloc, id, numbers)?))
}

/// The struct itself.
fn by_value(alloc: Global, id: usize, numbers: &[usize]) -> Result<FieldType, Fail> {
    Ok(HirType::Struct(struct_path(alloc, id, numbers, MaybeOwn::Own)?))
}

/// `&'0 Struct`.
fn lent(alloc: Global, id: usize, numbers: &[usize]) -> Result<FieldType, Fail> {
    let owner = MaybeOwn::Borrow(shared(0));
    Ok(HirType::Struct(struct_path(alloc, id, numbers, owner)?))
}

/// `DiplomatOption<Struct>`.
fn optional(alloc: Global, id: usize, numbers: &[usize]) -> Result<FieldType, Fail> {
    let inner = by_value(alloc, id, numbers)?;
    Ok(HirType::DiplomatOption(Boxed::new(alloc, inner)?))
}

/// `&'0 [Struct]`.
fn listed(alloc: Global, id: usize, numbers: &[usize]) -> Result<FieldType, Fail> {
    let path = struct_path(alloc, id, numbers, MaybeOwn::Own)?;
    Ok(HirType::Slice(Slice::Struct(MaybeOwn::Borrow(shared(0)), path)))
}

/// The type of a field.
fn field_type(alloc: Global, of: &Of) -> Result<FieldType, Fail> {
    match of {
        Of::Opaque(id, numbers) => to_opaque(alloc, *id, *numbers),
        Of::Struct(id, numbers) => by_value(alloc, *id, *numbers),
        Of::Lent(id, numbers) => lent(alloc, *id, *numbers),
        Of::Optional(id, numbers) => optional(alloc, *id, *numbers),
        Of::Listed(id, numbers) => listed(alloc, *id, *numbers),
    }
}

/// What each definition has: no documents, and a name.
#[derive(Drop)]
struct Head {
    docs: Docs,
    name: Ident,
}

/// No documents.
fn no_docs(alloc: Global) -> Result<Docs, Fail> {
    let text = Text::new(alloc, "")?;
    Ok(Docs::new(text, Items::new(alloc)))
}

/// Without documents, and with this name.
fn named(alloc: Global, called: &str) -> Result<Head, Fail> {
    let docs = no_docs(alloc)?;
    let name = IdentBuf::new(alloc, called)?;
    Ok(Head {
        docs,
        name: Ident::new(name),
    })
}

/// So many lifetimes, of which none has a name.
fn environment(alloc: Global, count: usize) -> LifetimeEnv {
    LifetimeEnv::new(Items::new(alloc), count)
}

/// A field of this type.
fn field_of(alloc: Global, ty: FieldType, docs: Docs, name: IdentBuf) -> StructField<Everywhere> {
    StructField {
        docs,
        name,
        ty,
        attrs: Attrs::empty(alloc),
    }
}

/// A field of this type, without documents.
fn named_field(alloc: Global, ty: FieldType) -> Result<StructField<Everywhere>, Fail> {
    let docs = no_docs(alloc)?;
    let name = IdentBuf::new(alloc, "field")?;
    Ok(field_of(alloc, ty, docs, name))
}

/// A field that holds this.
fn field(alloc: Global, of: &Of) -> Result<StructField<Everywhere>, Fail> {
    let ty = field_type(alloc, of)?;
    named_field(alloc, ty)
}

/// A struct of these fields.
fn structure<P: TyPosition>(
    alloc: Global,
    head: Head,
    count: usize,
    fields: Items<StructField<P>>,
) -> StructDef<P> {
    StructDef {
        docs: head.docs,
        name: head.name,
        fields,
        methods: Items::new(alloc),
        attrs: Attrs::empty(alloc),
        lifetimes: environment(alloc, count),
        special_method_presence: SpecialMethodPresence::none(),
        usage: TypingUseInfo::unused(alloc),
    }
}

/// Adds a field for each of these.
fn add_fields(
    alloc: Global,
    fields: &mut Items<StructField<Everywhere>>,
    all: &[Of],
) -> Result<(), Fail> {
    for of in all {
        fields.push(field(alloc, of)?)?;
    }
    Ok(())
}

/// A struct that comes in and goes out.
pub fn input_struct(
    alloc: Global,
    called: &str,
    count: usize,
    all: &[Of],
) -> Result<StructDef<Everywhere>, Fail> {
    let head = named(alloc, called)?;
    let mut fields = Items::new(alloc);
    add_fields(alloc, &mut fields, all)?;
    Ok(structure(alloc, head, count, fields))
}

/// A struct that only goes out, without fields.
pub fn out_struct(alloc: Global, called: &str, count: usize) -> Result<OutStructDef, Fail> {
    let head = named(alloc, called)?;
    Ok(structure(alloc, head, count, Items::new(alloc)))
}

/// An opaque, with the id of the opaque that its iterator is, where it has one.
pub fn opaque(
    alloc: Global,
    called: &str,
    count: usize,
    iterable: Option<usize>,
) -> Result<OpaqueDef, Fail> {
    let dtor_abi_name = IdentBuf::new(alloc, "destroy")?;
    let head = named(alloc, called)?;
    let mut special = SpecialMethodPresence::none();
    special.iterable = iterable.map(OpaqueId::new);
    Ok(OpaqueDef {
        docs: head.docs,
        name: head.name,
        methods: Items::new(alloc),
        attrs: Attrs::empty(alloc),
        lifetimes: environment(alloc, count),
        special_method_presence: special,
        dtor_abi_name,
        usage: TypingUseInfo::unused(alloc),
    })
}

/// An enum without variants.
pub fn enumeration(alloc: Global, called: &str) -> Result<EnumDef, Fail> {
    let head = named(alloc, called)?;
    Ok(EnumDef {
        docs: head.docs,
        name: head.name,
        variants: Items::new(alloc),
        methods: Items::new(alloc),
        attrs: Attrs::empty(alloc),
        special_method_presence: SpecialMethodPresence::none(),
        usage: TypingUseInfo::unused(alloc),
    })
}

/// A trait without methods.
pub fn interface(alloc: Global, called: &str) -> Result<TraitDef, Fail> {
    let head = named(alloc, called)?;
    Ok(TraitDef {
        docs: head.docs,
        name: head.name,
        methods: Items::new(alloc),
        attrs: Attrs::empty(alloc),
        lifetimes: environment(alloc, 0),
        usage: TypingUseInfo::unused(alloc),
    })
}

/// A function that takes and returns nothing.
pub fn function(alloc: Global, called: &str) -> Result<Method, Fail> {
    let abi_name = IdentBuf::new(alloc, "symbol")?;
    let head = named(alloc, called)?;
    Ok(Method {
        docs: head.docs,
        name: head.name,
        abi_name,
        lifetime_env: environment(alloc, 0),
        param_self: None,
        params: Items::new(alloc),
        output: ReturnType::Infallible(SuccessType::Unit),
        attrs: Attrs::empty(alloc),
    })
}

/// A definition in the root module.
pub fn in_root<T>(alloc: Global, def: T) -> Placed<T> {
    Placed {
        def,
        module: Items::new(alloc),
    }
}

/// Parts without definitions.
pub fn no_parts(alloc: Global) -> ContextParts {
    ContextParts {
        out_structs: Items::new(alloc),
        structs: Items::new(alloc),
        opaques: Items::new(alloc),
        enums: Items::new(alloc),
        traits: Items::new(alloc),
        functions: Items::new(alloc),
    }
}

/// One struct more.
pub fn add_struct(
    alloc: Global,
    parts: &mut ContextParts,
    called: &str,
    count: usize,
    fields: &[Of],
) -> Result<(), Fail> {
    let def = input_struct(alloc, called, count, fields)?;
    parts.structs.push(in_root(alloc, def))?;
    Ok(())
}

/// One opaque more, with what iterates.
pub fn add_opaque(
    alloc: Global,
    parts: &mut ContextParts,
    count: usize,
    iterable: Option<usize>,
) -> Result<(), Fail> {
    let def = opaque(alloc, "Page", count, iterable)?;
    parts.opaques.push(in_root(alloc, def))?;
    Ok(())
}

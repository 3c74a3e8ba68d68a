//! Types in a notation, and definitions with nothing in them but what a test is about.

use bridge_decl::{Boxed, IdentBuf, Items, Mutability, NoMemory, StringEncoding, Text};
use hir_attrs::Attrs;
use hir_context::{ContextParts, Placed};
use hir_definitions::{
    EnumDef, OpaqueDef, SpecialMethodPresence, StructDef, StructField, TypingUseInfo,
};
use hir_docs::Docs;
use hir_ids::{Borrow, EnumId, Ident, MaybeOwn, OpaqueId, Optional, PrimitiveType, StructId};
use hir_life::{Lifetime, LifetimeEnv, Lifetimes, MaybeStatic};
use hir_types::{EnumPath, Everywhere, HirType, OpaquePath, Slice, StructPath, TyPosition};
use std::alloc::Global;
use std::test::Fail;

/// `'static`, where others have their numbers.
pub const STATIC: usize = usize::MAX;

/// A type. A list of one lifetime at most is that of a reference, and what has none is owned.
#[derive(Clone, Copy)]
pub enum Of {
    /// `u8`.
    Number,
    /// `&'l str`.
    Text(&'static [usize]),
    /// `DiplomatOption<&'l str>`.
    OptionalText(&'static [usize]),
    /// `&'l [u8]`.
    Numbers(&'static [usize]),
    /// `&[DiplomatStrSlice]`.
    Texts,
    /// `&'l [Color]`.
    Colors(&'static [usize]),
    /// `&'l [Struct<..>]`, with the place of the struct.
    Structs(&'static [usize], usize, &'static [usize]),
    /// `&'l [&'e Opaque<..>]`.
    Opaques(&'static [usize], usize, &'static [usize]),
    /// `&'l Opaque<..>`: the opaque at a place has so many lifetimes.
    Opaque(usize, &'static [usize]),
    /// The struct at a place.
    Struct(usize, &'static [usize]),
    /// `&'l Struct<..>`.
    Lent(usize, usize, &'static [usize]),
    /// `DiplomatOption<Struct<..>>`.
    Optional(usize, &'static [usize]),
}

/// Names, and what each has.
pub type Named = &'static [(&'static str, Of)];

/// How many lifetimes a struct has, and its fields.
pub type Made = (usize, Named);

/// The lifetime of this number.
pub fn lifetime(number: usize) -> MaybeStatic<Lifetime> {
    if number == STATIC {
        MaybeStatic::Static
    } else {
        MaybeStatic::NonStatic(Lifetime::new(number))
    }
}

/// The lifetimes of these numbers.
pub fn lifetime_list(alloc: Global, numbers: &[usize]) -> Result<Lifetimes, NoMemory> {
    let mut list = Lifetimes::new(alloc);
    for number in numbers {
        list.push(lifetime(*number))?;
    }
    Ok(list)
}

/// `&'l T`.
fn shared(number: usize) -> Borrow {
    Borrow {
        lifetime: lifetime(number),
        mutability: Mutability::Immutable,
    }
}

/// `&'l T`, or `T`.
fn held(own: &[usize]) -> MaybeOwn {
    match own.first() {
        Some(number) => MaybeOwn::Borrow(shared(*number)),
        None => MaybeOwn::Own,
    }
}

/// A path to the struct at a place.
pub fn struct_path(
    alloc: Global,
    owner: MaybeOwn,
    place: usize,
    numbers: &[usize],
) -> Result<StructPath, NoMemory> {
    Ok(StructPath {
        lifetimes: lifetime_list(alloc, numbers)?,
        tcx_id: StructId::new(place),
        owner,
    })
}

/// A path to the opaque that has as many lifetimes.
pub fn opaque_with<Owner: Drop>(owner: Owner, lifetimes: Lifetimes) -> OpaquePath<Optional, Owner> {
    OpaquePath {
        tcx_id: OpaqueId::new(lifetimes.len()),
        lifetimes,
        optional: Optional::new(false),
        owner,
    }
}

/// A path to the opaque that has so many lifetimes.
fn opaque_path(
    alloc: Global,
    owner: Borrow,
    numbers: &[usize],
) -> Result<OpaquePath<Optional, Borrow>, NoMemory> {
    Ok(opaque_with(owner, lifetime_list(alloc, numbers)?))
}

/// A text.
fn text<P: TyPosition>(own: &[usize]) -> HirType<P> {
    let lifetime = own.first().map(|number| lifetime(*number));
    HirType::Slice(Slice::Str(lifetime, StringEncoding::Utf8))
}

/// An option of this.
fn optional<P: TyPosition>(alloc: Global, inside: HirType<P>) -> Result<HirType<P>, NoMemory> {
    Ok(HirType::DiplomatOption(Boxed::new(alloc, inside)?))
}

/// A slice of the struct or of the opaque.
fn slice<P: TyPosition<StructPath = StructPath>>(
    alloc: Global,
    of: &Of,
) -> Result<Slice<P>, NoMemory> {
    match of {
        Of::Structs(own, place, numbers) => {
            let path = struct_path(alloc, MaybeOwn::Own, *place, numbers)?;
            Ok(Slice::Struct(held(own), path))
        }
        Of::Opaques(own, element, numbers) => {
            let path = opaque_path(alloc, shared(*element), numbers)?;
            Ok(Slice::Opaque(held(own), path))
        }
        Of::Colors(own) => Ok(Slice::Enum(
            held(own),
            EnumPath {
                tcx_id: EnumId::new(0),
            },
        )),
        Of::Numbers(own) => Ok(Slice::Primitive(held(own), PrimitiveType::Byte)),
        _ => Ok(Slice::Strs(StringEncoding::Utf8)),
    }
}

/// A struct, by value or by reference, and in an option.
fn structure<P: TyPosition<StructPath = StructPath>>(
    alloc: Global,
    of: &Of,
) -> Result<HirType<P>, NoMemory> {
    match of {
        Of::Struct(place, numbers) => {
            let path = struct_path(alloc, MaybeOwn::Own, *place, numbers)?;
            Ok(HirType::Struct(path))
        }
        Of::Lent(own, place, numbers) => {
            let owner = MaybeOwn::Borrow(shared(*own));
            Ok(HirType::Struct(struct_path(alloc, owner, *place, numbers)?))
        }
        Of::Optional(place, numbers) => {
            let path = struct_path(alloc, MaybeOwn::Own, *place, numbers)?;
            optional(alloc, HirType::Struct(path))
        }
        _ => Ok(HirType::Primitive(PrimitiveType::Byte)),
    }
}

/// The type that this stands for.
pub fn type_of<P: TyPosition<StructPath = StructPath, OpaqueOwnership = Borrow>>(
    alloc: Global,
    of: &Of,
) -> Result<HirType<P>, NoMemory> {
    match of {
        Of::Text(own) => Ok(text(own)),
        Of::OptionalText(own) => optional(alloc, text(own)),
        Of::Opaque(own, numbers) => {
            Ok(HirType::Opaque(opaque_path(alloc, shared(*own), numbers)?))
        }
        Of::Number | Of::Struct(_, _) | Of::Lent(_, _, _) | Of::Optional(_, _) => {
            structure(alloc, of)
        }
        _ => Ok(HirType::Slice(slice(alloc, of)?)),
    }
}

/// What each definition has: no documents, and a name.
#[derive(Drop)]
pub struct Head {
    /// No documents.
    pub docs: Docs,
    /// The name.
    pub name: Ident,
}

/// Without documents, and with this name.
pub fn named(alloc: Global, called: &str) -> Result<Head, Fail> {
    let docs = Docs::new(Text::new(alloc, "")?, Items::new(alloc));
    let name = Ident::new(IdentBuf::new(alloc, called)?);
    Ok(Head { docs, name })
}

/// So many lifetimes, of which none has a name.
pub fn nameless(alloc: Global, count: usize) -> LifetimeEnv {
    LifetimeEnv::new(Items::new(alloc), count)
}

/// A field of this type.
fn field_of(
    alloc: Global,
    ty: HirType<Everywhere>,
    docs: Docs,
    name: IdentBuf,
) -> StructField<Everywhere> {
    StructField {
        docs,
        name,
        ty,
        attrs: Attrs::empty(alloc),
    }
}

/// A field that holds this.
fn field(alloc: Global, called: &str, of: &Of) -> Result<StructField<Everywhere>, Fail> {
    let docs = Docs::new(Text::new(alloc, "")?, Items::new(alloc));
    let name = IdentBuf::new(alloc, called)?;
    let ty = type_of(alloc, of)?;
    Ok(field_of(alloc, ty, docs, name))
}

/// A struct of these fields.
fn of_fields(
    alloc: Global,
    head: Head,
    count: usize,
    fields: Items<StructField<Everywhere>>,
    disable: bool,
) -> StructDef<Everywhere> {
    let mut attrs = Attrs::empty(alloc);
    attrs.disable = disable;
    StructDef {
        docs: head.docs,
        name: head.name,
        fields,
        methods: Items::new(alloc),
        attrs,
        lifetimes: nameless(alloc, count),
        special_method_presence: SpecialMethodPresence::none(),
        usage: TypingUseInfo::unused(alloc),
    }
}

/// Adds a field for each of these.
fn add_fields(
    alloc: Global,
    fields: &mut Items<StructField<Everywhere>>,
    all: &[(&str, Of)],
) -> Result<(), Fail> {
    for (called, of) in all {
        fields.push(field(alloc, called, of)?)?;
    }
    Ok(())
}

/// A struct of these fields, which is disabled or isn't.
pub fn input_struct(
    alloc: Global,
    count: usize,
    all: &[(&str, Of)],
    disable: bool,
) -> Result<StructDef<Everywhere>, Fail> {
    let head = named(alloc, "Struct")?;
    let mut fields = Items::new(alloc);
    add_fields(alloc, &mut fields, all)?;
    Ok(of_fields(alloc, head, count, fields, disable))
}

/// An opaque with so many lifetimes.
fn opaque(alloc: Global, count: usize) -> Result<OpaqueDef, Fail> {
    let dtor_abi_name = IdentBuf::new(alloc, "destroy")?;
    let head = named(alloc, "Page")?;
    Ok(OpaqueDef {
        docs: head.docs,
        name: head.name,
        methods: Items::new(alloc),
        attrs: Attrs::empty(alloc),
        lifetimes: nameless(alloc, count),
        special_method_presence: SpecialMethodPresence::none(),
        dtor_abi_name,
        usage: TypingUseInfo::unused(alloc),
    })
}

/// An enum without variants.
fn enumeration(alloc: Global) -> Result<EnumDef, Fail> {
    let head = named(alloc, "Color")?;
    Ok(EnumDef {
        docs: head.docs,
        name: head.name,
        variants: Items::new(alloc),
        methods: Items::new(alloc),
        attrs: Attrs::empty(alloc),
        special_method_presence: SpecialMethodPresence::none(),
        usage: TypingUseInfo::unused(alloc),
    })
}

/// A definition in the root module.
pub fn in_root<T>(alloc: Global, def: T) -> Placed<T> {
    Placed {
        def,
        module: Items::new(alloc),
    }
}

/// Parts without definitions.
fn no_parts(alloc: Global) -> ContextParts {
    ContextParts {
        out_structs: Items::new(alloc),
        structs: Items::new(alloc),
        opaques: Items::new(alloc),
        enums: Items::new(alloc),
        traits: Items::new(alloc),
        functions: Items::new(alloc),
    }
}

/// One opaque more, with so many lifetimes.
pub fn add_opaque(alloc: Global, parts: &mut ContextParts, count: usize) -> Result<(), Fail> {
    let def = opaque(alloc, count)?;
    parts.opaques.push(in_root(alloc, def))?;
    Ok(())
}

/// One enum more.
fn add_enum(alloc: Global, parts: &mut ContextParts) -> Result<(), Fail> {
    let def = enumeration(alloc)?;
    parts.enums.push(in_root(alloc, def))?;
    Ok(())
}

/// Opaques without lifetimes, with one, and with two; and an enum.
fn add_common(alloc: Global, parts: &mut ContextParts) -> Result<(), Fail> {
    for count in 0..3 {
        add_opaque(alloc, parts, count)?;
    }
    add_enum(alloc, parts)
}

/// Parts with these.
pub fn common_parts(alloc: Global) -> Result<ContextParts, Fail> {
    let mut parts = no_parts(alloc);
    add_common(alloc, &mut parts)?;
    Ok(parts)
}

/// One struct more.
pub fn add_struct(
    alloc: Global,
    parts: &mut ContextParts,
    count: usize,
    fields: &[(&str, Of)],
    disable: bool,
) -> Result<(), Fail> {
    let def = input_struct(alloc, count, fields, disable)?;
    parts.structs.push(in_root(alloc, def))?;
    Ok(())
}

/// Adds these structs, none of which is disabled.
pub fn add_structs(alloc: Global, parts: &mut ContextParts, structs: &[Made]) -> Result<(), Fail> {
    for (count, fields) in structs {
        add_struct(alloc, parts, *count, fields, false)?;
    }
    Ok(())
}

//! Types in Rust's notation.

use bridge_ast::ItemPlace;
use bridge_decl::{
    Boxed, Items, Mutability, NoMemory, PrimitiveType, StdlibOrDiplomat, StringEncoding, WriteType,
};
use hir_life::{Lifetime, Lifetimes, MaybeStatic};
use hir_number::{Kind, NumberedType, Target, TraitTarget};
use std::alloc::Global;

const STD: StdlibOrDiplomat = StdlibOrDiplomat::Stdlib;

const DIPLOMAT: StdlibOrDiplomat = StdlibOrDiplomat::Diplomat;

/// A lifetime, which may be `'static`, and whether the borrow is mutable.
#[derive(Clone, Copy)]
struct Lent {
    is_static: bool,
    mutability: Mutability,
}

const SHARED: Lent = Lent {
    is_static: false,
    mutability: Mutability::Immutable,
};

const MUTABLE: Lent = Lent {
    is_static: false,
    mutability: Mutability::Mutable,
};

const STATIC: Lent = Lent {
    is_static: true,
    mutability: Mutability::Immutable,
};

const STATIC_MUTABLE: Lent = Lent {
    is_static: true,
    mutability: Mutability::Mutable,
};

/// What stands around a type.
#[derive(Clone, Copy)]
enum Layer {
    Reference(Lent),
    Box,
    Option(StdlibOrDiplomat),
    Slice(Option<Lent>, StdlibOrDiplomat),
}

/// How layers begin; of two of which one begins the other, the longer is first.
const LAYERS: [(&str, Layer); 14] = [
    ("DiplomatOption<", Layer::Option(DIPLOMAT)),
    ("Option<", Layer::Option(STD)),
    ("DiplomatSlice<", Layer::Slice(Some(SHARED), DIPLOMAT)),
    ("DiplomatOwnedSlice<", Layer::Slice(None, DIPLOMAT)),
    ("Box<[", Layer::Slice(None, STD)),
    ("Box<", Layer::Box),
    ("&'a mut [", Layer::Slice(Some(MUTABLE), STD)),
    ("&'a mut ", Layer::Reference(MUTABLE)),
    ("&'a [", Layer::Slice(Some(SHARED), STD)),
    ("&'a ", Layer::Reference(SHARED)),
    ("&'static mut [", Layer::Slice(Some(STATIC_MUTABLE), STD)),
    ("&'static mut ", Layer::Reference(STATIC_MUTABLE)),
    ("&'static [", Layer::Slice(Some(STATIC), STD)),
    ("&'static ", Layer::Reference(STATIC)),
];

/// What stands innermost.
#[derive(Clone, Copy)]
enum Core {
    Primitive(PrimitiveType),
    Ordering,
    Item(usize),
    Generic(MaybeStatic<usize>),
    SelfType(usize),
    Trait(usize),
    Write,
    Str(StdlibOrDiplomat),
    Strings(StdlibOrDiplomat),
    Result,
    Function,
    Unit,
}

const CORES: [(&str, Core); 22] = [
    ("u8", Core::Primitive(PrimitiveType::u8)),
    ("byte", Core::Primitive(PrimitiveType::byte)),
    ("i32", Core::Primitive(PrimitiveType::i32)),
    ("Ordering", Core::Ordering),
    ("impl Tr", Core::Trait(7)),
    ("impl Fn()", Core::Function),
    ("Write", Core::Write),
    ("str", Core::Str(STD)),
    ("DiplomatStrSlice", Core::Strings(DIPLOMAT)),
    ("StrSlice", Core::Strings(STD)),
    ("DiplomatStr", Core::Str(DIPLOMAT)),
    ("Result<(), ()>", Core::Result),
    ("Self", Core::SelfType(0)),
    ("S<'a>", Core::Generic(MaybeStatic::NonStatic(0))),
    ("S<'static>", Core::Generic(MaybeStatic::Static)),
    ("S", Core::Item(0)),
    ("Z", Core::Item(1)),
    ("T", Core::Item(2)),
    ("Y", Core::Item(3)),
    ("O", Core::Item(4)),
    ("M", Core::Item(5)),
    ("E", Core::Item(6)),
];

/// The layer that a text begins with, and the rest.
fn layer_of(text: &str) -> Option<(Layer, &str)> {
    for (start, layer) in LAYERS {
        match text.strip_prefix(start) {
            Some(rest) => return Some((layer, rest)),
            None => {}
        }
    }
    None
}

/// The innermost type that a text begins with; `()` where it begins with none of the others.
fn core_of(text: &str) -> Core {
    for (start, core) in CORES {
        if text.starts_with(start) {
            return core;
        }
    }
    Core::Unit
}

fn target(alloc: Global, item: usize) -> Target {
    Target {
        place: ItemPlace { module: 0, item },
        kind: Kind::Enum,
        lifetimes: Lifetimes::new(alloc),
    }
}

fn generic(alloc: Global, lifetime: MaybeStatic<usize>) -> Result<Target, NoMemory> {
    let lifetime = match lifetime {
        MaybeStatic::Static => MaybeStatic::Static,
        MaybeStatic::NonStatic(number) => MaybeStatic::NonStatic(Lifetime::new(number)),
    };
    Ok(Target {
        place: ItemPlace { module: 0, item: 0 },
        kind: Kind::Struct,
        lifetimes: Lifetimes::from_slice(alloc, &[lifetime])?,
    })
}

fn result(alloc: Global) -> Result<NumberedType, NoMemory> {
    let ok = Boxed::new(alloc, NumberedType::Unit)?;
    let err = Boxed::new(alloc, NumberedType::Unit)?;
    Ok(NumberedType::Result(ok, err, STD))
}

fn function(alloc: Global) -> Result<NumberedType, NoMemory> {
    let output = Boxed::new(alloc, NumberedType::Unit)?;
    Ok(NumberedType::Function(Items::new(alloc), output, Mutability::Immutable))
}

fn innermost(alloc: Global, core: Core) -> Result<NumberedType, NoMemory> {
    match core {
        Core::Primitive(primitive) => Ok(NumberedType::Primitive(primitive)),
        Core::Ordering => Ok(NumberedType::Ordering),
        Core::Item(item) => Ok(NumberedType::Named(target(alloc, item))),
        Core::Generic(lifetime) => Ok(NumberedType::Named(generic(alloc, lifetime)?)),
        Core::SelfType(item) => Ok(NumberedType::SelfType(target(alloc, item))),
        Core::Trait(item) => Ok(NumberedType::ImplTrait(TraitTarget {
            place: ItemPlace { module: 0, item },
            lifetimes: Lifetimes::new(alloc),
        })),
        Core::Write => Ok(NumberedType::Write(WriteType::Str)),
        Core::Str(spelling) => Ok(NumberedType::StrReference(None, StringEncoding::Utf8, spelling)),
        Core::Strings(spelling) => Ok(NumberedType::StrSlice(StringEncoding::Utf8, spelling)),
        Core::Result => result(alloc),
        Core::Function => function(alloc),
        Core::Unit => Ok(NumberedType::Unit),
    }
}

fn lifetime_of(lent: Lent) -> MaybeStatic<Lifetime> {
    if lent.is_static {
        MaybeStatic::Static
    } else {
        MaybeStatic::NonStatic(Lifetime::new(0))
    }
}

fn borrow_of(lent: Option<Lent>) -> Option<(MaybeStatic<Lifetime>, Mutability)> {
    match lent {
        Some(lent) => Some((lifetime_of(lent), lent.mutability)),
        None => None,
    }
}

/// A reference to a type; `&'a str` is a string slice.
fn reference(alloc: Global, lent: Lent, ty: NumberedType) -> Result<NumberedType, NoMemory> {
    let lifetime = lifetime_of(lent);
    match ty {
        NumberedType::StrReference(None, encoding, spelling) => Ok(NumberedType::StrReference(
            Some(lifetime),
            encoding,
            spelling,
        )),
        ty => {
            let ty = Boxed::new(alloc, ty)?;
            Ok(NumberedType::Reference(lifetime, lent.mutability, ty))
        }
    }
}

/// A box of a type; `Box<str>` is a string slice.
fn boxed(alloc: Global, ty: NumberedType) -> Result<NumberedType, NoMemory> {
    match ty {
        NumberedType::StrReference(None, encoding, spelling) => {
            Ok(NumberedType::StrReference(None, encoding, spelling))
        }
        ty => Ok(NumberedType::Box(Boxed::new(alloc, ty)?)),
    }
}

/// A slice of a type; of primitive types and of string slices there are own ones.
fn slice(
    alloc: Global,
    lent: Option<Lent>,
    spelling: StdlibOrDiplomat,
    ty: NumberedType,
) -> Result<NumberedType, NoMemory> {
    let borrow = borrow_of(lent);
    match ty {
        NumberedType::Primitive(primitive) => {
            Ok(NumberedType::PrimitiveSlice(borrow, primitive, spelling))
        }
        NumberedType::StrSlice(encoding, spelling) => {
            Ok(NumberedType::StrSlice(encoding, spelling))
        }
        ty => {
            let ty = Boxed::new(alloc, ty)?;
            Ok(NumberedType::CustomTypeSlice(borrow, ty, spelling))
        }
    }
}

fn within(alloc: Global, layer: Layer, ty: NumberedType) -> Result<NumberedType, NoMemory> {
    match layer {
        Layer::Reference(lent) => reference(alloc, lent, ty),
        Layer::Box => boxed(alloc, ty),
        Layer::Option(spelling) => Ok(NumberedType::Option(Boxed::new(alloc, ty)?, spelling)),
        Layer::Slice(lent, spelling) => slice(alloc, lent, spelling, ty),
    }
}

/// The type that a text writes, of at most eight layers.
pub fn parse(alloc: Global, text: &str) -> Result<NumberedType, NoMemory> {
    let mut layers = Vec::new(alloc);
    let mut rest = text;
    for _ in 0..8 {
        match layer_of(rest) {
            Some((layer, more)) => {
                layers.push(layer)?;
                rest = more;
            }
            None => {}
        }
    }
    let mut ty = innermost(alloc, core_of(rest))?;
    for layer in layers.as_slice().iter().rev() {
        ty = within(alloc, *layer, ty)?;
    }
    Ok(ty)
}

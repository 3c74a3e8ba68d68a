//! Types in a notation of words that is read from the end: a word stands before the types that it takes.
//!
//! ```text
//! &'a O    []& u8    []'static & O    Option & B<'a,'b>    Result Box A ()    Fn2 & O u8 & O    impl:T<'a>    Self
//! ```

use bridge_decl::{
    Boxed, Items, Lifetime, Mutability, NoMemory, PathType, PrimitiveType, StdlibOrDiplomat,
    StringEncoding, Text, TypeName, WriteType,
};
use std::alloc::Global;

const STD: StdlibOrDiplomat = StdlibOrDiplomat::Stdlib;

const UTF8: StringEncoding = StringEncoding::Utf8;

/// A lifetime with its apostrophe; none is written, or `'_`, where it is anonymous.
pub fn lifetime(alloc: Global, word: &str) -> Result<Lifetime, NoMemory> {
    match word.strip_prefix('\'') {
        Some("static") => Ok(Lifetime::Static),
        Some("_") => Ok(Lifetime::Anonymous),
        Some(name) => Ok(Lifetime::Named(Text::new(alloc, name)?)),
        None => Ok(Lifetime::Anonymous),
    }
}

/// The lifetimes of a path, with commas between them, up to the `>`.
fn generics(alloc: Global, words: &str) -> Result<Items<Lifetime>, NoMemory> {
    let mut lifetimes = Items::new(alloc);
    for word in words.split(',') {
        lifetimes.push(lifetime(alloc, word.split('>').next().unwrap_or(""))?)?;
    }
    Ok(lifetimes)
}

/// A path of one segment.
fn path_of(alloc: Global, name: &str, lifetimes: Items<Lifetime>) -> Result<PathType, NoMemory> {
    let mut segments = Items::new(alloc);
    segments.push(Text::new(alloc, name)?)?;
    Ok(PathType {
        segments,
        lifetimes,
    })
}

/// A path of one segment, and its lifetimes where it has some.
pub fn path(alloc: Global, word: &str) -> Result<PathType, NoMemory> {
    match word.split_once('<') {
        Some((name, words)) => path_of(alloc, name, generics(alloc, words)?),
        None => path_of(alloc, word, Items::new(alloc)),
    }
}

/// The type that was read last, which the word before it takes; `()` where there is none.
fn taken(types: &mut Vec<TypeName>) -> TypeName {
    match types.pop() {
        Some(ty) => ty,
        None => TypeName::Unit,
    }
}

fn boxed(alloc: Global, types: &mut Vec<TypeName>) -> Result<Boxed<TypeName>, NoMemory> {
    Boxed::new(alloc, taken(types))
}

/// A reference; to `str` it is a string slice.
fn reference(
    alloc: Global,
    lifetime: Lifetime,
    mutability: Mutability,
    ty: TypeName,
) -> Result<TypeName, NoMemory> {
    match ty {
        TypeName::StrReference(_, encoding, spelling) => {
            Ok(TypeName::StrReference(Some(lifetime), encoding, spelling))
        }
        ty => Ok(TypeName::Reference(lifetime, mutability, Boxed::new(alloc, ty)?)),
    }
}

/// A slice; of primitive types and of string slices there are own ones.
fn slice(
    alloc: Global,
    borrow: Option<(Lifetime, Mutability)>,
    ty: TypeName,
) -> Result<TypeName, NoMemory> {
    match ty {
        TypeName::Primitive(primitive) => Ok(TypeName::PrimitiveSlice(borrow, primitive, STD)),
        TypeName::StrReference(_, encoding, spelling) => {
            Ok(TypeName::StrSlice(encoding, spelling))
        }
        ty => Ok(TypeName::CustomTypeSlice(borrow, Boxed::new(alloc, ty)?, STD)),
    }
}

/// The slice that a word makes after its `[]`: borrowed where it has a `&` with a lifetime.
fn slice_of(alloc: Global, borrow: &str, ty: TypeName) -> Result<TypeName, NoMemory> {
    match borrow.strip_prefix('&') {
        Some(word) => slice(
            alloc,
            Some((lifetime(alloc, word)?, Mutability::Immutable)),
            ty,
        ),
        None => slice(alloc, None, ty),
    }
}

/// The borrow that a word writes after its `&`.
pub fn borrow(alloc: Global, word: &str) -> Result<(Lifetime, Mutability), NoMemory> {
    match word {
        "mut" => Ok((Lifetime::Anonymous, Mutability::Mutable)),
        _ => Ok((lifetime(alloc, word)?, Mutability::Immutable)),
    }
}

/// The reference or the slice that a word makes of the type after it, if it makes one.
fn lent(
    alloc: Global,
    word: &str,
    types: &mut Vec<TypeName>,
) -> Result<Option<TypeName>, NoMemory> {
    match word.strip_prefix("[]") {
        Some(word) => return Ok(Some(slice_of(alloc, word, taken(types))?)),
        None => {}
    }
    match word.strip_prefix('&') {
        Some(word) => {
            let (lifetime, mutability) = borrow(alloc, word)?;
            Ok(Some(reference(alloc, lifetime, mutability, taken(types))?))
        }
        None => Ok(None),
    }
}

fn result(alloc: Global, types: &mut Vec<TypeName>) -> Result<TypeName, NoMemory> {
    let ok = boxed(alloc, types)?;
    let err = boxed(alloc, types)?;
    Ok(TypeName::Result(ok, err, STD))
}

/// A callback that takes as many of the types as it has parameters, and then one that it returns.
fn function(
    alloc: Global,
    parameters: usize,
    types: &mut Vec<TypeName>,
) -> Result<TypeName, NoMemory> {
    let mut inputs = Items::new(alloc);
    for _ in 0..parameters {
        inputs.push(taken(types))?;
    }
    let output = boxed(alloc, types)?;
    Ok(TypeName::Function(inputs, output, Mutability::Immutable))
}

/// The type that a word makes of those after it, if it takes some.
fn compound(
    alloc: Global,
    word: &str,
    types: &mut Vec<TypeName>,
) -> Result<Option<TypeName>, NoMemory> {
    match word {
        "Box" => Ok(Some(TypeName::Box(boxed(alloc, types)?))),
        "Option" => Ok(Some(TypeName::Option(boxed(alloc, types)?, STD))),
        "Result" => Ok(Some(result(alloc, types)?)),
        "Fn0" => Ok(Some(function(alloc, 0, types)?)),
        "Fn1" => Ok(Some(function(alloc, 1, types)?)),
        "Fn2" => Ok(Some(function(alloc, 2, types)?)),
        _ => lent(alloc, word, types),
    }
}

/// The type of a path: `Self:` and a path, `impl:` and a path, or a path.
fn named(alloc: Global, word: &str) -> Result<TypeName, NoMemory> {
    match word.split_once(':') {
        Some(("Self", word)) => Ok(TypeName::SelfType(path(alloc, word)?)),
        Some((_, word)) => Ok(TypeName::ImplTrait(path(alloc, word)?)),
        None => Ok(TypeName::Named(path(alloc, word)?)),
    }
}

/// The type that a word is by itself; `Self` stands for the path.
fn single(alloc: Global, own: &str, word: &str) -> Result<TypeName, NoMemory> {
    match word {
        "u8" => Ok(TypeName::Primitive(PrimitiveType::u8)),
        "()" => Ok(TypeName::Unit),
        "str" => Ok(TypeName::StrReference(None, UTF8, STD)),
        "Ordering" => Ok(TypeName::Ordering),
        "Write" => Ok(TypeName::Write(WriteType::Str)),
        "Self" => Ok(TypeName::SelfType(path(alloc, own)?)),
        _ => named(alloc, word),
    }
}

fn read_word(
    alloc: Global,
    own: &str,
    word: &str,
    types: &mut Vec<TypeName>,
) -> Result<(), NoMemory> {
    let ty = match compound(alloc, word, types)? {
        Some(ty) => ty,
        None => single(alloc, own, word)?,
    };
    types.push(ty)?;
    Ok(())
}

/// The type that a text writes, in which `Self` stands for the path; none where the text is blank.
pub fn parse(alloc: Global, own: &str, text: &str) -> Result<Option<TypeName>, NoMemory> {
    let mut words = Vec::new(alloc);
    for word in text.split_whitespace() {
        words.push(word)?;
    }
    let mut types = Vec::new(alloc);
    for word in words.as_slice().iter().rev() {
        read_word(alloc, own, word, &mut types)?;
    }
    Ok(types.pop())
}

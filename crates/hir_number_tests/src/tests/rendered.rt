//! What is answered, in the notation of the rows: numbers stand for lifetimes, `s` for `'static`.

use bridge_ast::ItemPlace;
use bridge_decl::{Boxed, Items, Mutability, NoMemory, Text};
use hir_elide::ElideFault;
use hir_life::{Lifetime, Lifetimes, MaybeStatic};
use hir_number::{
    Breach, Kind, NumberFault, NumberedSignature, NumberedTraitMethod, NumberedType, Target,
    TraitTarget,
};

fn digit(number: usize) -> &'static str {
    match number % 10 {
        0 => "0",
        1 => "1",
        2 => "2",
        3 => "3",
        4 => "4",
        5 => "5",
        6 => "6",
        7 => "7",
        8 => "8",
        _ => "9",
    }
}

/// A number below ten thousand.
pub fn put_number(text: &mut String, number: usize) -> Result<(), NoMemory> {
    if number >= 1000 {
        text.push_str(digit(number / 1000))?;
    }
    if number >= 100 {
        text.push_str(digit(number / 100))?;
    }
    if number >= 10 {
        text.push_str(digit(number / 10))?;
    }
    text.push_str(digit(number))
}

pub fn put_lifetime(text: &mut String, lifetime: &MaybeStatic<Lifetime>) -> Result<(), NoMemory> {
    match lifetime {
        MaybeStatic::Static => text.push_str("s"),
        MaybeStatic::NonStatic(lifetime) => put_number(text, lifetime.index()),
    }
}

fn put_generics(text: &mut String, lifetimes: &Lifetimes) -> Result<(), NoMemory> {
    let mut before = "<";
    for lifetime in lifetimes.as_slice() {
        text.push_str(before)?;
        put_lifetime(text, lifetime)?;
        before = ",";
    }
    if lifetimes.len() > 0 {
        text.push_str(">")?;
    }
    Ok(())
}

/// The name of the item, which has that kind.
fn name_of(place: ItemPlace, kind: Kind) -> &'static str {
    match (place.item, kind) {
        (0, Kind::Opaque(Mutability::Immutable)) => "O",
        (1, Kind::Opaque(Mutability::Mutable)) => "A",
        (2, Kind::Struct) => "B",
        (3, Kind::OutStruct) => "X",
        (4, Kind::Enum) => "E",
        (6, Kind::Struct) => "S",
        _ => "?",
    }
}

fn put_target(text: &mut String, target: &Target) -> Result<(), NoMemory> {
    text.push_str(name_of(target.place, target.kind))?;
    put_generics(text, &target.lifetimes)
}

fn put_trait(text: &mut String, target: &TraitTarget) -> Result<(), NoMemory> {
    text.push_str(match target.place.item {
        5 => "T",
        6 => "R",
        _ => "?",
    })?;
    put_generics(text, &target.lifetimes)
}

fn put_borrow(
    text: &mut String,
    lifetime: &MaybeStatic<Lifetime>,
    mutability: Mutability,
) -> Result<(), NoMemory> {
    text.push_str("&")?;
    if mutability.is_mutable() {
        text.push_str("mut")?;
    }
    put_lifetime(text, lifetime)?;
    text.push_str(" ")
}

fn put_slice(
    text: &mut String,
    borrow: &Option<(MaybeStatic<Lifetime>, Mutability)>,
) -> Result<(), NoMemory> {
    text.push_str("[]")?;
    match borrow {
        Some((lifetime, mutability)) => put_borrow(text, lifetime, *mutability),
        None => text.push_str(" "),
    }
}

fn put_str(text: &mut String, lifetime: &Option<MaybeStatic<Lifetime>>) -> Result<(), NoMemory> {
    match lifetime {
        Some(lifetime) => put_borrow(text, lifetime, Mutability::Immutable)?,
        None => {}
    }
    text.push_str("str")
}

fn function_word(parameters: usize) -> &'static str {
    match parameters {
        0 => "Fn0 ",
        1 => "Fn1 ",
        _ => "Fn2 ",
    }
}

/// A type, each word before those that it takes.
#[cycle(puts)]
fn put_type(text: &mut String, ty: &NumberedType) -> Result<(), NoMemory> {
    match ty {
        NumberedType::Primitive(_) => text.push_str("u8"),
        NumberedType::Ordering => text.push_str("Ordering"),
        NumberedType::Named(target) => put_target(text, target),
        NumberedType::SelfType(target) => {
            text.push_str("Self:")?;
            put_target(text, target)
        }
        NumberedType::ImplTrait(target) => {
            text.push_str("impl:")?;
            put_trait(text, target)
        }
        NumberedType::Reference(lifetime, mutability, inner) => {
            put_borrow(text, lifetime, *mutability)?;
            put_boxed(text, inner)
        }
        NumberedType::Box(inner) => {
            text.push_str("Box ")?;
            put_boxed(text, inner)
        }
        NumberedType::Option(inner, _) => {
            text.push_str("Option ")?;
            put_boxed(text, inner)
        }
        NumberedType::Result(ok, err, _) => {
            text.push_str("Result ")?;
            put_boxed(text, ok)?;
            text.push_str(" ")?;
            put_boxed(text, err)
        }
        NumberedType::Write(_) => text.push_str("Write"),
        NumberedType::StrReference(lifetime, _, _) => put_str(text, lifetime),
        NumberedType::StrSlice(_, _) => text.push_str("[] str"),
        NumberedType::PrimitiveSlice(borrow, _, _) => {
            put_slice(text, borrow)?;
            text.push_str("u8")
        }
        NumberedType::CustomTypeSlice(borrow, element, _) => {
            put_slice(text, borrow)?;
            put_boxed(text, element)
        }
        NumberedType::Function(inputs, output, _) => {
            text.push_str(function_word(inputs.len()))?;
            put_each(text, inputs)?;
            put_boxed(text, output)
        }
        NumberedType::Unit => text.push_str("()"),
    }
}

#[cycle(puts)]
fn put_boxed(text: &mut String, ty: &Boxed<NumberedType>) -> Result<(), NoMemory> {
    put_type(text, ty.get())
}

/// The parameters of a callback.
#[cycle(puts)]
fn put_each(text: &mut String, types: &Items<NumberedType>) -> Result<(), NoMemory> {
    for ty in types.as_slice() {
        put_type(text, ty)?;
        text.push_str(" ")?;
    }
    Ok(())
}

/// Types, with semicolons between them.
fn put_types(text: &mut String, types: &Items<NumberedType>) -> Result<(), NoMemory> {
    let mut before = "";
    for ty in types.as_slice() {
        text.push_str(before)?;
        put_type(text, ty)?;
        before = "; ";
    }
    Ok(())
}

/// The column of the parameters.
fn put_params(text: &mut String, types: &Items<NumberedType>) -> Result<(), NoMemory> {
    put_types(text, types)?;
    if types.len() > 0 {
        text.push_str(" ")?;
    }
    text.push_str("| ")
}

fn put_output(text: &mut String, output: &Option<NumberedType>) -> Result<(), NoMemory> {
    match output {
        Some(ty) => {
            put_type(text, ty)?;
            text.push_str(" | ")
        }
        None => text.push_str("| "),
    }
}

fn put_self_borrow(
    text: &mut String,
    borrow: &Option<(MaybeStatic<Lifetime>, Mutability)>,
) -> Result<(), NoMemory> {
    match borrow {
        Some((lifetime, mutability)) => put_borrow(text, lifetime, *mutability),
        None => Ok(()),
    }
}

/// The receiver of a method.
fn put_receiver(text: &mut String, signature: &NumberedSignature) -> Result<(), NoMemory> {
    put_self_borrow(text, &signature.borrow)?;
    match &signature.own {
        Some(own) => {
            put_target(text, own)?;
            text.push_str(" | ")
        }
        None => text.push_str("| "),
    }
}

/// The receiver of a trait's method.
fn put_trait_receiver(text: &mut String, method: &NumberedTraitMethod) -> Result<(), NoMemory> {
    put_self_borrow(text, &method.borrow)?;
    match &method.own {
        Some(own) => {
            put_trait(text, own)?;
            text.push_str(" | ")
        }
        None => text.push_str("| "),
    }
}

/// The parameters, the return and the count of lifetimes.
fn put_signature(text: &mut String, signature: &NumberedSignature) -> Result<(), NoMemory> {
    put_params(text, &signature.params)?;
    put_output(text, &signature.output)?;
    put_number(text, signature.lifetimes.num_lifetimes())
}

/// The same of a trait's method.
fn put_trait_signature(text: &mut String, method: &NumberedTraitMethod) -> Result<(), NoMemory> {
    put_params(text, &method.params)?;
    put_output(text, &method.output)?;
    put_number(text, method.lifetimes.num_lifetimes())
}

fn elide_word(fault: ElideFault) -> &'static str {
    match fault {
        ElideFault::LifetimeUnknown => "LifetimeUnknown",
        ElideFault::AnonymousInDefinition => "AnonymousInDefinition",
        ElideFault::ElisionNoSource => "ElisionNoSource",
        ElideFault::ElisionAmbiguous => "ElisionAmbiguous",
        ElideFault::TooManyLifetimes => "TooManyLifetimes",
        ElideFault::BadIdent => "BadIdent",
        ElideFault::NoMemory => "NoMemory",
    }
}

fn fault_word(fault: NumberFault) -> &'static str {
    match fault {
        NumberFault::UnresolvedPath => "UnresolvedPath",
        NumberFault::LifetimeArity => "LifetimeArity",
        NumberFault::Elide(fault) => elide_word(fault),
        NumberFault::NoMemory => "NoMemory",
    }
}

pub fn put_fault(text: &mut String, fault: NumberFault) -> Result<(), NoMemory> {
    text.push_str(fault_word(fault))
}

/// A numbered method, or the fault.
pub fn put_method(
    text: &mut String,
    answer: &Result<NumberedSignature, NumberFault>,
) -> Result<(), NoMemory> {
    match answer {
        Ok(method) => {
            put_receiver(text, method)?;
            put_signature(text, method)
        }
        Err(fault) => put_fault(text, *fault),
    }
}

/// A numbered function, or the fault.
pub fn put_function(
    text: &mut String,
    answer: &Result<NumberedSignature, NumberFault>,
) -> Result<(), NoMemory> {
    match answer {
        Ok(function) => put_signature(text, function),
        Err(fault) => put_fault(text, *fault),
    }
}

/// A numbered method of a trait, or the fault.
pub fn put_trait_method(
    text: &mut String,
    answer: &Result<NumberedTraitMethod, NumberFault>,
) -> Result<(), NoMemory> {
    match answer {
        Ok(method) => {
            put_trait_receiver(text, method)?;
            put_trait_signature(text, method)
        }
        Err(fault) => put_fault(text, *fault),
    }
}

/// Numbered fields, or the fault.
pub fn put_fields(
    text: &mut String,
    answer: &Result<Items<NumberedType>, NumberFault>,
) -> Result<(), NoMemory> {
    match answer {
        Ok(types) => put_types(text, types),
        Err(fault) => put_fault(text, *fault),
    }
}

fn put_segments(text: &mut String, segments: &[Text]) -> Result<(), NoMemory> {
    for segment in segments {
        text.push_str(segment.as_str())?;
    }
    Ok(())
}

fn put_breach(text: &mut String, breach: &Breach<'_>) -> Result<(), NoMemory> {
    match *breach {
        Breach::UnresolvedPath(path) => {
            text.push_str("UnresolvedPath ")?;
            put_segments(text, path.segments.as_slice())
        }
        Breach::LifetimeArity(path) => {
            text.push_str("LifetimeArity ")?;
            put_segments(text, path.segments.as_slice())
        }
        Breach::SelfMismatch => text.push_str("SelfMismatch"),
        Breach::LifetimeUnknown(name) => {
            text.push_str("LifetimeUnknown ")?;
            text.push_str(name.as_str())
        }
        Breach::TooManyLifetimes => text.push_str("TooManyLifetimes"),
    }
}

/// All that is wrong, with semicolons between each two.
pub fn put_breaches(text: &mut String, breaches: &[Breach<'_>]) -> Result<(), NoMemory> {
    let mut before = "";
    for breach in breaches {
        text.push_str(before)?;
        put_breach(text, breach)?;
        before = "; ";
    }
    Ok(())
}

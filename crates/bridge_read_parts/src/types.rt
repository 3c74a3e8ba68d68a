//! Types.

ghost use Rattle.std.specs.Prelude.{◌≡◌, [], ◌∷◌, List};
ghost use Rattle.serde_json.specs.Data.{Data};
ghost use Rattle.serde_json.specs.View.{view};
ghost use Rattle.bridge_form.specs.declared.keys.Key.{Key as Name};
ghost use Rattle.bridge_form.specs.Form.{refined_at_of};
ghost use Rattle.bridge_form.specs.Reading.{list_of};
ghost use Rattle.bridge_form.specs.Given.{Gives};
ghost use Rattle.bridge_read_parts.specs.Taking.{Takes, held, needed};
ghost use Rattle.bridge_form.specs.Left.{IsLeft};
ghost use Rattle.bridge_read_parts.specs.forms.Types.{borrow_of, spelling, type_word, type_under, type_within, written_primitive, reference_type, result_type, custom_slice, callback, str_slice, str_list, primitive_slice, written_borrow};

use crate::lifetimes::mutability;
use crate::read_object;
use crate::reading::{
    FromForm, PartForms, flag, keys_of, needed, needed_word, optional, room_for, under_key,
};
use bridge_ast::StdlibOrDiplomat::{Diplomat, Stdlib};
use bridge_ast::{
    Boxed, Items, Lifetime, Mutability, PathType, PrimitiveType, StdlibOrDiplomat, TypeName,
    WriteType,
};
use bridge_form::{
    Fault, Fields, InputKind, Key, Read, ReadFault, entries, in_entry, in_member, sole, text,
};
use bridge_words::find_word;
use serde_json::Value;
use std::alloc::Global;

/// Whose spelling was used.
fn spelling(std: bool) -> StdlibOrDiplomat
    ensures { result ≡ spelling std }
{
    if std { Stdlib } else { Diplomat }
}

/// A type for which a word stands: a primitive type, `ordering` or `unit`.
#[tactic(auto, unfolding(crate::specs::forms::Types::type_word, crate::specs::forms::Types::type_called))]
fn type_word(alloc: Global, value: &Value) -> Read<TypeName>
    ensures { Gives result (type_word.read (view value.now)) }
{
    match text(alloc, value)? {
        "ordering" => Ok(TypeName::Ordering),
        "unit" => Ok(TypeName::Unit),
        word => Ok(TypeName::Primitive(find_word(word).ok_or(ReadFault::wrong_form(alloc))?)),
    }
}

/// The primitive type as what a writer takes, if a writer takes it.
#[tactic(auto, unfolding(crate::specs::forms::Types::written_primitive))]
fn written_primitive(primitive: PrimitiveType) -> Option<WriteType>
    ensures { result ≡ written_primitive primitive }
{
    match primitive {
        PrimitiveType::bool | PrimitiveType::char | PrimitiveType::byte => None,
        other => Some(WriteType::Primitive(other)),
    }
}

#[tactic(auto, unfolding(crate::specs::forms::Types::writer, crate::specs::forms::Types::writer_called))]
impl FromForm<PartForms> for WriteType {
    ghost use Rattle.bridge_read_parts.specs.forms.Types.{writer};

    ghost form = { writer.read };

    fn from_form(alloc: Global, value: Value) -> Read<WriteType> {
        match text(alloc, &value)? {
            "str" => Ok(WriteType::Str),
            "str16" => Ok(WriteType::Str16),
            word => {
                let taken = find_word(word).and_then(written_primitive);
                taken.ok_or(ReadFault::wrong_form(alloc))
            }
        }
    }
}

/// `{"lifetime": lifetime, "encoding": encoding, "std": bool}`.
#[tactic(auto, unfolding(crate::specs::forms::Types::str_slice, crate::specs::forms::Types::encoding, bridge_form::specs::Left::are_apart, bridge_form::specs::Keys::key_text))]
fn str_slice(alloc: Global, value: Value) -> Read<TypeName>
    ensures { Gives result (str_slice.read (view value)) }
{
    read_object!(alloc, value, left, {
        Lifetime => lifetime = optional(alloc, &mut left)?;
        Encoding => encoding = needed_word(alloc, &mut left)?;
        Std => std = flag(alloc, &mut left)?;
    } Ok(TypeName::StrReference(lifetime, encoding, spelling(std))))
}

/// `{"encoding": encoding, "std": bool}`.
#[tactic(auto, unfolding(crate::specs::forms::Types::str_list, crate::specs::forms::Types::encoding, bridge_form::specs::Left::are_apart, bridge_form::specs::Keys::key_text))]
fn str_list(alloc: Global, value: Value) -> Read<TypeName>
    ensures { Gives result (str_list.read (view value)) }
{
    read_object!(alloc, value, left, {
        Encoding => encoding = needed_word(alloc, &mut left)?;
        Std => std = flag(alloc, &mut left)?;
    } Ok(TypeName::StrSlice(encoding, spelling(std))))
}

/// The lifetime of a slice with its mutability. A slice without a lifetime is owned; that it is mutable is then the wrong form.
#[tactic(auto, unfolding(crate::specs::forms::Types::written_borrow))]
fn borrow(alloc: Global, left: &mut Fields) -> Read<Option<(Lifetime, Mutability)>>
    ensures { (keys : List Name) (d : Data)
        → IsLeft left.old (Key.Lifetime ∷ Key.Mutable ∷ keys) d
        → Takes result (refined_at_of Key.Mutable borrow_of written_borrow d) left.new keys d }
{
    let lifetime = optional(alloc, left)?;
    let mutable = flag(alloc, left)?;
    match lifetime {
        Some(lifetime) => Ok(Some((lifetime, mutability(mutable)))),
        None if mutable => {
            let fault = Fault::here(alloc, InputKind::WrongForm);
            Err(ReadFault::Bad(fault.under(alloc, Key::Mutable)?))
        }
        None => Ok(None),
    }
}

/// `{"lifetime": lifetime, "mutable": bool, "of": primitive type, "std": bool}`.
#[tactic(auto, unfolding(crate::specs::forms::Types::primitive_slice, crate::specs::forms::Types::primitive_name, crate::specs::forms::Types::borrow, crate::specs::forms::Types::written_borrow, bridge_form::specs::Left::are_apart, bridge_form::specs::Keys::key_text))]
fn primitive_slice(alloc: Global, value: Value) -> Read<TypeName>
    ensures { Gives result (primitive_slice.read (view value)) }
{
    read_object!(alloc, value, left, {
        Lifetime Mutable => borrow = borrow(alloc, &mut left)?;
        Of => of = needed_word(alloc, &mut left)?;
        Std => std = flag(alloc, &mut left)?;
    } Ok(TypeName::PrimitiveSlice(borrow, of, spelling(std))))
}

/// A type as what a type leads to.
#[cycle(types)]
fn boxed(alloc: Global, value: Value, levels: usize) -> Read<Boxed<TypeName>>
    ensures { Gives result ((type_within levels).read (view value)) }
{
    Ok(Boxed::new(alloc, type_within(alloc, value, levels)?)?)
}

/// A type under the next key, which is required, as what a type leads to.
#[cycle(types)]
fn needed_type(alloc: Global, left: &mut Fields, levels: usize) -> Read<Boxed<TypeName>>
    ensures { (key : Name) (keys : List Name) (d : Data) → IsLeft left.old (key ∷ keys) d
        → Takes result (needed (type_within levels).read key d) left.new keys d }
{
    match left.next() {
        Some((key, Some(value))) => in_member(alloc, key, boxed(alloc, value, levels)),
        _ => Err(ReadFault::missing_key(alloc)),
    }
}

/// `{"lifetime": lifetime, "mutable": bool, "to": type}`.
#[cycle(types)]
#[tactic(auto, unfolding(bridge_form::specs::Left::are_apart, bridge_form::specs::Keys::key_text))]
fn reference_type(alloc: Global, value: Value, levels: usize) -> Read<TypeName>
    ensures { Gives result ((reference_type (type_within levels)).read (view value)) }
{
    read_object!(alloc, value, left, {
        Lifetime => lifetime = needed(alloc, &mut left)?;
        Mutable => mutable = flag(alloc, &mut left)?;
        To => to = needed_type(alloc, &mut left, levels)?;
    } Ok(TypeName::Reference(lifetime, mutability(mutable), to)))
}

/// `{"ok": type, "err": type}`.
#[cycle(types)]
#[tactic(auto, unfolding(bridge_form::specs::Left::are_apart, bridge_form::specs::Keys::key_text))]
fn result_type(
    alloc: Global,
    value: Value,
    whose: StdlibOrDiplomat,
    levels: usize,
) -> Read<TypeName>
    ensures { Gives result ((result_type (type_within levels) whose).read (view value)) }
{
    read_object!(alloc, value, left, {
        OkType => ok = needed_type(alloc, &mut left, levels)?;
        ErrType => err = needed_type(alloc, &mut left, levels)?;
    } Ok(TypeName::Result(ok, err, whose)))
}

/// `{"lifetime": lifetime, "mutable": bool, "of": type, "std": bool}`.
#[cycle(types)]
#[tactic(auto, unfolding(crate::specs::forms::Types::borrow, crate::specs::forms::Types::written_borrow, bridge_form::specs::Left::are_apart, bridge_form::specs::Keys::key_text))]
fn custom_slice(alloc: Global, value: Value, levels: usize) -> Read<TypeName>
    ensures { Gives result ((custom_slice (type_within levels)).read (view value)) }
{
    read_object!(alloc, value, left, {
        Lifetime Mutable => borrow = borrow(alloc, &mut left)?;
        Of => of = needed_type(alloc, &mut left, levels)?;
        Std => std = flag(alloc, &mut left)?;
    } Ok(TypeName::CustomTypeSlice(borrow, of, spelling(std))))
}

/// The types of a list.
#[cycle(types)]
fn type_list(alloc: Global, value: Value, levels: usize) -> Read<Items<TypeName>>
    ensures { Gives result (list_of (type_within levels).read (view value)) }
{
    let entries = entries(alloc, value)?;
    let mut list = room_for(alloc, entries.len())?;
    for entry in entries {
        let number = list.as_slice().len();
        list.push(in_entry(number, type_within(alloc, entry, levels))?)?;
    }
    Ok(list)
}

/// The types of parameters under the next key; none where nothing stands there.
#[cycle(types)]
fn types_under(alloc: Global, left: &mut Fields, levels: usize) -> Read<Items<TypeName>>
    ensures { (key : Name) (keys : List Name) (d : Data) → IsLeft left.old (key ∷ keys) d
        → Takes result (held [] (list_of (type_within levels).read) key d) left.new keys d }
{
    match left.next() {
        Some((key, Some(value))) => in_member(alloc, key, type_list(alloc, value, levels)),
        _ => Ok(Items::new(alloc)),
    }
}

/// The type under the next key, as what a type leads to; `()` where nothing stands there.
#[cycle(types)]
fn type_or_unit(alloc: Global, left: &mut Fields, levels: usize) -> Read<Boxed<TypeName>>
    ensures { (key : Name) (keys : List Name) (d : Data) → IsLeft left.old (key ∷ keys) d
        → Takes result (held TypeName.Unit (type_within levels).read key d) left.new keys d }
{
    match left.next() {
        Some((key, Some(value))) => in_member(alloc, key, boxed(alloc, value, levels)),
        _ => Ok(Boxed::new(alloc, TypeName::Unit)?),
    }
}

/// `{"params": [types], "ret": type, "mutable": bool}`.
#[cycle(types)]
#[tactic(auto, unfolding(bridge_form::specs::Left::are_apart, bridge_form::specs::Keys::key_text))]
fn callback(alloc: Global, value: Value, levels: usize) -> Read<TypeName>
    ensures { Gives result ((callback (type_within levels)).read (view value)) }
{
    read_object!(alloc, value, left, {
        Params => params = types_under(alloc, &mut left, levels)?;
        Ret => ret = type_or_unit(alloc, &mut left, levels)?;
        Mutable => mutable = flag(alloc, &mut left)?;
    } Ok(TypeName::Function(params, ret, mutability(mutable))))
}

/// The rows of a type: each key, and what is read under it.
macro_rules! type_rows {
    ($then:ident $key:ident $alloc:ident $value:ident $levels:ident) => {
        $then!($key $alloc {
            Named => Ok(TypeName::Named(PathType::from_form($alloc, $value)?)),
            Itself => Ok(TypeName::SelfType(PathType::from_form($alloc, $value)?)),
            ImplTrait => Ok(TypeName::ImplTrait(PathType::from_form($alloc, $value)?)),
            Ref => reference_type($alloc, $value, $levels),
            Boxed => Ok(TypeName::Box(boxed($alloc, $value, $levels)?)),
            StdOption => Ok(TypeName::Option(boxed($alloc, $value, $levels)?, Stdlib)),
            DiplomatOption => Ok(TypeName::Option(boxed($alloc, $value, $levels)?, Diplomat)),
            StdResult => result_type($alloc, $value, Stdlib, $levels),
            DiplomatResult => result_type($alloc, $value, Diplomat, $levels),
            Write => Ok(TypeName::Write(WriteType::from_form($alloc, $value)?)),
            Str => str_slice($alloc, $value),
            Strs => str_list($alloc, $value),
            Slice => primitive_slice($alloc, $value),
            CustomSlice => custom_slice($alloc, $value, $levels),
            Callback => callback($alloc, $value, $levels),
        })
    };
}

/// What stands under the key of a type, by the key.
#[cycle(types)]
fn type_under(alloc: Global, key: Key, value: Value, levels: usize) -> Read<TypeName>
    ensures { Gives result ((type_under (type_within levels) key).read (view value)) }
{
    type_rows!(under_key key alloc value levels)
}

/// A type in which types nest at most so deep.
#[cycle(types)]
#[tactic(auto, unfolding(bridge_form::specs::Left::are_apart, bridge_form::specs::Keys::key_text))]
fn type_within(alloc: Global, value: Value, levels: usize) -> Read<TypeName>
    ensures { Gives result ((type_within levels).read (view value)) }
{
    let Some(inner) = levels.checked_sub(1) else {
        return Err(ReadFault::wrong_form(alloc));
    };
    if let Some(_) = value.as_str() {
        return type_word(alloc, &value);
    }
    let (key, found) = sole(alloc, value, type_rows!(keys_of key alloc value levels))?;
    in_member(alloc, key, type_under(alloc, key, found, inner))
}

#[tactic(auto, unfolding(crate::specs::forms::Types::type_name))]
impl FromForm<PartForms> for TypeName {
    ghost use Rattle.bridge_read_parts.specs.forms.Types.{type_name};

    ghost form = { type_name.read };

    fn from_form(alloc: Global, value: Value) -> Read<TypeName> {
        type_within(alloc, value, 128)
    }
}

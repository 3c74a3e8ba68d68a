//! Methods that a target language treats in a way of its own: constructors, accessors, operators.

mod kind;

ghost use Rattle.std.specs.Prelude.{◌≡◌, ◌↔◌, IfOk, IsErrOf, option_map};
ghost use Rattle.std.specs.Option.{option_copied};
ghost use Rattle.hir_attrs.specs.Special.{as_reading, given_to, special_kind, operator_text, special_of, special_reading};
ghost use Rattle.hir_attrs.specs.declared.special.MarkFault.{MarkFault};
ghost use Rattle.hir_attrs.specs.Special.SpecialReading.{WrongArgument};

use bridge_decl::{Lit, Meta, MetaValue, NoMemory, Text, clone_option};
pub use kind::SpecialKind;
use std::alloc::{AllocError, Global};
use thiserror::Error;

/// What a method is marked as. As `diplomat_core::hir::SpecialMethod`.
#[derive(Drop)]
pub enum SpecialMethod {
    /// Makes a value of the type, and is called as the type is.
    Constructor,
    /// Makes a value of the type under a name of its own, by default that of the method.
    NamedConstructor(Option<Text>),
    /// Reads a property, by default of the method's name.
    Getter(Option<Text>),
    /// Writes a property, by default of the method's name.
    Setter(Option<Text>),
    /// Makes a text of a value.
    Stringifier,
    /// Compares two values. Whether it can leave them incomparable is found where its return is lowered.
    Comparison(bool),
    /// Gives the next element.
    Iterator,
    /// Makes an iterator.
    Iterable,
    /// The operator `[]`.
    Indexer,
    /// The operator `+`.
    Add,
    /// The operator `-`.
    Sub,
    /// The operator `*`.
    Mul,
    /// The operator `/`.
    Div,
    /// The operator `+=`.
    AddAssign,
    /// The operator `-=`.
    SubAssign,
    /// The operator `*=`.
    MulAssign,
    /// The operator `/=`.
    DivAssign,
}

/// Why a mark gives no special method.
#[derive(Clone, Copy, Debug, Error, PartialEq, Eq)]
pub enum MarkFault {
    /// The argument is neither absent nor a string.
    #[error("Argument")]
    Argument,
    /// There was no memory for the name.
    #[error("NoMemory")]
    NoMemory,
}

impl From<AllocError> for MarkFault {
    ghost use Rattle.std.specs.Prelude.{◌≡◌};
    ghost use Rattle.hir_attrs.specs.declared.special.MarkFault.{MarkFault};

    ghost from_gives = { λ _ fault. fault ≡ MarkFault.NoMemory };

    fn from(_error: AllocError) -> MarkFault {
        MarkFault::NoMemory
    }
}

/// The name that a special method is given, where its kind takes one: for none the method's own. None where the argument is no name.
fn given_to(kind: SpecialKind, value: &MetaValue) -> Option<Option<&Text>>
    ensures { option_map (λ name. option_copied name) result ≡ given_to kind value.now }
{
    if !kind.takes_name() {
        return Some(None);
    }
    match value {
        MetaValue::Empty => Some(None),
        MetaValue::Literal(Lit::Str(text)) => Some(Some(text)),
        _ => None,
    }
}

/// A copy of a name, if there is one.
fn owned(alloc: Global, name: Option<&Text>) -> Result<Option<Text>, NoMemory>
    ensures { IfOk result (λ copy. copy ≡ option_copied name.entry) }
{
    match name {
        Some(name) => Ok(Some(name.try_clone(alloc)?)),
        None => Ok(None),
    }
}

/// The special method of a kind, with that name where the kind takes one.
fn special_of(kind: SpecialKind, name: Option<Text>) -> SpecialMethod
    ensures { result ≡ special_of kind name }
{
    match kind {
        SpecialKind::Constructor => SpecialMethod::Constructor,
        SpecialKind::NamedConstructor => SpecialMethod::NamedConstructor(name),
        SpecialKind::Getter => SpecialMethod::Getter(name),
        SpecialKind::Setter => SpecialMethod::Setter(name),
        SpecialKind::Stringifier => SpecialMethod::Stringifier,
        SpecialKind::Comparison => SpecialMethod::Comparison(false),
        SpecialKind::Iterator => SpecialMethod::Iterator,
        SpecialKind::Iterable => SpecialMethod::Iterable,
        SpecialKind::Indexer => SpecialMethod::Indexer,
        SpecialKind::Add => SpecialMethod::Add,
        SpecialKind::Sub => SpecialMethod::Sub,
        SpecialKind::Mul => SpecialMethod::Mul,
        SpecialKind::Div => SpecialMethod::Div,
        SpecialKind::AddAssign => SpecialMethod::AddAssign,
        SpecialKind::SubAssign => SpecialMethod::SubAssign,
        SpecialKind::MulAssign => SpecialMethod::MulAssign,
        SpecialKind::DivAssign => SpecialMethod::DivAssign,
    }
}

impl SpecialMethod {
    /// The special method that a mark of that name stands for, with the name that its argument gives. None exactly where no special
    /// method has that name. `Argument` exactly where it is one that takes a name and the argument is neither absent nor a string; any
    /// other kind takes any argument, and leaves it aside.
    pub fn from_path_and_meta(
        alloc: Global,
        path: &str,
        meta: &Meta,
    ) -> Result<Option<SpecialMethod>, MarkFault>
        ensures found { IfOk result
            (λ found. special_reading path.now meta.now.value ≡ as_reading found) }
        ensures argument { IsErrOf result MarkFault.Argument
            ↔ (special_reading path.now meta.now.value ≡ WrongArgument) }
    {
        let Some(kind) = SpecialKind::named(path) else {
            return Ok(None);
        };
        match given_to(kind, &meta.value) {
            Some(name) => Ok(Some(special_of(kind, owned(alloc, name)?))),
            None => Err(MarkFault::Argument),
        }
    }

    /// The operator that the method overloads. None where it overloads none.
    #[tactic(auto, unfolding(crate::specs::Special::operator_text))]
    pub fn operator_str(&self) -> Option<&'static str>
        ensures { option_copied result ≡ operator_text self.now }
    {
        match self {
            SpecialMethod::Constructor => None,
            SpecialMethod::NamedConstructor(_) => None,
            SpecialMethod::Getter(_) => None,
            SpecialMethod::Setter(_) => None,
            SpecialMethod::Stringifier => None,
            SpecialMethod::Comparison(_) => None,
            SpecialMethod::Iterator => None,
            SpecialMethod::Iterable => None,
            SpecialMethod::Indexer => Some("[]"),
            SpecialMethod::Add => Some("+"),
            SpecialMethod::Sub => Some("-"),
            SpecialMethod::Mul => Some("*"),
            SpecialMethod::Div => Some("/"),
            SpecialMethod::AddAssign => Some("+="),
            SpecialMethod::SubAssign => Some("-="),
            SpecialMethod::MulAssign => Some("*="),
            SpecialMethod::DivAssign => Some("/="),
        }
    }

    /// Its kind, by which a mark spells it.
    #[tactic(auto, unfolding(crate::specs::Special::special_kind))]
    pub fn kind(&self) -> SpecialKind
        ensures { result ≡ special_kind self.now }
    {
        match self {
            SpecialMethod::Constructor => SpecialKind::Constructor,
            SpecialMethod::NamedConstructor(_) => SpecialKind::NamedConstructor,
            SpecialMethod::Getter(_) => SpecialKind::Getter,
            SpecialMethod::Setter(_) => SpecialKind::Setter,
            SpecialMethod::Stringifier => SpecialKind::Stringifier,
            SpecialMethod::Comparison(_) => SpecialKind::Comparison,
            SpecialMethod::Iterator => SpecialKind::Iterator,
            SpecialMethod::Iterable => SpecialKind::Iterable,
            SpecialMethod::Indexer => SpecialKind::Indexer,
            SpecialMethod::Add => SpecialKind::Add,
            SpecialMethod::Sub => SpecialKind::Sub,
            SpecialMethod::Mul => SpecialKind::Mul,
            SpecialMethod::Div => SpecialKind::Div,
            SpecialMethod::AddAssign => SpecialKind::AddAssign,
            SpecialMethod::SubAssign => SpecialKind::SubAssign,
            SpecialMethod::MulAssign => SpecialKind::MulAssign,
            SpecialMethod::DivAssign => SpecialKind::DivAssign,
        }
    }

    /// A copy, which is equal to the special method.
    pub fn try_clone(&self, alloc: Global) -> Result<SpecialMethod, NoMemory>
        ensures { IfOk result (λ copy. copy ≡ self.now) }
    {
        match self {
            SpecialMethod::Constructor => Ok(SpecialMethod::Constructor),
            SpecialMethod::NamedConstructor(name) => Ok(SpecialMethod::NamedConstructor(
                clone_option(alloc, name, Text::try_clone)?,
            )),
            SpecialMethod::Getter(name) => Ok(SpecialMethod::Getter(clone_option(
                alloc,
                name,
                Text::try_clone,
            )?)),
            SpecialMethod::Setter(name) => Ok(SpecialMethod::Setter(clone_option(
                alloc,
                name,
                Text::try_clone,
            )?)),
            SpecialMethod::Stringifier => Ok(SpecialMethod::Stringifier),
            SpecialMethod::Comparison(is_partial) => Ok(SpecialMethod::Comparison(*is_partial)),
            SpecialMethod::Iterator => Ok(SpecialMethod::Iterator),
            SpecialMethod::Iterable => Ok(SpecialMethod::Iterable),
            SpecialMethod::Indexer => Ok(SpecialMethod::Indexer),
            SpecialMethod::Add => Ok(SpecialMethod::Add),
            SpecialMethod::Sub => Ok(SpecialMethod::Sub),
            SpecialMethod::Mul => Ok(SpecialMethod::Mul),
            SpecialMethod::Div => Ok(SpecialMethod::Div),
            SpecialMethod::AddAssign => Ok(SpecialMethod::AddAssign),
            SpecialMethod::SubAssign => Ok(SpecialMethod::SubAssign),
            SpecialMethod::MulAssign => Ok(SpecialMethod::MulAssign),
            SpecialMethod::DivAssign => Ok(SpecialMethod::DivAssign),
        }
    }
}

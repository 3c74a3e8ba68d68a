//! What is wrong with an input, and where.

ghost use Rattle.std.specs.Prelude.{◌≡◌, IfOk};
ghost use Rattle.bridge_form.specs.declared.pointer.Step.TheVariants as step;
ghost use Rattle.bridge_form.specs.declared.fault.ReadFault.TheVariants.{NoMemory as no_memory};

use crate::keys::Key;
use crate::pointer::{Pointer, Step};
use bridge_text::{NoMemory, Text};
use std::alloc::{AllocError, AllocFailed, Global};

/// What is wrong with an input.
#[derive(Clone, Copy, Debug, PartialEq, Eq)]
pub enum InputKind {
    /// The bytes are no JSON text (RFC 8259) in UTF-8, or one that nests more than 127 deep or has a number beyond a 64-bit
    /// float's range.
    NotJson,
    /// A key that the object doesn't have.
    UnknownKey,
    /// A required key is absent or null.
    MissingKey,
    /// The value hasn't the form of its key.
    WrongForm,
    /// An earlier module of the same module has the name.
    DuplicateModule,
    /// An earlier item or alias of the module has the name; at a module, an item or alias of the module that it stands in.
    DuplicateItem,
    /// An earlier lifetime of the same list has the name.
    DuplicateLifetime,
    /// A bound has a number that no lifetime of the list has.
    BoundOutOfRange,
    /// A bound is listed at one of its ends alone.
    BoundOneSided,
}

#[tactic(auto, unfolding(crate::specs::KindTexts::kind_text))]
impl InputKind {
    ghost use Rattle.bridge_form.specs.KindTexts.{kind_text};

    /// The words for the kind.
    pub fn text(self) -> &'static str
        ensures { result.now ≡ kind_text self }
    {
        match self {
            InputKind::NotJson => "not JSON",
            InputKind::UnknownKey => "unknown key",
            InputKind::MissingKey => "missing key",
            InputKind::WrongForm => "wrong form",
            InputKind::DuplicateModule => "duplicate module",
            InputKind::DuplicateItem => "duplicate item",
            InputKind::DuplicateLifetime => "duplicate lifetime",
            InputKind::BoundOutOfRange => "bound out of range",
            InputKind::BoundOneSided => "bound one-sided",
        }
    }
}

/// A fault of an input, and where it stands.
#[derive(Drop)]
pub struct Fault {
    /// What is wrong.
    pub kind: InputKind,
    /// Where.
    pub at: Pointer,
}

impl Fault {
    ghost use Rattle.bridge_form.specs.Reading.{at_key, here, within};

    /// A fault of the value itself.
    pub fn here(alloc: Global, kind: InputKind) -> Fault
        ensures { result ≡ here kind }
    {
        Fault {
            kind,
            at: Pointer::here(alloc),
        }
    }

    /// The fault of a key that an object doesn't have.
    pub fn unknown_key(alloc: Global, name: &str) -> Result<Fault, NoMemory>
        ensures { IfOk result
            (λ fault. fault ≡ within (step.Member name.now) (here InputKind.UnknownKey)) }
    {
        Fault::here(alloc, InputKind::UnknownKey).within(Step::Member(Text::new(alloc, name)?))
    }

    /// The fault, as one of the object under whose key the value stands.
    pub fn under(self, alloc: Global, key: Key) -> Result<Fault, NoMemory>
        ensures { IfOk result (λ fault. fault ≡ within (at_key key) self) }
    {
        self.within(Step::Member(Text::new(alloc, key.text())?))
    }

    /// The fault, as one of the value that the step leads out of.
    pub fn within(self, step: Step) -> Result<Fault, NoMemory>
        ensures { IfOk result (λ fault. fault ≡ within step self) }
    {
        Ok(Fault {
            kind: self.kind,
            at: self.at.within(step)?,
        })
    }
}

/// Why a value isn't read.
#[derive(Drop)]
pub enum ReadFault {
    /// It has a fault, and none before it.
    Bad(Fault),
    /// Memory ran out.
    NoMemory,
}

/// What is read of a value, or why it isn't.
pub type Read<T> = Result<T, ReadFault>;

impl ReadFault {
    ghost use Rattle.bridge_form.specs.Reading.{here};

    /// The value hasn't the form that it has to have.
    pub fn wrong_form(alloc: Global) -> ReadFault
        ensures { result ≡ ReadFault.Bad (here InputKind.WrongForm) }
    {
        ReadFault::Bad(Fault::here(alloc, InputKind::WrongForm))
    }

    /// Nothing stands under a key that is required.
    pub fn missing_key(alloc: Global) -> ReadFault
        ensures { result ≡ ReadFault.Bad (here InputKind.MissingKey) }
    {
        ReadFault::Bad(Fault::here(alloc, InputKind::MissingKey))
    }
}

impl From<AllocError> for ReadFault {
    ghost from_gives = { λ _ fault. fault ≡ no_memory };

    fn from(_refused: AllocError) -> ReadFault {
        ReadFault::NoMemory
    }
}

impl<T: Drop> From<AllocFailed<T>> for ReadFault {
    ghost from_gives = { λ _ fault. fault ≡ no_memory };

    fn from(_refused: AllocFailed<T>) -> ReadFault {
        ReadFault::NoMemory
    }
}

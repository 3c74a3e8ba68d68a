//! Who owns a value: it is borrowed for a lifetime, or handed over.

ghost use Rattle.std.specs.Prelude.{◌≡◌, ◌↔◌, IsTrue, IsNone, Some, option_copied, option_map};
ghost use Rattle.hir_ids.specs.Owners.{lent, mutability_of, owner_of};
ghost use Rattle.hir_ids.specs.declared.owners.Borrow.{Borrow};

use bridge_decl::Mutability;
use hir_life::{Lifetime, MaybeStatic};

/// Whether a position is one of inputs, of outputs or of both.
#[derive(Clone, Copy, PartialEq, Eq, Debug)]
pub enum InputOrOutput {
    /// What a method takes.
    Input,
    /// What a method returns.
    Output,
    /// Either.
    InputOutput,
}

/// A borrow: `&'a T` or `&'a mut T`.
#[derive(Clone, Copy)]
pub struct Borrow {
    /// For how long.
    pub lifetime: MaybeStatic<Lifetime>,
    /// Whether it may be written through.
    pub mutability: Mutability,
}

/// Owned or borrowed. What is owned is a struct by value, an opaque in a box, or a slice in one.
#[derive(Clone, Copy)]
pub enum MaybeOwn {
    /// Owned.
    Own,
    /// Borrowed.
    Borrow(Borrow),
}

impl MaybeOwn {
    /// The borrow, where it is one.
    pub fn as_borrowed(&self) -> Option<&Borrow>
        ensures { option_copied result ≡ lent self.now }
    {
        match self {
            MaybeOwn::Own => None,
            MaybeOwn::Borrow(borrow) => Some(borrow),
        }
    }

    /// Whether it is owned.
    pub fn is_owned(&self) -> bool
        ensures { IsTrue result ↔ (self.now ≡ MaybeOwn.Own) }
    {
        matches!(self, MaybeOwn::Own)
    }

    /// Whether the value may be changed: what is owned may be, and of a borrow it is said there.
    pub fn mutability(&self) -> Mutability
        ensures { result ≡ mutability_of self.now }
    {
        match self {
            MaybeOwn::Own => Mutability::Mutable,
            MaybeOwn::Borrow(borrow) => borrow.mutability,
        }
    }
}

/// The borrow, or owned where there is none.
impl From<Option<Borrow>> for MaybeOwn {
    ghost from_gives = { λ borrow made. made ≡ owner_of borrow };

    fn from(borrow: Option<Borrow>) -> MaybeOwn {
        match borrow {
            Some(borrow) => MaybeOwn::Borrow(borrow),
            None => MaybeOwn::Own,
        }
    }
}

/// Whether an opaque may be absent: `Option<&T>` or `Option<Box<T>>`.
#[derive(Clone, Copy, PartialEq, Eq, Debug)]
pub struct Optional(bool);

impl Optional {
    /// The marker of what may be absent, or of what may not.
    pub fn new(optional: bool) -> Optional
        ensures { result.0 ≡ optional }
    {
        Optional(optional)
    }

    /// Whether it may be absent.
    pub fn get(&self) -> bool
        ensures { result ≡ self.now.0 }
    {
        self.0
    }
}

/// The marker of an opaque that is always there, as a receiver.
#[derive(Clone, Copy, PartialEq, Eq, Debug)]
pub struct NonOptional;

/// How an opaque is held, which is always behind a pointer: borrowed, or in a box.
pub trait OpaqueOwner {
    ghost use Rattle.std.specs.Prelude.{Option};

    /// The borrow, where it is one.
    ghost borrow_of: { Self → Option Borrow };

    /// Whether the borrow may be written through. None where there is no borrow.
    fn mutability(&self) -> Option<Mutability>
        ensures { result ≡ option_map (λ b. b.mutability) (borrow_of self.now) };

    /// Whether there is no borrow.
    fn is_owned(&self) -> bool
        ensures { IsTrue result ↔ IsNone (borrow_of self.now) };

    /// The lifetime of the borrow. None exactly where the opaque is owned.
    fn lifetime(&self) -> Option<MaybeStatic<Lifetime>>
        ensures { result ≡ option_map (λ b. b.lifetime) (borrow_of self.now) };
}

impl OpaqueOwner for MaybeOwn {
    ghost borrow_of = { lent };

    fn mutability(&self) -> Option<Mutability> {
        match self {
            MaybeOwn::Own => None,
            MaybeOwn::Borrow(borrow) => Some(borrow.mutability),
        }
    }

    fn is_owned(&self) -> bool {
        matches!(self, MaybeOwn::Own)
    }

    fn lifetime(&self) -> Option<MaybeStatic<Lifetime>> {
        match self {
            MaybeOwn::Own => None,
            MaybeOwn::Borrow(borrow) => Some(borrow.lifetime),
        }
    }
}

impl OpaqueOwner for Borrow {
    ghost borrow_of = { λ borrow. Some borrow };

    fn mutability(&self) -> Option<Mutability> {
        Some(self.mutability)
    }

    fn is_owned(&self) -> bool {
        false
    }

    fn lifetime(&self) -> Option<MaybeStatic<Lifetime>> {
        Some(self.lifetime)
    }
}

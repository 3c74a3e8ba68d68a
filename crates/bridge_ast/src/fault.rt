//! What keeps modules from being an environment, and where it stands.

ghost use Rattle.std.specs.Prelude.{◌≡◌};
ghost use Rattle.bridge_ast.specs.declared.fault.EnvFault.TheVariants.{NoMemory};

use std::alloc::{AllocError, AllocFailed};

/// What is wrong at a place.
#[derive(Clone, Copy, Debug, PartialEq, Eq)]
pub enum EnvFaultKind {
    /// An earlier module has the path.
    DuplicateModule,
    /// The path isn't empty, and no earlier module has the path without its last segment.
    ParentMissing,
    /// An earlier item or alias of the module has the name. Items count before aliases, and aliases before submodules.
    DuplicateItem,
    /// An earlier lifetime of the same environment has the name.
    DuplicateLifetime,
    /// A bound has a number that no lifetime of the environment has.
    BoundOutOfRange,
    /// A bound is listed at one of its ends alone.
    BoundOneSided,
}

/// A part of a module.
#[derive(Clone, Copy, Debug, PartialEq, Eq)]
pub enum EnvPart {
    /// The module itself.
    Module,
    /// The item of a number.
    Item(usize),
    /// The alias of a number.
    Alias(usize),
    /// A declared lifetime: of the item itself, or of the method of a number.
    Node {
        /// The number of the item.
        item: usize,
        /// The number of the method; none for the item itself.
        method: Option<usize>,
        /// The number of the lifetime.
        node: usize,
    },
}

/// Where something stands in a list of modules.
#[derive(Clone, Copy, Debug, PartialEq, Eq)]
pub struct EnvPlace {
    /// The number of the module.
    pub module: usize,
    /// The part of it.
    pub part: EnvPart,
}

/// Why modules make no environment.
#[derive(Clone, Copy, Debug, PartialEq, Eq)]
pub enum EnvFault {
    /// A rule is broken.
    Bad {
        /// What is wrong.
        kind: EnvFaultKind,
        /// Where.
        at: EnvPlace,
        /// The earlier place of what stands twice; none for the other kinds.
        other: Option<EnvPlace>,
    },
    /// Memory ran out.
    NoMemory,
}

impl From<AllocError> for EnvFault {
    ghost from_gives = { λ _ fault. fault ≡ NoMemory };

    fn from(_refused: AllocError) -> EnvFault {
        EnvFault::NoMemory
    }
}

impl<T: Drop> From<AllocFailed<T>> for EnvFault {
    ghost from_gives = { λ _ fault. fault ≡ NoMemory };

    fn from(_refused: AllocFailed<T>) -> EnvFault {
        EnvFault::NoMemory
    }
}

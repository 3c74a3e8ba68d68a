//! Where types stand.

ghost use Rattle.hir_ids.specs.declared.owners.InputOrOutput.{InputOrOutput};

use crate::callbacks::{Callback, NoCallback};
use crate::copies::CopiesSome;
use crate::paths::{NoTraitPath, ReturnableStructPath, StructPath, StructPathLike, TraitPath};
use hir_ids::{Borrow, InputOrOutput, MaybeOwn, OpaqueOwner, OutStructId, StructId};

/// Where a type stands, and so of what it is made: see the table at the head of the crate.
pub trait TyPosition: Copy {
    /// What a callback is here.
    type CallbackInstantiation: CopiesSome + Drop;
    /// How an opaque is held here.
    type OpaqueOwnership: OpaqueOwner + Copy;
    /// By what a struct is found here.
    type StructId: Copy;
    /// How a struct is named here.
    type StructPath: StructPathLike + Drop;
    /// How a trait is named here.
    type TraitPath: CopiesSome + Drop;

    /// Whether it is a position of inputs, of outputs or of both.
    ghost IN_OUT_STATUS: { InputOrOutput };

    /// Whether it is a position of inputs, of outputs or of both.
    const IN_OUT_STATUS: InputOrOutput;
}

/// What may stand in inputs and outputs: the fields of structs.
#[derive(Clone, Copy)]
pub struct Everywhere;

/// What methods take.
#[derive(Clone, Copy)]
pub struct InputOnly;

/// What methods return, what callbacks take, and the fields of structs that are only returned.
#[derive(Clone, Copy)]
pub struct OutputOnly;

/// What callbacks and the methods of traits return: it comes in, as what methods take does, but no
/// callback is among it.
#[derive(Clone, Copy)]
pub struct CallbackReturn;

impl TyPosition for Everywhere {
    type CallbackInstantiation = NoCallback;

    type OpaqueOwnership = Borrow;

    type StructId = StructId;

    type StructPath = StructPath;

    type TraitPath = NoTraitPath;

    ghost IN_OUT_STATUS = { InputOrOutput.InputOutput };

    const IN_OUT_STATUS: InputOrOutput = InputOrOutput::InputOutput;
}

impl TyPosition for InputOnly {
    type CallbackInstantiation = Callback;

    type OpaqueOwnership = Borrow;

    type StructId = StructId;

    type StructPath = StructPath;

    type TraitPath = TraitPath;

    ghost IN_OUT_STATUS = { InputOrOutput.Input };

    const IN_OUT_STATUS: InputOrOutput = InputOrOutput::Input;
}

impl TyPosition for OutputOnly {
    type CallbackInstantiation = NoCallback;

    type OpaqueOwnership = MaybeOwn;

    type StructId = OutStructId;

    type StructPath = ReturnableStructPath;

    type TraitPath = NoTraitPath;

    ghost IN_OUT_STATUS = { InputOrOutput.Output };

    const IN_OUT_STATUS: InputOrOutput = InputOrOutput::Output;
}

impl TyPosition for CallbackReturn {
    type CallbackInstantiation = NoCallback;

    type OpaqueOwnership = Borrow;

    type StructId = StructId;

    type StructPath = StructPath;

    type TraitPath = TraitPath;

    ghost IN_OUT_STATUS = { InputOrOutput.Input };

    const IN_OUT_STATUS: InputOrOutput = InputOrOutput::Input;
}

//! Names by what they stand for, so that no list of names is searched.

ghost use Rattle.std.specs.Prelude.{List, [], ◌∷◌, ◌++◌, OnOk};
ghost use Rattle.bridge_ast.specs.EnvFaults.{Named, Tells, repeats_name};
ghost use Rattle.bridge_text.specs.NameIndex.{HasMeanings};

use crate::fault::{EnvFault, EnvFaultKind, EnvPart, EnvPlace};
use bridge_decl::{NameIndex, Text, take_name};
use std::alloc::Global;

/// The part of a module that each name stands for.
pub type PartIndex = NameIndex<EnvPart>;

/// Takes a name for a part of a module: a fault of the kind, where it stands for an earlier part already.
pub fn claim(
    alloc: Global,
    index: &mut PartIndex,
    kind: EnvFaultKind,
    name: &Text,
    at: EnvPlace,
) -> Result<(), EnvFault>
    ensures told { (names : List Named) → HasMeanings index.old names → Tells result
        (repeats_name kind at.«module» names name.now at.part) }
    ensures kept { (names : List Named) → HasMeanings index.old names → OnOk result
        (HasMeanings index.new (names ++ (name.now, at.part) ∷ [])) }
{
    match take_name(alloc, index, name, at.part)? {
        None => Ok(()),
        Some(earlier) => Err(EnvFault::Bad {
            kind,
            at,
            other: Some(EnvPlace {
                module: at.module,
                part: earlier,
            }),
        }),
    }
}

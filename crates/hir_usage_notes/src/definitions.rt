//! The definitions of an interface while they are made.

use hir_definitions::{EnumDef, Method, OpaqueDef, OutStructDef, StructDef, TraitDef};
use hir_types::Everywhere;
use std::alloc::Global;

/// The definitions of each kind, in their order.
#[derive(Drop)]
pub struct LoweredDefinitions {
    /// Structs that only go out.
    pub out_structs: Vec<OutStructDef>,
    /// Structs that come in and go out.
    pub structs: Vec<StructDef<Everywhere>>,
    /// Opaques.
    pub opaques: Vec<OpaqueDef>,
    /// Enums.
    pub enums: Vec<EnumDef>,
    /// Traits.
    pub traits: Vec<TraitDef>,
    /// Functions that belong to no type.
    pub functions: Vec<Method>,
}

impl LoweredDefinitions {
    ghost use Rattle.hir_usage_notes.specs.Made.{HasNone};

    /// No definitions.
    pub fn new(alloc: Global) -> LoweredDefinitions
        ensures { HasNone result }
    {
        LoweredDefinitions {
            out_structs: Vec::new(alloc),
            structs: Vec::new(alloc),
            opaques: Vec::new(alloc),
            enums: Vec::new(alloc),
            traits: Vec::new(alloc),
            functions: Vec::new(alloc),
        }
    }
}

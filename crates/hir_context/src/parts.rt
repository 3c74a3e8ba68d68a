//! What a context is made of.

ghost use Rattle.std.specs.Prelude.{◌≡◌, length};

use bridge_decl::{Items, NoMemory, Text};
use hir_definitions::{EnumDef, Method, OpaqueDef, OutStructDef, StructDef, TraitDef};
use hir_types::Everywhere;
use std::alloc::Global;

/// A definition, with the path of the module that it stands in.
#[derive(Drop)]
pub struct Placed<T> {
    /// The definition.
    pub def: T,
    /// The path of its module: the names from the root to the module.
    pub module: Items<Text>,
}

/// What a context is made of: the definitions of each kind, in their order. An id is the place of a
/// definition among those of its kind.
#[derive(Drop)]
pub struct ContextParts {
    /// Structs that only go out.
    pub out_structs: Items<Placed<OutStructDef>>,
    /// Structs that come in and go out.
    pub structs: Items<Placed<StructDef<Everywhere>>>,
    /// Opaques.
    pub opaques: Items<Placed<OpaqueDef>>,
    /// Enums.
    pub enums: Items<Placed<EnumDef>>,
    /// Traits.
    pub traits: Items<Placed<TraitDef>>,
    /// Functions that belong to no type.
    pub functions: Items<Placed<Method>>,
}

/// The definitions of one kind, in order, and beside them the paths of their modules.
#[derive(Drop)]
pub struct Listed<T> {
    /// The definitions.
    pub defs: Items<T>,
    /// The path of the module of each.
    pub modules: Items<Items<Text>>,
    /// There is one for each.
    ghost each: { length modules ≡ length defs },
}

impl<T> Listed<T> {
    ghost use Rattle.std.specs.Prelude.{◌<◌, Some, slice_get};

    /// The path of the module of the definition at a place.
    pub fn module(&self, place: usize) -> &[Text]
        requires { place < length self.now.defs }
        ensures { slice_get self.now.modules place ≡ Some result.now }
    {
        self.modules.as_slice()[place].as_slice()
    }
}

impl<T: Drop> Listed<T> {
    ghost use Rattle.std.specs.Prelude.{IfOk};
    ghost use Rattle.hir_context.specs.Listing.{ListsPlaced};

    /// Definitions apart from the paths of their modules. Nothing is copied.
    fn of_placed(alloc: Global, placed: Items<Placed<T>>) -> Result<Listed<T>, NoMemory>
        ensures { IfOk result (λ it. ListsPlaced placed it) }
    {
        let mut left = placed;
        let mut defs = Vec::new(alloc);
        let mut modules = Vec::new(alloc);
        while let Some(last) = left.pop() {
            let Placed { def, module } = last;
            defs.push(def)?;
            modules.push(module)?;
        }
        defs.reverse();
        modules.reverse();
        Ok(Listed {
            defs: Items::from_vec(defs),
            modules: Items::from_vec(modules),
        })
    }
}

/// All definitions, by their kinds.
pub struct Definitions {
    /// Structs that only go out.
    pub out_structs: Listed<OutStructDef>,
    /// Structs that come in and go out.
    pub structs: Listed<StructDef<Everywhere>>,
    /// Opaques.
    pub opaques: Listed<OpaqueDef>,
    /// Enums.
    pub enums: Listed<EnumDef>,
    /// Traits.
    pub traits: Listed<TraitDef>,
    /// Functions that belong to no type.
    pub functions: Listed<Method>,
}

/// By hand, so that where one is let go the proof has one call.
impl Drop for Definitions {
    fn drop(self) {
        let Definitions {
            out_structs: _,
            structs: _,
            opaques: _,
            enums: _,
            traits: _,
            functions: _,
        } = self;
    }
}

impl Definitions {
    ghost use Rattle.std.specs.Prelude.{IfOk};
    ghost use Rattle.hir_context.specs.Listing.{AreDefinitions};

    /// The definitions of these parts.
    pub fn of(alloc: Global, parts: ContextParts) -> Result<Definitions, NoMemory>
        ensures { IfOk result (λ defs. AreDefinitions parts defs) }
    {
        let out_structs = Listed::of_placed(alloc, parts.out_structs)?;
        let structs = Listed::of_placed(alloc, parts.structs)?;
        let opaques = Listed::of_placed(alloc, parts.opaques)?;
        let enums = Listed::of_placed(alloc, parts.enums)?;
        let traits = Listed::of_placed(alloc, parts.traits)?;
        let functions = Listed::of_placed(alloc, parts.functions)?;
        Ok(Definitions {
            out_structs,
            structs,
            opaques,
            enums,
            traits,
            functions,
        })
    }
}

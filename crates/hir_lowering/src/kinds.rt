//! The kinds of definitions, each with the items that it is made of.

ghost use Rattle.std.specs.Prelude.{◌≡◌, ◌++◌, ◌<◌, IfOk, OnOk, length};
ghost use Rattle.bridge_ast.specs.Sound.{HasSoundLifetimes};
ghost use Rattle.hir_items.specs.Placing.{unless_reported};
ghost use Rattle.hir_items.specs.Setting.{setting};
ghost use Rattle.hir_lowering.specs.Kinds.{ItemMaking, ItemTelling};
ghost use Rattle.hir_lowering.specs.Kinds.{enum_made, function_made, opaque_made};
ghost use Rattle.hir_lowering.specs.Kinds.{out_struct_made, struct_made, trait_made};
ghost use Rattle.hir_lowering.specs.Kinds.{told_of_enum, told_of_function, told_of_opaque};
ghost use Rattle.hir_lowering.specs.Kinds.{told_of_out_struct, told_of_struct, told_of_trait};
ghost use Rattle.hir_modules.specs.Holding.{HoldsStill};
ghost use Rattle.hir_number.specs.Naming.{IsNaming, Naming};

use bridge_ast::{Item, ItemPlace};
use bridge_decl::{AttrInheritContext, NoMemory};
use bridge_places::Kind;
use hir_attrs::Attrs;
use hir_backends::AttributeValidator;
use hir_definitions::{EnumDef, Method, OpaqueDef, OutStructDef, StructDef, TraitDef};
use hir_items::{
    Lowering, lower_enum, lower_free_function, lower_opaque, lower_out_struct, lower_struct,
};
use hir_reports::ErrorStore;
use hir_traits::lower_trait;
use hir_types::Everywhere;

/// A kind of definitions.
pub trait DefinitionKind {
    /// A definition of the kind.
    type Def: Drop;

    /// The kind of its items.
    const KIND: Kind;

    /// What is told of an item.
    ghost told: { ItemTelling };

    /// What an item is lowered to.
    ghost made: { ItemMaking Self.Def };

    /// An item, which is told with all that is wrong in it; none where something is, or where the
    /// item is of another kind.
    fn lower<'tree, V: AttributeValidator>(
        lent: &Lowering<'_, V>,
        place: ItemPlace,
        module_set: &Attrs,
        item: &'tree Item,
        errors: &mut ErrorStore<'tree>,
    ) -> Result<Option<Self::Def>, NoMemory>
        requires number { place.«module» < length lent.now.env.now }
        requires sound { HasSoundLifetimes item.now }
        ensures told { (names : Naming) → IsNaming lent.now.env.now place.«module» names
            → OnOk result (errors.new.reports ≡ errors.old.reports ++ told
            (setting (V.meaning lent.now.validator.now) lent.now names) errors.old.place.«module»
            place module_set.now item.now) }
        ensures made { (names : Naming) → IsNaming lent.now.env.now place.«module» names
            → IfOk result (λ it. it ≡ unless_reported (told
            (setting (V.meaning lent.now.validator.now) lent.now names) errors.old.place.«module»
            place module_set.now item.now) (made
            (setting (V.meaning lent.now.validator.now) lent.now names) place module_set.now
            item.now)) }
        ensures kept { HoldsStill errors.old errors.new };
}

/// Structs that only go out.
pub struct OutStructs;

impl DefinitionKind for OutStructs {
    type Def = OutStructDef;

    const KIND: Kind = Kind::OutStruct;

    ghost told = { told_of_out_struct };

    ghost made = { out_struct_made };

    fn lower<'tree, V: AttributeValidator>(
        lent: &Lowering<'_, V>,
        place: ItemPlace,
        module_set: &Attrs,
        item: &'tree Item,
        errors: &mut ErrorStore<'tree>,
    ) -> Result<Option<OutStructDef>, NoMemory> {
        match item {
            Item::Struct(it) if it.output_only => {
                lower_out_struct(lent, place, module_set, it, errors)
            }
            _ => Ok(None),
        }
    }
}

/// Structs that come in and go out.
pub struct Structs;

impl DefinitionKind for Structs {
    type Def = StructDef<Everywhere>;

    const KIND: Kind = Kind::Struct;

    ghost told = { told_of_struct };

    ghost made = { struct_made };

    fn lower<'tree, V: AttributeValidator>(
        lent: &Lowering<'_, V>,
        place: ItemPlace,
        module_set: &Attrs,
        item: &'tree Item,
        errors: &mut ErrorStore<'tree>,
    ) -> Result<Option<StructDef<Everywhere>>, NoMemory> {
        match item {
            Item::Struct(it) if !it.output_only => {
                lower_struct(lent, place, module_set, it, errors)
            }
            _ => Ok(None),
        }
    }
}

/// Opaques.
pub struct Opaques;

impl DefinitionKind for Opaques {
    type Def = OpaqueDef;

    const KIND: Kind = Kind::Opaque;

    ghost told = { told_of_opaque };

    ghost made = { opaque_made };

    fn lower<'tree, V: AttributeValidator>(
        lent: &Lowering<'_, V>,
        place: ItemPlace,
        module_set: &Attrs,
        item: &'tree Item,
        errors: &mut ErrorStore<'tree>,
    ) -> Result<Option<OpaqueDef>, NoMemory> {
        match item {
            Item::Opaque(it) => lower_opaque(lent, place, module_set, it, errors),
            _ => Ok(None),
        }
    }
}

/// Enums.
pub struct Enums;

impl DefinitionKind for Enums {
    type Def = EnumDef;

    const KIND: Kind = Kind::Enum;

    ghost told = { told_of_enum };

    ghost made = { enum_made };

    fn lower<'tree, V: AttributeValidator>(
        lent: &Lowering<'_, V>,
        place: ItemPlace,
        module_set: &Attrs,
        item: &'tree Item,
        errors: &mut ErrorStore<'tree>,
    ) -> Result<Option<EnumDef>, NoMemory> {
        match item {
            Item::Enum(it) => lower_enum(lent, place, module_set, it, errors),
            _ => Ok(None),
        }
    }
}

/// Traits.
pub struct Traits;

impl DefinitionKind for Traits {
    type Def = TraitDef;

    const KIND: Kind = Kind::Trait;

    ghost told = { told_of_trait };

    ghost made = { trait_made };

    fn lower<'tree, V: AttributeValidator>(
        lent: &Lowering<'_, V>,
        place: ItemPlace,
        module_set: &Attrs,
        item: &'tree Item,
        errors: &mut ErrorStore<'tree>,
    ) -> Result<Option<TraitDef>, NoMemory> {
        match item {
            Item::Trait(it) => {
                let start = module_set.for_inheritance(lent.alloc, AttrInheritContext::OfType)?;
                lower_trait(lent, place, it, start, errors)
            }
            _ => Ok(None),
        }
    }
}

/// Functions outside types.
pub struct Functions;

impl DefinitionKind for Functions {
    type Def = Method;

    const KIND: Kind = Kind::Function;

    ghost told = { told_of_function };

    ghost made = { function_made };

    fn lower<'tree, V: AttributeValidator>(
        lent: &Lowering<'_, V>,
        place: ItemPlace,
        module_set: &Attrs,
        item: &'tree Item,
        errors: &mut ErrorStore<'tree>,
    ) -> Result<Option<Method>, NoMemory> {
        match item {
            Item::Function(it) => {
                lower_free_function(lent, place.module, module_set, it, errors)
            }
            _ => Ok(None),
        }
    }
}

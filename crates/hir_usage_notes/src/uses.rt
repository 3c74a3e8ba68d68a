//! How definitions use each other, noted in a table.

ghost use Rattle.std.specs.Prelude.{◌≡◌, length, IfOk, OnOk};
ghost use Rattle.std.specs.List.{flat_map};
ghost use Rattle.hir_usage.specs.Callbacks.{method_usages};
ghost use Rattle.hir_usage.specs.Definitions.{trait_usages};
ghost use Rattle.hir_usage.specs.Tables.{noted, usages};
ghost use Rattle.hir_usage.specs.Types.{type_usages};
ghost use Rattle.hir_usage_notes.specs.AllUses.{all_usages, methods_usages, struct_usages};
ghost use Rattle.hir_usage_notes.specs.Notes.{usages_among};

use crate::definitions::LoweredDefinitions;
use bridge_decl::NoMemory;
use hir_definitions::{EnumDef, Method, OpaqueDef, StructDef, TraitDef};
use hir_usage::{PositionUses, UseTable, field_usages, method_usages, trait_usages};
use std::alloc::Global;

/// Notes how a method or a function uses definitions.
fn note_method(alloc: Global, table: &mut UseTable, method: &Method) -> Result<(), NoMemory>
    ensures { OnOk result (usages table.new
        ≡ noted (method_usages method.now) (usages table.old)) }
{
    let uses = method_usages(alloc, method)?;
    table.note(alloc, uses.as_slice())
}

/// Notes how methods use definitions, in order.
fn note_methods(alloc: Global, table: &mut UseTable, methods: &[Method]) -> Result<(), NoMemory>
    ensures { OnOk result (usages table.new
        ≡ noted (methods_usages methods.now) (usages table.old)) }
{
    for method in methods {
        note_method(alloc, table, method)?;
    }
    Ok(())
}

/// A definition that uses others.
pub trait UsesDefinitions {
    ghost use Rattle.std.specs.Prelude.{List};
    ghost use Rattle.hir_usage.specs.Uses.{Used};

    /// How it does.
    ghost usages_of: { Self → List Used };

    /// Notes how it does.
    fn note_in(&self, alloc: Global, table: &mut UseTable) -> Result<(), NoMemory>
        ensures { OnOk result
            (usages table.new ≡ noted (usages_of self.now) (usages table.old)) };
}

impl<P: PositionUses> UsesDefinitions for StructDef<P> {
    ghost usages_of = { struct_usages (type_usages P.IN_OUT_STATUS P.OpaqueOwnership.borrow_of
        P.StructPath.id_of P.of_callback) };

    #[tactic(auto, using(crate::proofs::NotingLemmas::noted_both))]
    fn note_in(&self, alloc: Global, table: &mut UseTable) -> Result<(), NoMemory> {
        let uses = field_usages(alloc, self.fields.as_slice())?;
        table.note(alloc, uses.as_slice())?;
        note_methods(alloc, table, self.methods.as_slice())
    }
}

impl UsesDefinitions for OpaqueDef {
    ghost usages_of = { λ def. methods_usages def.methods };

    fn note_in(&self, alloc: Global, table: &mut UseTable) -> Result<(), NoMemory> {
        note_methods(alloc, table, self.methods.as_slice())
    }
}

impl UsesDefinitions for EnumDef {
    ghost usages_of = { λ def. methods_usages def.methods };

    fn note_in(&self, alloc: Global, table: &mut UseTable) -> Result<(), NoMemory> {
        note_methods(alloc, table, self.methods.as_slice())
    }
}

impl UsesDefinitions for TraitDef {
    ghost usages_of = { trait_usages };

    fn note_in(&self, alloc: Global, table: &mut UseTable) -> Result<(), NoMemory> {
        let uses = trait_usages(alloc, self)?;
        table.note(alloc, uses.as_slice())
    }
}

impl UsesDefinitions for Method {
    ghost usages_of = { method_usages };

    fn note_in(&self, alloc: Global, table: &mut UseTable) -> Result<(), NoMemory> {
        note_method(alloc, table, self)
    }
}

/// Notes how the definitions of a kind use others, in order.
fn note_each<D: UsesDefinitions>(
    alloc: Global,
    table: &mut UseTable,
    defs: &[D],
) -> Result<(), NoMemory>
    ensures { OnOk result (usages table.new
        ≡ noted (flat_map D.usages_of defs.now) (usages table.old)) }
{
    for def in defs {
        def.note_in(alloc, table)?;
    }
    Ok(())
}

/// Notes how all definitions use others, kind by kind.
#[tactic(auto, using(crate::proofs::NotingLemmas::noted_both))]
fn note_all(alloc: Global, table: &mut UseTable, defs: &LoweredDefinitions) -> Result<(), NoMemory>
    ensures { OnOk result (usages table.new ≡ noted (all_usages defs.now) (usages table.old)) }
{
    note_each(alloc, table, defs.out_structs.as_slice())?;
    note_each(alloc, table, defs.structs.as_slice())?;
    note_each(alloc, table, defs.opaques.as_slice())?;
    note_each(alloc, table, defs.enums.as_slice())?;
    note_each(alloc, table, defs.traits.as_slice())?;
    note_each(alloc, table, defs.functions.as_slice())
}

/// How the definitions of each kind are used by all of these.
pub fn table_of(alloc: Global, defs: &LoweredDefinitions) -> Result<UseTable, NoMemory>
    ensures { IfOk result (λ table. usages table ≡ usages_among defs.now) }
{
    let mut table = UseTable::new(
        alloc,
        defs.structs.len(),
        defs.out_structs.len(),
        defs.opaques.len(),
        defs.enums.len(),
    )?;
    note_all(alloc, &mut table, defs)?;
    Ok(table)
}

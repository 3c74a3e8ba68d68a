//! What is known of the use of definitions, noted at each.

ghost use Rattle.std.specs.Prelude.{◌≡◌, OnErr, OnOk};
ghost use Rattle.hir_usage_notes.specs.Notes.{HaveUsages, each_used, enum_used, opaque_used, struct_used};
ghost use Rattle.hir_usage_notes.specs.inside.Noting.{used_at};

use crate::definitions::LoweredDefinitions;
use crate::uses::table_of;
use bridge_decl::NoMemory;
use hir_definitions::{EnumDef, OpaqueDef, StructDef, TypingUseInfo};
use hir_types::TyPosition;
use std::alloc::Global;

/// A definition that keeps how it is used.
pub trait KeepsUsage: Drop {
    ghost use Rattle.hir_definitions.specs.declared.usage.TypingUseInfo.{TypingUseInfo};

    /// The same definition, used so.
    ghost used_so: { TypingUseInfo → Self → Self };

    /// Notes how it is used, in place of what was noted before.
    fn note(&mut self, usage: TypingUseInfo)
        ensures { self.new ≡ used_so usage self.old };
}

impl<P: TyPosition> KeepsUsage for StructDef<P> {
    ghost used_so = { struct_used };

    fn note(&mut self, usage: TypingUseInfo) {
        self.usage = usage;
    }
}

impl KeepsUsage for OpaqueDef {
    ghost used_so = { opaque_used };

    fn note(&mut self, usage: TypingUseInfo) {
        self.usage = usage;
    }
}

impl KeepsUsage for EnumDef {
    ghost used_so = { enum_used };

    fn note(&mut self, usage: TypingUseInfo) {
        self.usage = usage;
    }
}

/// Notes how the definition at a place is used, where there is one.
fn note_at<D: KeepsUsage>(defs: &mut Vec<D>, place: usize, usage: TypingUseInfo)
    ensures { defs.new.items ≡ used_at D.used_so place usage defs.old.items }
{
    if let Some(def) = defs.get_mut(place) {
        def.note(usage);
    }
}

/// Notes how each definition is used, at the same place.
#[tactic(auto, using(crate::proofs::UsedLemmas::last_first))]
fn note_each<D: KeepsUsage>(defs: &mut Vec<D>, mut usages: Vec<TypingUseInfo>)
    ensures { defs.new.items ≡ each_used D.used_so usages.items defs.old.items }
{
    while let Some(usage) = usages.pop() {
        note_at(defs, usages.len(), usage);
    }
}

/// Notes at each definition how all of them use it. `NoMemory` where there is no memory for what is
/// noted: then nothing is changed.
pub fn note_usages(alloc: Global, defs: &mut LoweredDefinitions) -> Result<(), NoMemory>
    ensures noted { OnOk result (HaveUsages defs.old defs.new) }
    ensures kept { OnErr result (defs.new ≡ defs.old) }
{
    let table = table_of(alloc, defs)?;
    note_each(&mut defs.out_structs, table.out_structs);
    note_each(&mut defs.structs, table.structs);
    note_each(&mut defs.opaques, table.opaques);
    note_each(&mut defs.enums, table.enums);
    Ok(())
}

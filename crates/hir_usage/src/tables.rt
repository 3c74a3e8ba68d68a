//! How each definition is used.

ghost use Rattle.std.specs.Prelude.{◌≡◌, map, replicate, IfOk, OnOk};
ghost use Rattle.hir_definitions.specs.Usage.{unused};
ghost use Rattle.hir_usage.specs.Seen.{used};
ghost use Rattle.hir_usage.specs.Tables.{noted, noted_at, unused_of, usages, with_use, with_use_at};
ghost use Rattle.hir_usage.specs.Uses.{used_id};

use crate::uses::Use;
use bridge_decl::{NoMemory, clone_option};
use hir_definitions::{ResultUsage, ResultUsageInfo, TypingUseInfo};
use hir_ids::TypeId;
use hir_types::HirType;
use std::alloc::Global;

/// How the definitions of each kind are used, in the order of their places.
#[derive(Drop)]
pub struct UseTable {
    /// How the structs are.
    pub structs: Vec<TypingUseInfo>,
    /// How the structs are that are only returned.
    pub out_structs: Vec<TypingUseInfo>,
    /// How the opaques are.
    pub opaques: Vec<TypingUseInfo>,
    /// How the enums are.
    pub enums: Vec<TypingUseInfo>,
}

impl UseTable {
    /// So many definitions of each kind, each used by itself alone.
    pub fn new(
        alloc: Global,
        structs: usize,
        out_structs: usize,
        opaques: usize,
        enums: usize,
    ) -> Result<UseTable, NoMemory>
        ensures { IfOk result (λ table.
            usages table ≡ unused_of structs out_structs opaques enums) }
    {
        Ok(UseTable {
            structs: all_unused(alloc, structs)?,
            out_structs: all_unused(alloc, out_structs)?,
            opaques: all_unused(alloc, opaques)?,
            enums: all_unused(alloc, enums)?,
        })
    }

    /// Notes each use at its own definition, in order, and passes over one of a definition that
    /// isn't there. Results are copied. Where there is no memory, some uses may have been noted.
    pub fn note(&mut self, alloc: Global, uses: &[Use<'_>]) -> Result<(), NoMemory>
        ensures { OnOk result (usages self.new ≡ noted (map used uses.now) (usages self.old)) }
    {
        for one in uses {
            self.note_one(alloc, one)?;
        }
        Ok(())
    }

    /// Notes one use at its own definition.
    fn note_one(&mut self, alloc: Global, one: &Use<'_>) -> Result<(), NoMemory>
        ensures { OnOk result (usages self.new
            ≡ noted_at (used_id (used one.now)) (used one.now) (usages self.old)) }
    {
        match one.id() {
            TypeId::Struct(id) => add_use_at(&mut self.structs, alloc, id.index(), one),
            TypeId::OutStruct(id) => add_use_at(&mut self.out_structs, alloc, id.index(), one),
            TypeId::Opaque(id) => add_use_at(&mut self.opaques, alloc, id.index(), one),
            TypeId::Enum(id) => add_use_at(&mut self.enums, alloc, id.index(), one),
        }
    }
}

/// So many definitions, each used by itself alone.
fn all_unused(alloc: Global, count: usize) -> Result<Vec<TypingUseInfo>, NoMemory>
    ensures { IfOk result (λ infos. infos.items ≡ replicate count unused) }
{
    let mut infos = Vec::new(alloc);
    for _ in 0..count {
        infos.push(TypingUseInfo::unused(alloc))?;
    }
    Ok(infos)
}

/// Adds a use of the definition at a place, where there is one.
fn add_use_at(
    infos: &mut Vec<TypingUseInfo>,
    alloc: Global,
    place: usize,
    one: &Use<'_>,
) -> Result<(), NoMemory>
    ensures { OnOk result (infos.new.items ≡ with_use_at place (used one.now) infos.old.items) }
{
    match infos.get_mut(place) {
        Some(info) => add_use(info, alloc, one),
        None => Ok(()),
    }
}

/// Adds a use of a definition.
fn add_use(info: &mut TypingUseInfo, alloc: Global, one: &Use<'_>) -> Result<(), NoMemory>
    ensures { OnOk result (info.new ≡ with_use (used one.now) info.old) }
{
    match one {
        Use::Sliced(_) => info.sliced = true,
        Use::Optioned(_) => info.optioned = true,
        Use::Input(_, ok, err) => {
            let ok = ok.try_clone(alloc)?;
            let err = clone_option(alloc, err, HirType::try_clone)?;
            info.results
                .push(ResultUsage::Input(ResultUsageInfo { ok, err }))?;
        }
        Use::Output(_, ok, err) => {
            let ok = ok.try_clone(alloc)?;
            let err = clone_option(alloc, err, HirType::try_clone)?;
            info.results
                .push(ResultUsage::Output(ResultUsageInfo { ok, err }))?;
        }
    }
    Ok(())
}

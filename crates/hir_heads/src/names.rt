//! Names as identifiers.

ghost use Rattle.std.specs.Prelude.{◌≡◌, IfOk, OnOk};
ghost use Rattle.hir_attrs.specs.Reading.{about};
ghost use Rattle.hir_heads.specs.Names.{name_errors};
ghost use Rattle.hir_heads.specs.Told.{MadeUnlessTold};
ghost use Rattle.hir_reports.specs.Store.{Held, Keeps, added, gained};

use bridge_decl::{IdentBuf, IdentFault, NoMemory, Text};
use hir_reports::{ErrorStore, LoweringError, Rule};
use std::alloc::{AllocError, Global};

/// Tells that a name is no identifier.
fn tell_name(alloc: Global, name: &Text, errors: &mut ErrorStore<'_>) -> Result<(), NoMemory>
    ensures told { OnOk result (errors.new ≡ gained errors.old (about Rule.BadIdent name.now)) }
    ensures kept { (earlier : Held) → Keeps earlier errors.old → Keeps earlier errors.new }
{
    errors.push(LoweringError::new(alloc, Rule::BadIdent, &[name.as_str()])?)
}

/// A name as an identifier. None exactly where it is none: then that is told (rule `BadIdent`).
/// `NoMemory` where there is no memory for it or for the report.
pub fn lower_ident(
    alloc: Global,
    name: &Text,
    errors: &mut ErrorStore<'_>,
) -> Result<Option<IdentBuf>, NoMemory>
    ensures told { OnOk result (errors.new ≡ added errors.old (name_errors name.now)) }
    ensures made { IfOk result (MadeUnlessTold (name_errors name.now) name.now) }
    ensures kept { (earlier : Held) → Keeps earlier errors.old → Keeps earlier errors.new }
{
    match IdentBuf::new(alloc, name.as_str()) {
        Ok(ident) => Ok(Some(ident)),
        Err(IdentFault::Bad) => {
            tell_name(alloc, name, errors)?;
            Ok(None)
        }
        Err(IdentFault::NoMemory) => Err(AllocError),
    }
}

//! Lists that are made where each of their parts is.

ghost use Rattle.std.specs.Prelude.{◌≡◌, IfOk};
ghost use Rattle.hir_fields.specs.inside.Gathering.{given_after};

use bridge_decl::{Items, NoMemory};

/// One more, where all before it and it itself are made.
pub fn with_next<T: Drop>(
    made: Option<Items<T>>,
    next: Option<T>,
) -> Result<Option<Items<T>>, NoMemory>
    ensures { IfOk result (λ all. all ≡ given_after made next) }
{
    match (made, next) {
        (Some(mut list), Some(next)) => {
            list.push(next)?;
            Ok(Some(list))
        }
        _ => Ok(None),
    }
}

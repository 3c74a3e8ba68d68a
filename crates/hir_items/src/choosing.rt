//! What is made of several parts, some of which may be absent.

ghost use Rattle.std.specs.Prelude.{◌≡◌, ◌++◌, ◌<◌, [], None, OnOk, length};
ghost use Rattle.std.specs.List.{cons_option};
ghost use Rattle.hir_items.specs.inside.Joining.{after};

use bridge_decl::{Items, NoMemory};
use hir_reports::ErrorStore;

// These are generic, so that a proof needn't look into what is let go where a part is absent.

/// Adds an item to a list, where there is one.
pub(crate) fn keep<T: Drop>(items: &mut Items<T>, item: Option<T>) -> Result<(), NoMemory>
    ensures { OnOk result (items.new ≡ items.old ++ cons_option item []) }
{
    match item {
        Some(item) => items.push(item),
        None => Ok(()),
    }
}

/// What was made, unless there was no memory for what came after it.
pub(crate) fn after<T: Drop>(made: T, done: Result<(), NoMemory>) -> Result<T, NoMemory>
    ensures { result ≡ after made done }
{
    match done {
        Ok(()) => Ok(made),
        Err(error) => Err(error),
    }
}

/// What is made, if there are no more reports than before.
pub(crate) fn unless_more<T: Drop>(
    before: usize,
    errors: &ErrorStore<'_>,
    made: Option<T>,
) -> Option<T>
    ensures same { length errors.now.reports ≡ before → result ≡ made }
    ensures more { before < length errors.now.reports → result ≡ None }
{
    if errors.len() > before { None } else { made }
}

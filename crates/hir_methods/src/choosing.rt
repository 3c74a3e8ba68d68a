//! What is made of several parts, some of which may be absent.

ghost use Rattle.std.specs.Prelude.{◌≡◌, OnOk};
ghost use Rattle.hir_methods.specs.Choosing.{beside, kept_if, kept_with, paired};

use bridge_decl::{Items, NoMemory};

// These are generic, so that a proof needn't look into what is let go where a part is absent.

/// Both, where there are both.
pub fn paired<A: Drop, B: Drop>(first: Option<A>, second: Option<B>) -> Option<(A, B)>
    ensures { result ≡ paired first second }
{
    match first {
        Some(first) => match second {
            Some(second) => Some((first, second)),
            None => None,
        },
        None => None,
    }
}

/// Both, where there are both, unless there was no memory for the second.
pub fn beside<A: Drop, B: Drop>(
    first: Option<A>,
    second: Result<Option<B>, NoMemory>,
) -> Result<Option<(A, B)>, NoMemory>
    ensures { result ≡ beside first second }
{
    match second {
        Ok(second) => Ok(paired(first, second)),
        Err(error) => Err(error),
    }
}

/// Adds an item to a list, where there are both, and else lets go both.
pub fn keep<T: Drop>(items: &mut Option<Items<T>>, item: Option<T>) -> Result<(), NoMemory>
    ensures { OnOk result (items.new ≡ kept_with items.old item) }
{
    match items.take() {
        Some(mut kept) => {
            if let Some(item) = item {
                kept.push(item)?;
                *items = Some(kept);
            }
            Ok(())
        }
        None => Ok(()),
    }
}

/// What is made, if it stays.
pub fn kept_if<T: Drop>(stays: bool, made: Option<T>) -> Option<T>
    ensures { result ≡ kept_if stays made }
{
    if stays { made } else { None }
}

//! Copies of lists and of what may be absent, by the copies of what they hold.

ghost use Rattle.std.specs.Prelude.{◌≡◌, IfOk};

use crate::text::{NoMemory, Text};
use sqlite_items::Items;
use std::alloc::Global;

/// A list of the copies that `clone` makes of the elements, where each is equal to its element.
pub fn clone_items<T: Drop, F: Fn(&T, Global) -> Result<T, NoMemory>>(
    alloc: Global,
    items: &Items<T>,
    clone: F,
) -> Result<Items<T>, NoMemory>
    requires callable { F.IsAlwaysCallable clone }
    requires equal { (item : _) (a : _) (answer : _) → F.post clone item a answer
        → IfOk answer (λ copy. copy ≡ item.now) }
    ensures { IfOk result (λ copies. copies ≡ items.now) }
{
    let mut copies = Items::new(alloc);
    for item in items.as_slice() {
        copies.push(clone(item, alloc)?)?;
    }
    Ok(copies)
}

/// The copy that `clone` makes of the value, if there is one, where it is equal to the value.
pub fn clone_option<T: Drop, F: Fn(&T, Global) -> Result<T, NoMemory>>(
    alloc: Global,
    value: &Option<T>,
    clone: F,
) -> Result<Option<T>, NoMemory>
    requires callable { F.IsAlwaysCallable clone }
    requires equal { (item : _) (a : _) (answer : _) → F.post clone item a answer
        → IfOk answer (λ copy. copy ≡ item.now) }
    ensures { IfOk result (λ copy. copy ≡ value.now) }
{
    match value {
        Some(value) => Ok(Some(clone(value, alloc)?)),
        None => Ok(None),
    }
}

/// A copy of a list of texts, which is equal to the list.
pub fn clone_texts(alloc: Global, texts: &Items<Text>) -> Result<Items<Text>, NoMemory>
    ensures { IfOk result (λ copies. copies ≡ texts.now) }
{
    clone_items(alloc, texts, Text::try_clone)
}

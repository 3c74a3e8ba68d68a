//! Names by what they stand for, so that no list of names is searched.

ghost use Rattle.std.specs.Prelude.{◌≡◌, ℕ, List, [], ◌∷◌, ◌++◌, IfOk, OnOk, OnErr};
ghost use Rattle.bridge_text.specs.NameIndex.{meaning_of, HasMeanings};

use crate::text::{NoMemory, Text};
use std::alloc::Global;
use std::collections::BTreeMap;

/// What each name stands for.
pub type NameIndex<T> = BTreeMap<Text, T>;

/// Takes a name for a value, or answers the value that it stands for already, which it keeps. After want of memory no name is
/// taken.
pub fn take_name<T: Copy>(
    alloc: Global,
    index: &mut NameIndex<T>,
    name: &Text,
    value: T,
) -> Result<Option<T>, NoMemory>
    ensures earlier { (named : List (List ℕ × T)) → HasMeanings index.old named
        → IfOk result (λ earlier. earlier ≡ meaning_of named name.now) }
    ensures taken { (named : List (List ℕ × T)) → HasMeanings index.old named
        → OnOk result (HasMeanings index.new (named ++ (name.now, value) ∷ [])) }
    ensures refused { OnErr result (index.new.entries ≡ index.old.entries) }
{
    if let Some(earlier) = index.get(name) {
        return Ok(Some(*earlier));
    }
    let key = name.try_clone(alloc)?;
    index.insert(key, value)?;
    Ok(None)
}

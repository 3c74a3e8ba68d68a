//! Paths to declarations.

ghost use Rattle.std.specs.Prelude.{◌≡◌, IfOk};

use crate::lifetimes::Lifetime;
use bridge_text::{NoMemory, Text, clone_items, clone_texts};
use sqlite_items::Items;
use std::alloc::Global;

/// A path as it is written, with the lifetimes that it is given.
pub struct PathType {
    /// The segments, of which the first may be `crate`, `self` or `super`.
    pub segments: Items<Text>,
    /// The lifetimes that are written; the rest are anonymous.
    pub lifetimes: Items<Lifetime>,
}

/// By hand, so that where one is let go the proof has one call.
impl Drop for PathType {
    fn drop(self) {
        let PathType {
            segments: _,
            lifetimes: _,
        } = self;
    }
}

impl PathType {
    /// A copy, which is equal to the path.
    pub fn try_clone(&self, alloc: Global) -> Result<PathType, NoMemory>
        ensures { IfOk result (λ copy. copy ≡ self.now) }
    {
        Ok(PathType {
            segments: clone_texts(alloc, &self.segments)?,
            lifetimes: clone_items(alloc, &self.lifetimes, Lifetime::try_clone)?,
        })
    }
}

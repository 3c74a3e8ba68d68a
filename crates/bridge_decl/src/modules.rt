//! Modules and the items that stand in them.

ghost use Rattle.std.specs.Prelude.{◌≡◌, IfOk};

use crate::attrs::Attrs;
use crate::enums::Enum;
use crate::functions::Function;
use crate::structs::{OpaqueType, Struct};
use crate::traits::Trait;
use bridge_text::{NoMemory, Text, clone_items, clone_texts};
use sqlite_items::Items;
use std::alloc::Global;

/// A module of a foreign interface.
pub struct Module {
    /// The segments from the root; none for the root itself.
    pub path: Items<Text>,
    /// The attributes.
    pub attrs: Attrs,
    /// The items, in order.
    pub items: Items<Item>,
    /// Other names for what stands elsewhere, in order.
    pub aliases: Items<Alias>,
}

/// By hand, so that where one is let go the proof has one call.
impl Drop for Module {
    fn drop(self) {
        let Module {
            path: _,
            attrs: _,
            items: _,
            aliases: _,
        } = self;
    }
}

impl Module {
    /// A copy, which is equal to the module.
    pub fn try_clone(&self, alloc: Global) -> Result<Module, NoMemory>
        ensures { IfOk result (λ copy. copy ≡ self.now) }
    {
        let path = clone_texts(alloc, &self.path)?;
        let items = clone_items(alloc, &self.items, Item::try_clone)?;
        let aliases = clone_items(alloc, &self.aliases, Alias::try_clone)?;
        let attrs = self.attrs.try_clone(alloc)?;
        Ok(Module {
            path,
            attrs,
            items,
            aliases,
        })
    }
}

/// A name in a module for what a path names.
pub struct Alias {
    /// The name.
    pub name: Text,
    /// The segments of the path that it stands for.
    pub target: Items<Text>,
}

/// By hand, so that where one is let go the proof has one call.
impl Drop for Alias {
    fn drop(self) {
        let Alias { name: _, target: _ } = self;
    }
}

impl Alias {
    /// A copy, which is equal to the alias.
    pub fn try_clone(&self, alloc: Global) -> Result<Alias, NoMemory>
        ensures { IfOk result (λ copy. copy ≡ self.now) }
    {
        Ok(Alias {
            name: self.name.try_clone(alloc)?,
            target: clone_texts(alloc, &self.target)?,
        })
    }
}

/// An item of a module.
pub enum Item {
    /// A struct or an out-struct.
    Struct(Struct),
    /// An opaque.
    Opaque(OpaqueType),
    /// An enum.
    Enum(Enum),
    /// A trait.
    Trait(Trait),
    /// A free function.
    Function(Function),
}

/// By hand, so that where one is let go the proof has one call.
impl Drop for Item {
    fn drop(self) {
        match self {
            Item::Struct(_) => (),
            Item::Opaque(_) => (),
            Item::Enum(_) => (),
            Item::Trait(_) => (),
            Item::Function(_) => (),
        }
    }
}

impl Item {
    /// A copy, which is equal to the item.
    pub fn try_clone(&self, alloc: Global) -> Result<Item, NoMemory>
        ensures { IfOk result (λ copy. copy ≡ self.now) }
    {
        match self {
            Item::Struct(item) => Ok(Item::Struct(item.try_clone(alloc)?)),
            Item::Opaque(item) => Ok(Item::Opaque(item.try_clone(alloc)?)),
            Item::Enum(item) => Ok(Item::Enum(item.try_clone(alloc)?)),
            Item::Trait(item) => Ok(Item::Trait(item.try_clone(alloc)?)),
            Item::Function(item) => Ok(Item::Function(item.try_clone(alloc)?)),
        }
    }
}

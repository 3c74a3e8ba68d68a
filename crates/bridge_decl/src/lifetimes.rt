//! Lifetimes as they are written, and the environments that declare them.

ghost use Rattle.std.specs.Prelude.{◌≡◌, IfOk};

use bridge_text::{NoMemory, Text, clone_items};
use sqlite_items::Items;
use std::alloc::Global;

/// A lifetime at a place where one is used.
#[derive(Drop)]
pub enum Lifetime {
    /// `'static`.
    Static,
    /// A lifetime with a name, without its apostrophe.
    Named(Text),
    /// `'_`, or one that isn't written.
    Anonymous,
}

impl Lifetime {
    /// A copy, which is equal to the lifetime.
    pub fn try_clone(&self, alloc: Global) -> Result<Lifetime, NoMemory>
        ensures { IfOk result (λ copy. copy ≡ self.now) }
    {
        match self {
            Lifetime::Static => Ok(Lifetime::Static),
            Lifetime::Named(name) => Ok(Lifetime::Named(name.try_clone(alloc)?)),
            Lifetime::Anonymous => Ok(Lifetime::Anonymous),
        }
    }
}

/// A declared lifetime and its direct bounds, as numbers of nodes of the same environment.
#[derive(Drop)]
pub struct LifetimeNode {
    /// The name, without its apostrophe.
    pub name: Text,
    /// The lifetimes that are declared to outlive this one: `b` for `'b: 'a` at the node of `a`.
    pub longer: Items<usize>,
    /// The lifetimes that this one is declared to outlive.
    pub shorter: Items<usize>,
}

impl LifetimeNode {
    /// A copy, which is equal to the node.
    pub fn try_clone(&self, alloc: Global) -> Result<LifetimeNode, NoMemory>
        ensures { IfOk result (λ copy. copy ≡ self.now) }
    {
        Ok(LifetimeNode {
            name: self.name.try_clone(alloc)?,
            longer: Items::from_slice(alloc, self.longer.as_slice())?,
            shorter: Items::from_slice(alloc, self.shorter.as_slice())?,
        })
    }
}

/// The lifetimes that a definition or a signature declares.
#[derive(Drop)]
pub struct LifetimeEnv {
    /// The lifetimes in the order of their declaration: for a method those of its impl first.
    pub nodes: Items<LifetimeNode>,
}

impl LifetimeEnv {
    /// A copy, which is equal to the environment.
    pub fn try_clone(&self, alloc: Global) -> Result<LifetimeEnv, NoMemory>
        ensures { IfOk result (λ copy. copy ≡ self.now) }
    {
        Ok(LifetimeEnv {
            nodes: clone_items(alloc, &self.nodes, LifetimeNode::try_clone)?,
        })
    }
}

/// A copy of a declaration's name and of its lifetimes, which is equal to them.
pub(crate) fn clone_head(
    alloc: Global,
    name: &Text,
    lifetimes: &LifetimeEnv,
) -> Result<(Text, LifetimeEnv), NoMemory>
    ensures { IfOk result (λ copy. copy ≡ (name.now, lifetimes.now)) }
{
    let name = name.try_clone(alloc)?;
    let lifetimes = lifetimes.try_clone(alloc)?;
    Ok((name, lifetimes))
}

//! Named lifetimes and the bounds that are declared between them.

ghost use Rattle.std.specs.Prelude.{◌≡◌, [], ◌∷◌, ◌++◌, length, IfOk, OnOk, OnErr};

use crate::lifetime_index::Lifetime;
use bridge_decl::{IdentBuf, NoMemory};
use smallvec::SmallVec;
use std::alloc::Global;
use std::marker::Model;

/// A list of lifetimes that contracts see as the list of their numbers. Up to two of them take no memory.
pub struct LifetimeList {
    lifetimes: SmallVec<Lifetime, 2>,
}

/// By hand, so that where one is let go the proof has one call.
impl Drop for LifetimeList {
    fn drop(self) {
        let LifetimeList { lifetimes: _ } = self;
    }
}

impl Model for LifetimeList {
    ghost use Rattle.std.specs.Prelude.{List, ℕ};

    ghost Value = { List ℕ };

    ghost view = { λ it. it.lifetimes.items };
}

impl LifetimeList {
    /// The empty list.
    pub fn new(alloc: Global) -> LifetimeList
        ensures { result ≡ [] }
    {
        LifetimeList {
            lifetimes: SmallVec::new(alloc),
        }
    }

    /// A copy of these lifetimes.
    pub fn from_slice(alloc: Global, lifetimes: &[Lifetime]) -> Result<LifetimeList, NoMemory>
        ensures { IfOk result (λ list. list ≡ lifetimes.now) }
    {
        Ok(LifetimeList {
            lifetimes: SmallVec::from_slice(alloc, lifetimes)?,
        })
    }

    /// An equal list.
    pub fn try_clone(&self, alloc: Global) -> Result<LifetimeList, NoMemory>
        ensures { IfOk result (λ list. list ≡ self.now) }
    {
        LifetimeList::from_slice(alloc, self.as_slice())
    }

    /// Adds a lifetime at the end. Without memory for it the list stays as it was.
    pub fn push(&mut self, lifetime: Lifetime) -> Result<(), NoMemory>
        ensures ok { OnOk result (self.new ≡ self.old ++ lifetime ∷ []) }
        ensures err { OnErr result (self.new ≡ self.old) }
    {
        self.lifetimes.push(lifetime)?;
        Ok(())
    }

    /// The lifetimes, lent.
    pub fn as_slice(&self) -> &[Lifetime]
        ensures { result.now ≡ self.now }
    {
        self.lifetimes.as_slice()
    }

    /// How many lifetimes the list has.
    pub fn len(&self) -> usize
        ensures { result ≡ length self.now }
    {
        self.lifetimes.len()
    }
}

/// A named lifetime with the bounds that are declared for it directly.
///
/// For `fn f<'a, 'b: 'a>` the entry of `a` has `b` among its `longer`, and that of `b` has `a` among its `shorter`.
#[derive(Drop)]
pub struct BoundedLifetime {
    /// The name, without its apostrophe.
    pub ident: IdentBuf,
    /// The lifetimes that are declared to outlive this one.
    pub longer: LifetimeList,
    /// The lifetimes that this one is declared to outlive.
    pub shorter: LifetimeList,
}

impl BoundedLifetime {
    /// An equal lifetime.
    pub fn try_clone(&self, alloc: Global) -> Result<BoundedLifetime, NoMemory>
        ensures { IfOk result (λ copy. copy ≡ self.now) }
    {
        Ok(BoundedLifetime {
            ident: self.ident.try_clone(alloc)?,
            longer: self.longer.try_clone(alloc)?,
            shorter: self.shorter.try_clone(alloc)?,
        })
    }
}

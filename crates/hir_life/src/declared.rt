//! Environments made of declared lifetimes.

ghost use Rattle.std.specs.Prelude.{◌≡◌, ◌+◌, ◌<◌, IfOk, OnOk, IsErrOf, map, All};
ghost use Rattle.bridge_text.specs.Ident.{IsIdent};
ghost use Rattle.hir_life.specs.Declarations.{bounded};

use crate::bounds::{BoundedLifetime, LifetimeList};
use crate::environment::LifetimeEnv;
use crate::lifetime_index::Lifetime;
use bridge_decl::{IdentBuf, IdentFault, LifetimeEnv as Declared, LifetimeNode, NoMemory};
use sqlite_items::Items;
use std::alloc::Global;

/// The lifetimes with these numbers.
fn numbered_list(alloc: Global, numbers: &[usize]) -> Result<LifetimeList, NoMemory>
    ensures { IfOk result (λ list. list ≡ numbers.now) }
{
    let mut list = LifetimeList::new(alloc);
    for number in numbers {
        list.push(Lifetime::new(*number))?;
    }
    Ok(list)
}

/// A declared lifetime with its bounds.
fn bounded_lifetime(alloc: Global, node: &LifetimeNode) -> Result<BoundedLifetime, IdentFault>
    ensures value { IfOk result (λ lifetime. lifetime ≡ bounded node.now) }
    ensures valid { OnOk result (IsIdent node.now.name) }
    ensures bad { IsErrOf result IdentFault.Bad → ¬ (IsIdent node.now.name) }
{
    Ok(BoundedLifetime {
        ident: IdentBuf::new(alloc, node.name.as_str())?,
        longer: numbered_list(alloc, node.longer.as_slice())?,
        shorter: numbered_list(alloc, node.shorter.as_slice())?,
    })
}

/// The same of each of these.
fn bounded_lifetimes(
    alloc: Global,
    nodes: &[LifetimeNode],
) -> Result<Items<BoundedLifetime>, IdentFault>
    ensures value { IfOk result (λ made. made ≡ map bounded nodes.now) }
    ensures valid { OnOk result (All (λ node. IsIdent node.name) nodes.now) }
    ensures bad { IsErrOf result IdentFault.Bad
        → ¬ (All (λ node. IsIdent node.name) nodes.now) }
{
    let mut made = Items::new(alloc);
    for node in nodes {
        made.push(bounded_lifetime(alloc, node)?)?;
    }
    Ok(made)
}

impl LifetimeEnv {
    ghost use Rattle.bridge_decl.specs.Lifetimes.{IsSoundEnvironment};
    ghost use Rattle.hir_life.specs.Declarations.{declared_environment, HasIdents};

    /// The environment of the declared lifetimes, without any anonymous ones. The fault is `Bad` only where a name isn't an
    /// identifier.
    pub fn of_declared(alloc: Global, env: &Declared) -> Result<LifetimeEnv, IdentFault>
        requires { IsSoundEnvironment env.now }
        ensures value { IfOk result (λ made. made ≡ declared_environment env.now) }
        ensures valid { OnOk result (HasIdents env.now) }
        ensures bad { IsErrOf result IdentFault.Bad → ¬ (HasIdents env.now) }
    {
        let nodes = bounded_lifetimes(alloc, env.nodes.as_slice())?;
        let count = nodes.len();
        Ok(LifetimeEnv::new(nodes, count))
    }

    /// One more anonymous lifetime, which is the answer: its number is the number of lifetimes so far.
    pub fn add_anonymous(&mut self) -> Lifetime
        requires { self.old.count < usize.MAX }
        ensures number { result ≡ self.old.count }
        ensures added { self.new
            ≡ record { bounds = self.old.bounds; count = self.old.count + 1 } }
    {
        let number = self.num_lifetimes();
        self.count = number + 1;
        Lifetime::new(number)
    }
}

//! Environments: modules whose names and bounds fit together.

ghost use Rattle.std.specs.Prelude.{◌≡◌, ◌<◌, ℕ, List, [], length, slice_get, MatchOption, Some, IfOk, IfErr, Contains};
ghost use Rattle.bridge_decl.specs.declared.lifetimes.LifetimeEnv.{LifetimeEnv};
ghost use Rattle.bridge_decl.specs.declared.modules.Item.{Item};
ghost use Rattle.bridge_decl.specs.declared.modules.Module.{Module};
ghost use Rattle.bridge_decl.specs.Lifetimes.{IsSoundEnvironment};
ghost use Rattle.bridge_ast.specs.AliasCount.{alias_count};
ghost use Rattle.bridge_ast.specs.Paths.{IsSubmodule};

use crate::alias_ends::ends_of;
use crate::fault::EnvFault;
use crate::scopes::{Scope, parent_of, scopes_of};
use crate::trail::Ends;
use bridge_decl::Module;
use sqlite_items::Items;
use std::alloc::{AllocError, Global};
use std::marker::Model;

/// Modules whose names and bounds fit together. Contracts see the list of the modules.
pub struct Env {
    pub(crate) modules: Items<Module>,
    pub(crate) scopes: Items<Scope>,
    pub(crate) ends: Ends,
    pub(crate) aliases: usize,
}

/// By hand, so that where one is let go the proof has one call. The modules go last: where a large part goes after many small ones,
/// the allocator joins all of these first.
impl Drop for Env {
    fn drop(self) {
        let Env {
            modules,
            scopes,
            ends,
            aliases: _,
        } = self;
        drop(scopes);
        drop(ends);
        drop(modules);
    }
}

impl Model for Env {
    ghost use Rattle.std.specs.Prelude.{List};
    ghost use Rattle.bridge_decl.specs.declared.modules.Module.{Module};
    ghost use Rattle.std.specs.Coded.{codes};
    ghost use Rattle.bridge_decl.specs.contracts.attrs.DiplomatBackendAttrCfg as condition;
    ghost use Rattle.bridge_decl.specs.contracts.types.TypeName as written_type;

    ghost Value = { List Module };

    ghost coded = { Prim.hlevel (codes, condition.the_row.coded, written_type.the_row.coded) };

    ghost use Rattle.bridge_ast.specs.inside.EnvIndex.{IsIndex};

    ghost view = { λ env. env.modules };

    ghost invariant = { λ env. IsIndex env.scopes env.ends env.aliases env.modules };
}

/// The number of aliases in modules; none where no `usize` holds it.
fn count_aliases(modules: &[Module]) -> Result<usize, AllocError>
    ensures { IfOk result (λ count. count ≡ alias_count modules.now) }
{
    let mut count = 0usize;
    for module in modules {
        count = count.checked_add(module.aliases.len()).ok_or(AllocError)?;
    }
    Ok(count)
}

impl Env {
    ghost use Rattle.bridge_ast.specs.EnvFaults.{Tells, IsBad, faults_of};
    ghost use Rattle.bridge_ast.specs.Sound.{AreSound, lifetimes_of};

    /// The environment of the modules. `Bad` tells the first fault: modules are looked through in order, in each first the path,
    /// then the items in order (the name, the item's lifetimes, those of its methods), then the aliases.
    pub fn new(alloc: Global, modules: Vec<Module>) -> Result<Env, EnvFault>
        ensures told { Tells result (faults_of modules.items) }
        ensures kept { IfOk result (λ env. env ≡ modules.items) }
        ensures sound { IfOk result (λ env. AreSound env) }
        ensures broken { IfErr result (λ fault. IsBad fault → ¬ AreSound modules.items) }
    {
        let scopes = scopes_of(alloc, modules.as_slice())?;
        let aliases = count_aliases(modules.as_slice())?;
        let ends = ends_of(alloc, modules.as_slice(), scopes.as_slice())?;
        Ok(Env {
            modules: Items::from_vec(modules),
            scopes: Items::from_vec(scopes),
            ends,
            aliases,
        })
    }

    /// The modules, which fit together.
    pub fn modules(&self) -> &[Module]
        ensures all { result.now ≡ self.now }
        ensures sound { AreSound result.now }
    {
        self.modules.as_slice()
    }

    /// The number of the module around that of a number; none for the root, whose path is empty.
    pub fn parent(&self, number: usize) -> Option<usize>
        requires { number < length self.now }
        ensures { (m : Module) → slice_get self.now number ≡ Some m
            → MatchOption result (m.path ≡ [])
            (λ outer. (name : List ℕ) × IsSubmodule self.now outer name number) }
    {
        parent_of(self.scopes.as_slice(), number)
    }

    /// The lifetimes that a struct, an opaque, a trait or a function declares fit together, and so do those of each method. The call
    /// does nothing: its contract is the law.
    pub fn lifetimes_fit_together(&self)
        ensures { (m : Module) (item : Item) (env : LifetimeEnv) → Contains self.now m
            → Contains m.items item → Contains (lifetimes_of item) env
            → IsSoundEnvironment env }
    {
        let _ = &self.modules;
    }
}

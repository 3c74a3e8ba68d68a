//! Where aliases lead. Each alias is looked through once, without recursion.

ghost use Rattle.std.specs.Prelude.{◌≡◌, ◌≤◌, ◌<◌, ◌+◌, ◌↔◌, ◌⊎◌, ℕ, List, [], ◌∷◌, ◌++◌, OnOk, IfOk, IfNone, IfSome};
ghost use Rattle.bridge_decl.specs.declared.modules.Module.{Module};
ghost use Rattle.bridge_ast.specs.inside.AliasEnds.{AreEnds, KnowsEnds, IsAlias};
ghost use Rattle.bridge_ast.specs.inside.Pairs.{HasPair};
ghost use Rattle.bridge_ast.specs.inside.Scopes.{Knows};
ghost use Rattle.bridge_ast.specs.inside.Searches.{IsFrame, IsSearch, IsWaiting, Progresses, size_of};

use crate::scopes::Scope;
use crate::trail::{Advance, Ends, Head, Stand, Trail, take_segment, target_of};
use bridge_decl::{Module, NoMemory};
use std::alloc::Global;
use std::collections::{BTreeMap, BTreeSet};

/// Aliases, by their modules and their numbers.
type Aliases = BTreeSet<(usize, usize)>;

/// A trail along the target of an alias.
#[derive(Clone, Copy)]
pub struct Frame {
    /// The alias, by its module and its number.
    pub alias: (usize, usize),
    /// How many segments of its target lie behind the trail.
    pub position: usize,
    /// The trail, whose steps count the alias itself.
    pub trail: Trail,
}

/// What comes of a trail along a target.
#[derive(Clone, Copy)]
pub enum Progress {
    /// It comes to the end of the target.
    Ends(Trail),
    /// It comes to an alias of which no end is known.
    Waits(Frame, (usize, usize)),
    /// It stops.
    Stops,
}

/// A search for the ends of aliases.
#[derive(Drop)]
pub struct Search {
    /// The ends that are known.
    pub ends: Ends,
    /// The aliases that are not begun.
    pub unbegun: Aliases,
    /// The trails on their way; each waits for the next one's alias.
    pub stack: Vec<Frame>,
}

fn add_aliases(aliases: &mut Aliases, module: usize, count: usize) -> Result<(), NoMemory>
    ensures { OnOk result ((first second : ℕ) → HasPair aliases.new first second
        ↔ (HasPair aliases.old first second ⊎ ((first ≡ «module») × (second < count)))) }
{
    for number in 0..count {
        aliases.insert((module, number))?;
    }
    Ok(())
}

/// All aliases of modules.
fn all_aliases(alloc: Global, modules: &[Module]) -> Result<Aliases, NoMemory>
    ensures { IfOk result (λ aliases. (first second : ℕ) → HasPair aliases first second
        ↔ IsAlias modules.now (first, second)) }
{
    let mut aliases = BTreeSet::new(alloc);
    for (number, module) in modules.iter().enumerate() {
        add_aliases(&mut aliases, number, module.aliases.len())?;
    }
    Ok(aliases)
}

/// The trail along the target of an alias, at its start.
fn begin(alias: (usize, usize)) -> Frame
    ensures frame { (modules : List Module) → IsAlias modules alias → IsFrame modules result }
    ensures alias { result.alias ≡ alias }
{
    Frame {
        alias,
        position: 0,
        trail: Trail {
            stand: Stand::Module(alias.0, Head::Start),
            steps: 1,
        },
    }
}

/// The trail along a target, as far as it comes.
fn go_on(modules: &[Module], scopes: &[Scope], ends: &Ends, frame: Frame) -> Progress
    ensures { Knows scopes.now modules.now → AreEnds ends.now modules.now
        → IsFrame modules.now frame → Progresses modules.now ends.now frame.alias result }
{
    let target = target_of(modules, frame.alias.0, frame.alias.1);
    let mut trail = frame.trail;
    for position in frame.position..target.len() {
        match take_segment(scopes, ends, trail, &target[position]) {
            Advance::Comes(after) => trail = after,
            Advance::Waits(next) => {
                let waiting = Frame {
                    alias: frame.alias,
                    position,
                    trail,
                };
                return Progress::Waits(waiting, next);
            }
            Advance::Stops => return Progress::Stops,
        }
    }
    Progress::Ends(trail)
}

/// The next trail to go on with: the last one on its way, else that of an alias that isn't begun.
fn next_frame(search: &mut Search) -> Option<Frame>
    ensures smaller { IfSome result (λ _. size_of search.new + 1 ≤ size_of search.old) }
    ensures begun { (modules : List Module) → IsSearch modules search.old.ends search.old.unbegun
        search.old.stack.items
        → IfSome result (λ frame. IsSearch modules search.new.ends search.new.unbegun
        (search.new.stack.items ++ frame ∷ [])) }
    ensures done { (modules : List Module) → IsSearch modules search.old.ends search.old.unbegun
        search.old.stack.items → IfNone result (KnowsEnds search.new.ends modules) }
{
    if let Some(frame) = search.stack.pop() {
        return Some(frame);
    }
    let alias = search.unbegun.pop_first()?;
    Some(begin(alias))
}

/// Has a trail wait for an alias. Where that one waits too, or leads nowhere, so do all that wait.
fn wait_for(search: &mut Search, waiting: Frame, next: (usize, usize)) -> Result<(), NoMemory>
    ensures smaller { OnOk result (size_of search.new ≤ size_of search.old) }
    ensures waits { (modules : List Module) → IsSearch modules search.old.ends search.old.unbegun
        (search.old.stack.items ++ waiting ∷ [])
        → IsWaiting modules search.old.ends waiting.alias next → OnOk result
        (IsSearch modules search.new.ends search.new.unbegun search.new.stack.items) }
{
    if search.unbegun.remove(&next) {
        search.stack.push(waiting)?;
        search.stack.push(begin(next))?;
        Ok(())
    } else {
        search.stack.clear();
        Ok(())
    }
}

/// Goes on with a trail.
fn step(
    modules: &[Module],
    scopes: &[Scope],
    search: &mut Search,
    frame: Frame,
) -> Result<(), NoMemory>
    ensures smaller { OnOk result (size_of search.new ≤ size_of search.old) }
    ensures searches { Knows scopes.now modules.now
        → IsSearch modules.now search.old.ends search.old.unbegun
        (search.old.stack.items ++ frame ∷ [])
        → OnOk result (IsSearch modules.now search.new.ends search.new.unbegun
        search.new.stack.items) }
{
    match go_on(modules, scopes, &search.ends, frame) {
        Progress::Ends(trail) => {
            search.ends.insert(frame.alias, trail)?;
            Ok(())
        }
        Progress::Waits(waiting, next) => wait_for(search, waiting, next),
        Progress::Stops => {
            search.stack.clear();
            Ok(())
        }
    }
}

/// The ends of all aliases that lead somewhere.
pub fn ends_of(alloc: Global, modules: &[Module], scopes: &[Scope]) -> Result<Ends, NoMemory>
    ensures { Knows scopes.now modules.now → IfOk result (λ ends. KnowsEnds ends modules.now) }
{
    let unbegun = all_aliases(alloc, modules)?;
    let mut search = Search {
        ends: BTreeMap::new(alloc),
        unbegun,
        stack: Vec::new(alloc),
    };
    while let Some(frame) = next_frame(&mut search) {
        step(modules, scopes, &mut search, frame)?;
    }
    Ok(search.ends)
}

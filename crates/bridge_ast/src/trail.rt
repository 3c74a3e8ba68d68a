//! Trails along paths.

ghost use Rattle.std.specs.Prelude.{◌≡◌, ◌<◌, ◌^◌, ℕ, List, [], map, slice_index_or, None, Some};
ghost use Rattle.bridge_ast.specs.inside.AliasEnds.{AliasAdvances, TrailAdvances, AreEnds, KnowsEnds, IsAlias};
ghost use Rattle.bridge_ast.specs.inside.Resolution.{next_of, by_name, to_part, to_parent, path_at, target_at};
ghost use Rattle.bridge_decl.specs.declared.modules.Module.{Module};
ghost use Rattle.bridge_ast.specs.EnvFaults.{parent_and_last};
ghost use Rattle.bridge_ast.specs.inside.Scopes.{Knows};
ghost use Rattle.bridge_ast.specs.inside.Trails.{carried_to_end, leads_within, IsInside, IsModule};

use crate::fault::EnvPart;
use crate::place::ItemPlace;
use crate::scopes::{Scope, part_of, submodule_of};
use bridge_decl::{Alias, Module, Text};
use sqlite_items::at;
use std::collections::BTreeMap;

/// What may stand in a path next.
#[derive(Clone, Copy)]
pub enum Head {
    /// `crate`, `self` or `super`, or a name.
    Start,
    /// `super` or a name.
    Supers,
    /// A name alone.
    Names,
}

/// Where a segment leads.
#[derive(Clone, Copy)]
pub enum Next {
    /// To the module of a number, where that may stand next.
    Goes(usize, Head),
    /// To the item of a number of the module.
    Item(usize),
    /// To the alias of a number of the module.
    Alias(usize),
    /// To nothing.
    Nothing,
}

/// Where a trail has come to.
#[derive(Clone, Copy)]
pub enum Stand {
    /// To the module of a number, where that may stand next.
    Module(usize, Head),
    /// To an item.
    Item(ItemPlace),
}

/// A trail on its way.
#[derive(Clone, Copy)]
pub struct Trail {
    /// Where it has come to.
    pub stand: Stand,
    /// How many aliases it has followed.
    pub steps: u128,
}

/// The aliases that lead somewhere, by their modules and their numbers, with the trails to where they lead.
pub type Ends = BTreeMap<(usize, usize), Trail>;

/// What comes of a trail with one more segment.
#[derive(Clone, Copy)]
pub enum Advance {
    /// It comes so far.
    Comes(Trail),
    /// It comes to an alias, given by its module and its number, of which no end is known.
    Waits((usize, usize)),
    /// It stops.
    Stops,
}

fn next_of_part(part: EnvPart) -> Next
    ensures { result ≡ to_part (Some part) }
{
    match part {
        EnvPart::Item(item) => Next::Item(item),
        EnvPart::Alias(alias) => Next::Alias(alias),
        EnvPart::Module | EnvPart::Node { .. } => Next::Nothing,
    }
}

fn next_by_name(scopes: &[Scope], number: usize, name: &Text) -> Next
    ensures { (modules : List Module) → Knows scopes.now modules → IsModule modules number
        → result ≡ by_name modules number name.now }
{
    if let Some(submodule) = submodule_of(scopes, number, name) {
        return Next::Goes(submodule, Head::Names);
    }
    match part_of(scopes, number, name) {
        Some(part) => next_of_part(part),
        None => Next::Nothing,
    }
}

fn next_super(scopes: &[Scope], number: usize) -> Next
    ensures { (modules : List Module) → Knows scopes.now modules → IsModule modules number
        → result ≡ to_parent modules (parent_and_last (path_at modules number)) }
{
    match at(scopes, number) {
        Some(scope) => match scope.parent {
            Some(parent) => Next::Goes(parent, Head::Supers),
            None => Next::Nothing,
        },
        None => Next::Nothing,
    }
}

fn next_after_head(scopes: &[Scope], number: usize, segment: &Text) -> Next
    ensures { (modules : List Module) → Knows scopes.now modules → IsModule modules number
        → result ≡ next_of modules number Head.Supers segment.now }
{
    if segment.as_str() == "super" {
        return next_super(scopes, number);
    }
    next_by_name(scopes, number, segment)
}

fn next_at_start(scopes: &[Scope], number: usize, segment: &Text) -> Next
    ensures { (modules : List Module) → Knows scopes.now modules → IsModule modules number
        → result ≡ next_of modules number Head.Start segment.now }
{
    if segment.as_str() == "crate" {
        return Next::Goes(0, Head::Supers);
    }
    if segment.as_str() == "self" {
        return Next::Goes(number, Head::Supers);
    }
    next_after_head(scopes, number, segment)
}

/// Where a segment leads from the module of a number.
fn next_of_segment(scopes: &[Scope], number: usize, head: Head, segment: &Text) -> Next
    ensures { (modules : List Module) → Knows scopes.now modules → IsModule modules number
        → result ≡ next_of modules number head segment.now }
{
    match head {
        Head::Start => next_at_start(scopes, number, segment),
        Head::Supers => next_after_head(scopes, number, segment),
        Head::Names => next_by_name(scopes, number, segment),
    }
}

fn target_in(aliases: &[Alias], number: usize) -> &[Text]
    ensures { result.now ≡ slice_index_or (map (λ alias. alias.target) aliases.now) number [] }
{
    match at(aliases, number) {
        Some(alias) => alias.target.as_slice(),
        None => &[],
    }
}

/// The target of an alias of the module of a number.
pub fn target_of(modules: &[Module], number: usize, alias: usize) -> &[Text]
    ensures { result.now ≡ target_at modules.now number alias }
{
    match at(modules, number) {
        Some(module) => target_in(module.aliases.as_slice(), alias),
        None => &[],
    }
}

/// The trail that has followed so many aliases, on to where one more alias leads.
fn follow_alias(ends: &Ends, alias: (usize, usize), steps: u128) -> Advance
    ensures { (modules : List Module) → AreEnds ends.now modules → IsAlias modules alias
        → AliasAdvances modules ends.now steps alias result }
{
    match ends.get(&alias) {
        None => Advance::Waits(alias),
        Some(end) => match steps.checked_add(end.steps) {
            None => Advance::Stops,
            Some(steps) => Advance::Comes(Trail {
                stand: end.stand,
                steps,
            }),
        },
    }
}

/// The trail that has followed so many aliases, from a module on to where a segment leads.
fn take_from(
    scopes: &[Scope],
    ends: &Ends,
    number: usize,
    head: Head,
    steps: u128,
    segment: &Text,
) -> Advance
    ensures { (modules : List Module) → Knows scopes.now modules → AreEnds ends.now modules
        → IsModule modules number
        → TrailAdvances modules ends.now
        (record { stand = Stand.Module number head; steps = steps }) segment.now result }
{
    match next_of_segment(scopes, number, head, segment) {
        Next::Goes(to, after) => Advance::Comes(Trail {
            stand: Stand::Module(to, after),
            steps,
        }),
        Next::Item(item) => Advance::Comes(Trail {
            stand: Stand::Item(ItemPlace {
                module: number,
                item,
            }),
            steps,
        }),
        Next::Alias(alias) => follow_alias(ends, (number, alias), steps),
        Next::Nothing => Advance::Stops,
    }
}

/// A trail with one more segment.
pub fn take_segment(scopes: &[Scope], ends: &Ends, trail: Trail, segment: &Text) -> Advance
    ensures { (modules : List Module) → Knows scopes.now modules → AreEnds ends.now modules
        → IsInside modules trail.stand
        → TrailAdvances modules ends.now trail segment.now result }
{
    match trail.stand {
        Stand::Item(_) => Advance::Stops,
        Stand::Module(number, head) => {
            take_from(scopes, ends, number, head, trail.steps, segment)
        }
    }
}

/// The trail along segments, from the module of a number.
pub fn follow(scopes: &[Scope], ends: &Ends, number: usize, segments: &[Text]) -> Option<Trail>
    ensures { (modules : List Module) → Knows scopes.now modules → KnowsEnds ends.now modules
        → IsModule modules number → (steps : ℕ) → steps < 2 ^ 128
        → leads_within steps modules number Head.Start segments.now
        ≡ carried_to_end steps modules result }
{
    let mut trail = Trail {
        stand: Stand::Module(number, Head::Start),
        steps: 0,
    };
    for segment in segments {
        match take_segment(scopes, ends, trail, segment) {
            Advance::Comes(after) => trail = after,
            Advance::Waits(_) => return None,
            Advance::Stops => return None,
        }
    }
    Some(trail)
}

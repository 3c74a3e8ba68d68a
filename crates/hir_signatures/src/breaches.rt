//! What is wrong with paths and lifetimes by themselves, as reports.

ghost use Rattle.std.specs.Prelude.{◌≡◌, ◌≢◌, ◌++◌, [], IfOk, MatchBool, OnErr, OnOk, codes, length, map, string_bytes, take};
ghost use Rattle.std.specs.List.{flat_map};
ghost use Rattle.bridge_decl.specs.Names.{joined, path_text};
ghost use Rattle.hir_attrs.specs.Reading.{about};
ghost use Rattle.hir_number.specs.Breaches.{broken};
ghost use Rattle.hir_reports.specs.Store.{added};
ghost use Rattle.hir_signatures.specs.Errors.{breach_error};

use bridge_decl::{NoMemory, PathType, Text};
use hir_number::Breach;
use hir_reports::{ErrorStore, LoweringError, Rule};
use std::alloc::Global;

fn push_segment(text: &mut String, segment: &Text) -> Result<(), NoMemory>
    ensures { OnOk result (string_bytes text.new
        ≡ string_bytes text.old ++ (codes "::" ++ segment.now)) }
{
    text.push_str("::")?;
    text.push_str(segment.as_str())
}

fn push_rest(text: &mut String, segments: &[Text]) -> Result<(), NoMemory>
    ensures { OnOk result (string_bytes text.new
        ≡ string_bytes text.old ++ flat_map (λ segment. codes "::" ++ segment) segments.now) }
{
    for segment in segments {
        push_segment(text, segment)?;
    }
    Ok(())
}

#[tactic(auto, using(crate::proofs::PathLemmas::pushed))]
fn push_joined(text: &mut String, segments: &[Text]) -> Result<(), NoMemory>
    ensures { OnOk result (string_bytes text.new
        ≡ string_bytes text.old ++ joined (codes "::") segments.now) }
{
    match segments.split_first() {
        Some((first, rest)) => {
            text.push_str(first.as_str())?;
            push_rest(text, rest)
        }
        None => Ok(()),
    }
}

/// The text of a path: its segments with `::` between each two.
fn path_text(alloc: Global, path: &PathType) -> Result<String, NoMemory>
    ensures { IfOk result (λ text. string_bytes text ≡ path_text path.now) }
{
    let mut text = String::new(alloc);
    push_joined(&mut text, path.segments.as_slice())?;
    Ok(text)
}

/// The rule is broken by the path.
fn path_error(alloc: Global, rule: Rule, path: &PathType) -> Result<LoweringError, NoMemory>
    ensures { IfOk result (λ error. error ≡ about rule (path_text path.now)) }
{
    let text = path_text(alloc, path)?;
    LoweringError::new(alloc, rule, &[text.as_str()])
}

/// A breach as an error: the rule of its name, with the path or the lifetime as its argument.
/// `NoMemory` where there is no memory for it.
pub fn breach_error(alloc: Global, breach: Breach<'_>) -> Result<LoweringError, NoMemory>
    ensures { IfOk result (λ error. error ≡ breach_error (broken breach.entry)) }
{
    match breach {
        Breach::UnresolvedPath(path) => path_error(alloc, Rule::UnresolvedPath, path),
        Breach::LifetimeArity(path) => path_error(alloc, Rule::LifetimeArity, path),
        Breach::SelfMismatch => Ok(LoweringError::plain(alloc, Rule::SelfMismatch)),
        Breach::LifetimeUnknown(name) => {
            LoweringError::new(alloc, Rule::LifetimeUnknown, &[name.as_str()])
        }
        Breach::TooManyLifetimes => Ok(LoweringError::plain(alloc, Rule::TooManyLifetimes)),
    }
}

fn push_each(
    alloc: Global,
    breaches: &[Breach<'_>],
    errors: &mut ErrorStore<'_>,
) -> Result<(), NoMemory>
    ensures ok { OnOk result (errors.new
        ≡ added errors.old (map (λ b. breach_error (broken b)) breaches.entry.now)) }
    ensures reports { OnErr result
        (take (length errors.old.reports) errors.new.reports ≡ errors.old.reports) }
    ensures place { OnErr result (errors.new.place ≡ errors.old.place) }
{
    for breach in breaches {
        let error = breach_error(alloc, *breach)?;
        errors.push(error)?;
    }
    Ok(())
}

/// Tells each breach, in order, at the place of the store. `NoMemory` where there is no memory for
/// all of them: then the store holds what it held.
#[tactic(auto, using(crate::proofs::BreachLemmas::composed))]
pub fn tell_breaches(
    alloc: Global,
    breaches: &[Breach<'_>],
    errors: &mut ErrorStore<'_>,
) -> Result<(), NoMemory>
    ensures told { OnOk result
        (errors.new ≡ added errors.old (map breach_error (map broken breaches.entry.now))) }
    ensures err { OnErr result (errors.new ≡ errors.old) }
{
    let held = errors.len();
    let done = push_each(alloc, breaches, errors);
    if done.is_err() {
        errors.truncate(held);
    }
    done
}

/// Whether there are no breaches.
#[tactic(auto, using(crate::proofs::BreachLemmas::some_left))]
pub fn are_none(breaches: &[Breach<'_>]) -> bool
    ensures { MatchBool result (map broken breaches.entry.now ≡ [])
        (map broken breaches.entry.now ≢ []) }
{
    match breaches {
        [] => true,
        [_, ..] => false,
    }
}

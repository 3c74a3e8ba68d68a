//! The numbers of uses, each by what stands before it alone.

ghost use Rattle.std.specs.Prelude.{◌≡◌, ◌∷◌, [], map, IfOk, OnOk};
ghost use Rattle.hir_elide.specs.Elision.{elided};
ghost use Rattle.hir_elide.specs.Generics.{all_or_fault, lowered_generics};
ghost use Rattle.hir_elide.specs.Phases.{lowered, lowered_each, with_uses};
ghost use Rattle.hir_number.specs.Faults.{of_elided};
ghost use Rattle.hir_number.specs.Numbers.{all_answers, answers, signature_numbers, use_answer};
ghost use Rattle.hir_number.specs.Occurrences.{signature_with};
ghost use Rattle.hir_number.specs.Signatures.{phase_of};
ghost use Rattle.hir_number_slow.specs.Seen.{part_seen, placed_seen, use_seen, written_seen};
ghost use Rattle.hir_number_slow.specs.inside.Parts.{before_seen, mode_seen};

use crate::before::{Before, MOST, Number, number_after, used_as};
use crate::occurrences::{
    Occurrence, Role, Written, as_written, has_own, lifetimes_used, slow_occurrences,
};
use crate::uses::{Part, PlacedUse, Use};
use bridge_decl::{Items, LifetimeEnv};
use hir_elide::ElideFault;
use hir_life::Lifetimes;
use hir_number::NumberFault;
use std::alloc::{AllocError, Global};

/// The numbers of a use's lifetimes, or what is broken.
pub type Answer = Result<Lifetimes, NumberFault>;

/// How lifetimes are lowered.
#[derive(Clone, Copy)]
pub enum Mode {
    /// They are used with that role.
    Uses(Role),
    /// They are returned.
    Returns,
    /// They stand in a definition.
    Defines,
}

fn mode_of(part: Part) -> Mode
    ensures { mode_seen result ≡ phase_of (part_seen part) }
{
    match part {
        Part::Borrow => Mode::Uses(Role::Borrow),
        Part::Input | Part::TraitOutput => Mode::Uses(Role::Counting),
        Part::Output => Mode::Returns,
        Part::Field => Mode::Defines,
    }
}

/// What a lifetime stands for that a return leaves out.
fn elided(alloc: Global, before: &Before<'_>) -> Result<Number, AllocError>
    ensures { IfOk result (λ number. number ≡ elided (before_seen before.now)) }
{
    let occurrences = before.occurrences.as_slice();
    let borrows = used_as(alloc, before.declared, occurrences, Role::Borrow)?;
    let counting = used_as(alloc, before.declared, occurrences, Role::Counting)?;
    match (borrows.as_slice(), counting.as_slice()) {
        ([borrow, ..], _) => Ok(*borrow),
        ([], []) => Ok(Err(ElideFault::ElisionNoSource)),
        ([], [one]) => Ok(*one),
        ([], _) => Ok(Err(ElideFault::ElisionAmbiguous)),
    }
}

/// The number of a lifetime that is used next.
fn lower(
    alloc: Global,
    before: &Before<'_>,
    mode: Mode,
    lifetime: &Written<'_>,
) -> Result<Number, AllocError>
    ensures { IfOk result (λ number.
        number ≡ lowered (mode_seen mode) (before_seen before.now) (written_seen lifetime.now)) }
{
    match (mode, *lifetime) {
        (Mode::Returns, Written::Anonymous) => elided(alloc, before),
        (Mode::Defines, Written::Anonymous) => Ok(Err(ElideFault::AnonymousInDefinition)),
        _ => Ok(number_after(before.declared, before.occurrences.as_slice(), lifetime)),
    }
}

/// Uses a lifetime.
fn add<'m>(before: &mut Before<'m>, mode: Mode, lifetime: &Written<'m>) -> Result<(), AllocError>
    ensures { OnOk result (before_seen before.new
        ≡ with_uses (mode_seen mode) (before_seen before.old)
        (written_seen lifetime.now ∷ [])) }
{
    match mode {
        Mode::Uses(role) => before.occurrences.push(Occurrence {
            lifetime: *lifetime,
            role,
        })?,
        Mode::Returns | Mode::Defines => {}
    }
    Ok(())
}

/// The numbers of lifetimes that are used next, one after another.
fn lower_each<'m>(
    alloc: Global,
    before: &mut Before<'m>,
    mode: Mode,
    lifetimes: &[Written<'m>],
) -> Result<Vec<Number>, AllocError>
    ensures { IfOk result (λ numbers. numbers.items
        ≡ lowered_each (mode_seen mode) (before_seen before.old)
        (map written_seen lifetimes.now)) }
{
    let mut numbers = Vec::new(alloc);
    for lifetime in lifetimes {
        numbers.push(lower(alloc, before, mode, lifetime)?)?;
        add(before, mode, lifetime)?;
    }
    Ok(numbers)
}

/// The numbers of a path's generics; those of `Self` are the ones of its first occurrence, where it was met.
fn lower_generics<'m>(
    alloc: Global,
    before: &mut Before<'m>,
    mode: Mode,
    is_self: bool,
    lifetimes: &[Written<'m>],
) -> Result<Vec<Number>, AllocError>
    ensures { IfOk result (λ numbers. numbers.items
        ≡ lowered_generics (mode_seen mode) is_self (before_seen before.old)
        (map written_seen lifetimes.now)) }
{
    if !is_self || matches!(mode, Mode::Defines) {
        return lower_each(alloc, before, mode, lifetimes);
    }
    if before.met {
        let occurrences = before.occurrences.as_slice();
        return used_as(alloc, before.declared, occurrences, Role::Own);
    }
    lower_each(alloc, before, Mode::Uses(Role::Own), lifetimes)
}

/// All of these numbers, or the first rule that is broken.
fn all_or_fault(alloc: Global, numbers: &[Number]) -> Result<Answer, AllocError>
    ensures { IfOk result (λ answer. answer ≡ of_elided (all_or_fault numbers.now)) }
{
    let mut lifetimes = Lifetimes::new(alloc);
    for number in numbers {
        match *number {
            Ok(number) => lifetimes.push(number)?,
            Err(fault) => return Ok(Err(NumberFault::from(fault))),
        }
    }
    Ok(Ok(lifetimes))
}

/// The answer of a use after what stands before it.
fn use_answer<'m>(
    alloc: Global,
    before: &mut Before<'m>,
    mode: Mode,
    used: &Use<'m>,
) -> Result<Answer, AllocError>
    ensures { IfOk result (λ answer. answer
        ≡ use_answer (mode_seen mode) (before_seen before.old) (use_seen used.now)) }
{
    match *used {
        Use::One(lifetime) => {
            let number = lower(alloc, before, mode, &as_written(lifetime))?;
            all_or_fault(alloc, &[number])
        }
        Use::Path(_, _, None) => Ok(Err(NumberFault::UnresolvedPath)),
        Use::Path(is_self, path, Some(found)) => {
            if found.count < path.lifetimes.len() {
                return Ok(Err(NumberFault::LifetimeArity));
            }
            let lifetimes = lifetimes_used(alloc, used)?;
            let numbers = lower_generics(alloc, before, mode, is_self, lifetimes.as_slice())?;
            all_or_fault(alloc, numbers.as_slice())
        }
    }
}

/// What stands before a use: what these uses before it use.
fn before_of<'m>(
    alloc: Global,
    declared: &'m LifetimeEnv,
    uses: &[PlacedUse<'m>],
) -> Result<Before<'m>, AllocError>
    ensures { IfOk result (λ before.
        before_seen before ≡ signature_with declared.entry.now (map placed_seen uses.now)) }
{
    Ok(Before {
        declared,
        occurrences: slow_occurrences(alloc, uses)?,
        met: has_own(uses),
    })
}

/// The answer of a use that stands after these.
fn answer_after<'m>(
    alloc: Global,
    declared: &'m LifetimeEnv,
    uses: &[PlacedUse<'m>],
    next: &PlacedUse<'m>,
) -> Result<Answer, AllocError>
    ensures { IfOk result (λ answer. answer ≡ use_answer (phase_of (part_seen next.now.part))
        (signature_with declared.entry.now (map placed_seen uses.now)) (use_seen next.now.used)) }
{
    let mut before = before_of(alloc, declared, uses)?;
    use_answer(alloc, &mut before, mode_of(next.part), &next.used)
}

/// The answer of each use where these lifetimes are declared: its numbers, or the fault.
pub fn slow_answers<'m>(
    alloc: Global,
    declared: &'m LifetimeEnv,
    uses: &[PlacedUse<'m>],
) -> Result<Vec<Answer>, AllocError>
    ensures { IfOk result (λ found.
        found.items ≡ answers declared.entry.now (map placed_seen uses.now)) }
{
    let mut answers = Vec::new(alloc);
    for index in 0..uses.len() {
        answers.push(answer_after(alloc, declared, &uses[..index], &uses[index])?)?;
    }
    Ok(answers)
}

/// All answers, or the first fault.
fn all_answers(
    alloc: Global,
    answers: Vec<Answer>,
) -> Result<Result<Items<Lifetimes>, NumberFault>, AllocError>
    ensures { IfOk result (λ all. all ≡ all_answers answers.items) }
{
    let mut numbers = Items::new(alloc);
    for answer in answers {
        match answer {
            Ok(lifetimes) => numbers.push(lifetimes)?,
            Err(fault) => return Ok(Err(fault)),
        }
    }
    Ok(Ok(numbers))
}

/// The numbers of all uses where these lifetimes are declared, a list for each, or the first fault.
pub fn slow_numbers<'m>(
    alloc: Global,
    declared: &'m LifetimeEnv,
    uses: &[PlacedUse<'m>],
) -> Result<Result<Items<Lifetimes>, NumberFault>, AllocError>
    ensures { IfOk result (λ numbers.
        numbers ≡ signature_numbers declared.entry.now (map placed_seen uses.now)) }
{
    if declared.nodes.len() > MOST {
        return Ok(Err(NumberFault::Elide(ElideFault::TooManyLifetimes)));
    }
    all_answers(alloc, slow_answers(alloc, declared, uses)?)
}

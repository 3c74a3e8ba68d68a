//! Lists of lifetimes, lowered one after another. Room is made for a whole list before its first lifetime is lowered, so that
//! nothing was lowered where there is no memory.

ghost use Rattle.std.specs.Prelude.{◌≡◌, ◌≤◌, ◌+◌, List, Ok, Err, IfOk, IfErr, OnOk, IsErrOf, length, map, replicate, ◌++◌};
ghost use Rattle.bridge_decl.specs.declared.lifetimes.Lifetime.{Lifetime as Used};
ghost use Rattle.bridge_decl.specs.declared.lifetimes.Lifetime.TheVariants as used_as;
ghost use Rattle.hir_elide.specs.Generics.{IsUnlessNoMemory, all_or_fault, filled};
ghost use Rattle.hir_elide.specs.Occurrences.{Signature, count_of};
ghost use Rattle.hir_elide.specs.Phases.{lowered_each, with_uses};
ghost use Rattle.hir_elide.specs.inside.Rooms.{IsRoomFor};
ghost use Rattle.hir_life.specs.Substitution.{AreBelow};

use crate::fault::ElideFault;
use crate::lowerer::LowerLifetime;
use bridge_decl::{Lifetime as Written, NoMemory};
use hir_life::{Lifetime, Lifetimes, MaybeStatic};
use smallvec::SmallVec;
use std::alloc::Global;

/// A list with room for so many lifetimes.
pub fn room_for(
    alloc: Global,
    places: usize,
) -> Result<SmallVec<MaybeStatic<Lifetime>, 2>, NoMemory>
    ensures { IfOk result (λ room. IsRoomFor places room) }
{
    let mut room = SmallVec::new(alloc);
    room.reserve(places)?;
    Ok(room)
}

/// An equal list, in the room that was made for it.
pub fn copied(lifetimes: &Lifetimes, room: SmallVec<MaybeStatic<Lifetime>, 2>) -> Lifetimes
    requires { IsRoomFor (length lifetimes.now) room }
    ensures { result ≡ lifetimes.now }
{
    let mut copy = room;
    for lifetime in lifetimes.as_slice() {
        copy.push_reserved(*lifetime);
    }
    Lifetimes::from_list(copy)
}

/// The lifetimes that are written, in the room that was made for so many.
fn lower_written<L: LowerLifetime>(
    lowerer: &mut L,
    lifetimes: &[Written],
    room: SmallVec<MaybeStatic<Lifetime>, 2>,
) -> Result<SmallVec<MaybeStatic<Lifetime>, 2>, ElideFault>
    requires { IsRoomFor (length lifetimes.now) room }
    ensures numbers { (s : Signature) → L.stands lowerer.old s
        → IfOk result
        (λ numbers. lowered_each L.phase s lifetimes.now ≡ map Ok numbers.items) }
    ensures kept { (s : Signature) → L.stands lowerer.old s
        → OnOk result (L.stands lowerer.new (with_uses L.phase s lifetimes.now)) }
    ensures fault { (s : Signature) → L.stands lowerer.old s
        → IfErr result
        (λ fault. all_or_fault (lowered_each L.phase s lifetimes.now) ≡ Err fault) }
    ensures memory { ¬ (IsErrOf result ElideFault.NoMemory) }
    ensures arity { IfOk result (λ numbers. length numbers.items ≡ length lifetimes.now) }
    ensures room { IfOk result (λ numbers. numbers.capacity ≡ room.capacity) }
{
    let mut lowered = room;
    for lifetime in lifetimes {
        let number = lowerer.lower_lifetime(lifetime)?;
        lowered.push_reserved(number);
    }
    Ok(lowered)
}

/// Those with so many anonymous ones after them, for which there is room.
fn lower_unwritten<L: LowerLifetime>(
    lowerer: &mut L,
    written: SmallVec<MaybeStatic<Lifetime>, 2>,
    count: usize,
) -> Result<SmallVec<MaybeStatic<Lifetime>, 2>, ElideFault>
    requires { length written.items + count ≤ written.capacity }
    ensures numbers { (s : Signature) (ls : List Used)
        → L.stands lowerer.old (with_uses L.phase s ls)
        → lowered_each L.phase s ls ≡ map Ok written.items
        → IfOk result
        (λ numbers. lowered_each L.phase s (ls ++ replicate count used_as.Anonymous)
        ≡ map Ok numbers.items) }
    ensures kept { (s : Signature) (ls : List Used)
        → L.stands lowerer.old (with_uses L.phase s ls)
        → lowered_each L.phase s ls ≡ map Ok written.items
        → OnOk result (L.stands lowerer.new (with_uses L.phase s
        (ls ++ replicate count used_as.Anonymous))) }
    ensures fault { (s : Signature) (ls : List Used)
        → L.stands lowerer.old (with_uses L.phase s ls)
        → lowered_each L.phase s ls ≡ map Ok written.items
        → IfErr result (λ fault. all_or_fault (lowered_each L.phase s
        (ls ++ replicate count used_as.Anonymous)) ≡ Err fault) }
    ensures memory { ¬ (IsErrOf result ElideFault.NoMemory) }
    ensures arity { IfOk result
        (λ numbers. length numbers.items ≡ length written.items + count) }
{
    let mut lowered = written;
    for _ in 0..count {
        let number = lowerer.lower_lifetime(&Written::Anonymous)?;
        lowered.push_reserved(number);
    }
    Ok(lowered)
}

/// The lifetimes that are written, and anonymous ones after them, so many in all.
pub fn lower_each<L: LowerLifetime>(
    alloc: Global,
    lowerer: &mut L,
    lifetimes: &[Written],
    count: usize,
) -> Result<Lifetimes, ElideFault>
    requires { length lifetimes.now ≤ count }
    ensures told { (s : Signature) → L.stands lowerer.old s
        → IsUnlessNoMemory result
        (all_or_fault (lowered_each L.phase s (filled lifetimes.now count))) }
    ensures kept { (s : Signature) → L.stands lowerer.old s
        → OnOk result (L.stands lowerer.new (with_uses L.phase s (filled lifetimes.now count))) }
    ensures numbers { (s : Signature) → L.stands lowerer.old s
        → IfOk result (λ numbers. lowered_each L.phase s (filled lifetimes.now count)
        ≡ map Ok numbers) }
    ensures within { (s : Signature) → L.stands lowerer.old s
        → IfOk result (AreBelow (count_of (with_uses L.phase s (filled lifetimes.now count)))) }
    ensures memory { IsErrOf result ElideFault.NoMemory → lowerer.new ≡ lowerer.old }
    ensures arity { IfOk result (λ numbers. length numbers ≡ count) }
{
    let room = room_for(alloc, count)?;
    let written = lower_written(lowerer, lifetimes, room)?;
    let lowered = lower_unwritten(lowerer, written, count - lifetimes.len())?;
    Ok(Lifetimes::from_list(lowered))
}

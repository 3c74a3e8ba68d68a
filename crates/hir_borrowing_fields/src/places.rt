//! Places, each with the steps that lead to it.

ghost use Rattle.std.specs.Prelude.{◌≡◌, ◌<◌, [], ◌∷◌, ◌++◌, length, slice_index_or, codes, Some, OnOk, OnErr};
ghost use Rattle.std.specs.Fmt.{DisplaysOnOk};
ghost use Rattle.std.specs.List.{FoldsTo, enumerate_from};
ghost use Rattle.bridge_decl.specs.Names.{joined};
ghost use Rattle.hir_borrowing_fields.specs.Calls.{CalledAtName, TriesEach};
ghost use Rattle.hir_borrowing_fields.specs.inside.Places.{IsAbove, HasStepIn, IsPlaceIn, IsRootedAt, Step, step_names, step_numbers, steps_to};

use bridge_decl::{IdentBuf, Items, NoMemory};
use std::alloc::Global;
use std::fmt;
use std::marker::Model;

/// A place: what it stands in, and its own number and name there.
#[derive(Clone, Copy)]
pub(crate) struct Place<'m> {
    /// The place that it stands in, unless it stands at the root.
    pub(crate) parent: Option<usize>,
    /// Its own number.
    pub(crate) number: usize,
    /// Its own name.
    pub(crate) name: &'m IdentBuf,
}

/// Places, in the order in which they were added. Contracts see the steps that lead to each.
///
/// A place takes the room of its own step alone: it shares those before it with the place that it
/// stands in.
#[derive(Drop)]
pub(crate) struct Places<'m> {
    places: Vec<Place<'m>>,
}

impl<'m> Model for Places<'m> {
    ghost use Rattle.std.specs.Prelude.{List};
    ghost use Rattle.hir_borrowing_fields.specs.inside.Places.{Step};

    ghost Value = { List (List Step) };

    ghost use Rattle.hir_borrowing_fields.specs.inside.Places.{ways_to, AreRooted};

    ghost view = { λ it. ways_to it.places.items };

    ghost invariant = { λ it. AreRooted 0 it.places.items };
}

impl<'m> Places<'m> {
    /// No places.
    pub(crate) fn new(alloc: Global) -> Places<'m>
        ensures { result ≡ [] }
    {
        Places {
            places: Vec::new(alloc),
        }
    }

    /// How many places there are.
    pub(crate) fn len(&self) -> usize
        ensures { result ≡ length self.now }
    {
        self.places.len()
    }

    /// Adds a place. Without memory for it there are the places as before.
    pub(crate) fn add(&mut self, place: &Place<'m>) -> Result<(), NoMemory>
        requires { IsPlaceIn self.old place.now.parent }
        ensures ok { OnOk result (self.new ≡ self.old ++ steps_to self.old place.now ∷ []) }
        ensures err { OnErr result (self.new ≡ self.old) }
    {
        self.places.push(*place)?;
        Ok(())
    }

    /// The place of this number.
    fn place(&self, place: usize) -> Place<'m>
        requires { place < length self.now }
        ensures rooted { IsRootedAt place result.parent }
        ensures within { IsPlaceIn self.now result.parent }
        ensures stepped { HasStepIn self.now result.parent }
        ensures steps { slice_index_or self.now place [] ≡ steps_to self.now result }
    {
        self.places[place]
    }

    /// The place that another stands in, to which more than one step leads.
    fn parent(&self, place: usize) -> usize
        requires within { place < length self.now }
        requires inside { 1 < length (slice_index_or self.now place []) }
        ensures within { result < place }
        ensures steps { (step : Step) × (slice_index_or self.now place []
            ≡ slice_index_or self.now result [] ++ step ∷ []) }
    {
        match self.place(place).parent {
            Some(parent) => parent,
            None => unreachable!(),
        }
    }

    /// How many steps lead to a place.
    fn depth(&self, place: usize) -> usize
        requires { place < length self.now }
        ensures { result ≡ length (slice_index_or self.now place []) }
    {
        // There are no fewer places, so the sum below fits.
        let _count = self.len();
        let mut at = place;
        let mut depth = 1;
        while let Some(parent) = self.place(at).parent {
            at = parent;
            depth += 1;
        }
        depth
    }

    /// The place from which so many steps lead to another.
    fn above(&self, place: usize, up: usize) -> usize
        requires within { place < length self.now }
        requires inside { up < length (slice_index_or self.now place []) }
        ensures within { result < length self.now }
        ensures steps { IsAbove (slice_index_or self.now place []) up
            (slice_index_or self.now result []) }
    {
        let mut at = place;
        for _ in 0..up {
            at = self.parent(at);
        }
        at
    }

    /// Calls the function at each name that leads to a place, from the root on, with its number,
    /// which is 0 at first. It takes no memory, and about n² / 2 steps for n names.
    pub(crate) fn backtrace<F: FnMut(usize, &'m IdentBuf)>(&self, place: usize, visit: &mut F)
        requires within { place < length self.now }
        requires callable { F.IsAlwaysCallable visit.old }
        ensures called { FoldsTo (λ p x q. CalledAtName F.FnMut p x tt q) visit.old
            (enumerate_from 0 (step_names (slice_index_or self.now place []))) visit.new }
        ensures callable { F.IsAlwaysCallable visit.new }
    {
        let depth = self.depth(place);
        for number in 0..depth {
            let at = self.above(place, depth - 1 - number);
            call(visit, number, self.place(at).name);
        }
    }

    /// The same until the function answers with an error, which is the answer then.
    pub(crate) fn try_backtrace<E, F: FnMut(usize, &'m IdentBuf) -> Result<(), E>>(
        &self,
        place: usize,
        visit: &mut F,
    ) -> Result<(), E>
        requires within { place < length self.now }
        requires callable { F.IsAlwaysCallable visit.old }
        ensures called { TriesEach (CalledAtName F.FnMut) visit.old
            (enumerate_from 0 (step_names (slice_index_or self.now place []))) result visit.new }
        ensures callable { F.IsAlwaysCallable visit.new }
    {
        let depth = self.depth(place);
        for number in 0..depth {
            let at = self.above(place, depth - 1 - number);
            match try_call(visit, number, self.place(at).name) {
                Ok(()) => {}
                Err(error) => return Err(error),
            }
        }
        Ok(())
    }

    /// Adds the numbers of the steps that lead to a place, from the root on.
    pub(crate) fn add_path(&self, path: &mut Items<usize>, place: usize) -> Result<(), NoMemory>
        requires { place < length self.now }
        ensures { OnOk result (path.new
            ≡ path.old ++ step_numbers (slice_index_or self.now place [])) }
    {
        let here = self.place(place);
        match here.parent {
            Some(parent) => {
                self.add_path(path, parent)?;
                path.push(here.number)?;
                Ok(())
            }
            None => {
                path.push(here.number)?;
                Ok(())
            }
        }
    }

    /// Writes the names that lead to a place, from the root on, with `.` between each two.
    pub(crate) fn put_names<W: fmt::Write>(
        &self,
        f: &mut fmt::Formatter<W>,
        place: usize,
    ) -> fmt::Result
        requires { place < length self.now }
        ensures { DisplaysOnOk W.write_str_gives f.old result
            (Some (joined (codes ".") (step_names (slice_index_or self.now place [])))) f.new }
    {
        let here = self.place(place);
        match here.parent {
            Some(parent) => {
                self.put_names(f, parent)?;
                f.write_str(".")?;
                f.write_str(here.name.as_str())
            }
            None => f.write_str(here.name.as_str()),
        }
    }
}

/// Calls the function at a name.
fn call<'m, F: FnMut(usize, &'m IdentBuf)>(visit: &mut F, number: usize, name: &'m IdentBuf)
    requires { F.IsAlwaysCallable visit.old }
    ensures called { CalledAtName F.FnMut visit.old (number, name.now) tt visit.new }
    ensures callable { F.IsAlwaysCallable visit.new }
{
    visit(number, name);
}

/// Calls the function at a name, and answers as it does.
fn try_call<'m, E, F: FnMut(usize, &'m IdentBuf) -> Result<(), E>>(
    visit: &mut F,
    number: usize,
    name: &'m IdentBuf,
) -> Result<(), E>
    requires { F.IsAlwaysCallable visit.old }
    ensures called { CalledAtName F.FnMut visit.old (number, name.now) result visit.new }
    ensures callable { F.IsAlwaysCallable visit.new }
{
    visit(number, name)
}

//! The leaves that were found.

ghost use Rattle.std.specs.Prelude.{◌≡◌, ◌<◌, [], ◌∷◌, ◌++◌, length, codes, Some, IfOk, OnOk};
ghost use Rattle.std.specs.Fmt.{DisplaysOnOk};
ghost use Rattle.std.specs.List.{FoldsTo, enumerate_from};
ghost use Rattle.bridge_decl.specs.Names.{joined};
ghost use Rattle.hir_borrowing_fields.specs.Calls.{CalledAtName, TriesEach};
ghost use Rattle.hir_borrowing_fields.specs.NamedLeaves.{leaf_at};
ghost use Rattle.hir_borrowing_fields.specs.inside.Findings.{FindsMore, leaf_behind};
ghost use Rattle.hir_borrowing_fields.specs.inside.Places.{IsPlaceIn, steps_to};

use crate::places::{Place, Places};
use bridge_decl::{IdentBuf, Items, NoMemory};
use hir_life::Lifetimes;
use std::alloc::Global;
use std::fmt;
use std::marker::Model;

/// A leaf: its place, and what it carries.
#[derive(Drop)]
pub(crate) struct FoundLeaf {
    place: usize,
    carried: Lifetimes,
}

/// The leaves that were found, in order, and the places on the way to them. Contracts see the
/// steps that lead to each place, and the path and the names of each leaf.
#[derive(Drop)]
pub(crate) struct FoundLeaves<'m> {
    places: Places<'m>,
    leaves: Vec<FoundLeaf>,
}

impl<'m> Model for FoundLeaves<'m> {
    ghost use Rattle.hir_borrowing_fields.specs.inside.Findings.{Findings};

    ghost Value = { Findings };

    ghost use Rattle.hir_borrowing_fields.specs.inside.Findings.{ArePlaced, leaves_placed};

    ghost view = { λ it. record {
      places = it.places;
      leaves = leaves_placed it.places it.leaves.items;
    } };

    ghost invariant = { λ it. ArePlaced it.places it.leaves.items };
}

impl<'m> FoundLeaves<'m> {
    /// Nothing.
    pub(crate) fn new(alloc: Global) -> FoundLeaves<'m>
        ensures { result ≡ record { places = []; leaves = [] } }
    {
        FoundLeaves {
            places: Places::new(alloc),
            leaves: Vec::new(alloc),
        }
    }

    /// How many leaves there are.
    pub(crate) fn len(&self) -> usize
        ensures { result ≡ length self.now.leaves }
    {
        self.leaves.len()
    }

    /// Adds a place, and answers its number.
    pub(crate) fn add_place(&mut self, place: &Place<'m>) -> Result<usize, NoMemory>
        requires { IsPlaceIn self.old.places place.now.parent }
        ensures place { IfOk result (λ at. at ≡ length self.old.places) }
        ensures places { OnOk result (self.new.places ≡ self.old.places
            ++ steps_to self.old.places place.now ∷ []) }
        ensures leaves { OnOk result (self.new.leaves ≡ self.old.leaves) }
    {
        let at = self.places.len();
        self.places.add(place)?;
        Ok(at)
    }

    /// Adds a leaf that carries these, and its place.
    pub(crate) fn add_leaf(&mut self, place: &Place<'m>, carried: Lifetimes) -> Result<(), NoMemory>
        requires { IsPlaceIn self.old.places place.now.parent }
        ensures { OnOk result (FindsMore self.old self.new
            (leaf_behind (steps_to self.old.places place.now) carried ∷ [])) }
    {
        let place = self.add_place(place)?;
        self.leaves.push(FoundLeaf { place, carried })?;
        Ok(())
    }

    /// What the leaf of this number carries.
    pub(crate) fn carried(&self, i: usize) -> &Lifetimes
        requires { i < length self.now.leaves }
        ensures { result.now ≡ (leaf_at self.now.leaves i).carried }
    {
        &self.leaves[i].carried
    }

    /// Calls the function at each name that leads to the leaf of this number, in order, with the
    /// number of the name.
    pub(crate) fn backtrace<F: FnMut(usize, &'m IdentBuf)>(&self, i: usize, visit: &mut F)
        requires within { i < length self.now.leaves }
        requires callable { F.IsAlwaysCallable visit.old }
        ensures called { FoldsTo (λ p x q. CalledAtName F.FnMut p x tt q) visit.old
            (enumerate_from 0 (leaf_at self.now.leaves i).names) visit.new }
        ensures callable { F.IsAlwaysCallable visit.new }
    {
        self.places.backtrace(self.leaves[i].place, visit);
    }

    /// The same until the function answers with an error, which is the answer then.
    pub(crate) fn try_backtrace<E, F: FnMut(usize, &'m IdentBuf) -> Result<(), E>>(
        &self,
        i: usize,
        visit: &mut F,
    ) -> Result<(), E>
        requires within { i < length self.now.leaves }
        requires callable { F.IsAlwaysCallable visit.old }
        ensures called { TriesEach (CalledAtName F.FnMut) visit.old
            (enumerate_from 0 (leaf_at self.now.leaves i).names) result visit.new }
        ensures callable { F.IsAlwaysCallable visit.new }
    {
        self.places.try_backtrace(self.leaves[i].place, visit)
    }

    /// The numbers of the input and of the fields that lead to the leaf of this number.
    pub(crate) fn path(&self, i: usize, alloc: Global) -> Result<Items<usize>, NoMemory>
        requires { i < length self.now.leaves }
        ensures { IfOk result (λ path. path ≡ (leaf_at self.now.leaves i).path) }
    {
        let mut path = Items::new(alloc);
        self.places.add_path(&mut path, self.leaves[i].place)?;
        Ok(path)
    }

    /// Writes the names that lead to the leaf of this number, with `.` between each two.
    pub(crate) fn put_names<W: fmt::Write>(
        &self,
        f: &mut fmt::Formatter<W>,
        i: usize,
    ) -> fmt::Result
        requires { i < length self.now.leaves }
        ensures { DisplaysOnOk W.write_str_gives f.old result
            (Some (joined (codes ".") (leaf_at self.now.leaves i).names)) f.new }
    {
        self.places.put_names(f, self.leaves[i].place)
    }
}

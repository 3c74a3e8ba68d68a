//! The visitor of all leaves of the inputs of a method.

ghost use Rattle.std.specs.Prelude.{◌≡◌, ◌<◌, length, map, option_map, slice_get, codes, Some, IfOk};
ghost use Rattle.std.specs.Fmt.{DisplaysOnOk};
ghost use Rattle.std.specs.List.{FoldsTo, enumerate_from};
ghost use Rattle.bridge_decl.specs.Names.{joined};
ghost use Rattle.hir_context.specs.Fitness.{MethodFits};
ghost use Rattle.hir_borrowing_fields.specs.Calls.{CalledAtName, TriesEach};
ghost use Rattle.hir_skeleton.specs.NamedLeaves.{borrowing_leaves};
ghost use Rattle.hir_borrowing_fields.specs.NamedLeaves.{leaf_at, lifetimes_with_leaves};
ghost use Rattle.hir_borrowing_fields.specs.VisitedLeaves.{CalledAtLeaf, visited_leaf};

use crate::fields::BorrowingField;
use crate::found::FoundLeaves;
use crate::inputs::find_leaves;
use bridge_decl::{IdentBuf, Items, NoMemory};
use hir_context::TypeContext;
use hir_definitions::Method;
use hir_life::{Lifetime, Lifetimes, MaybeStatic};
use std::alloc::Global;
use std::fmt;
use std::marker::Model;

/// The leaves of the inputs of a method: all that carries lifetimes in them, at any depth.
/// Contracts see the list of the leaves, each with its path, the names along it and what it
/// carries.
///
/// The leaves stand in order: those of the receiver first, then those of each parameter, and
/// inside a struct those of each field. A leaf takes the room of what it carries and of its own
/// name and number: leaves share those of what they stand in.
#[derive(Drop)]
pub struct BorrowingFieldVisitor<'m> {
    found: FoundLeaves<'m>,
}

impl<'m> Model for BorrowingFieldVisitor<'m> {
    ghost use Rattle.std.specs.Prelude.{List};
    ghost use Rattle.hir_skeleton.specs.NamedLeaves.{NamedLeaf};

    ghost Value = { List NamedLeaf };

    ghost view = { λ it. it.found.leaves };
}

impl<'m> BorrowingFieldVisitor<'m> {
    /// All leaves of the inputs of a method that fits the context. The receiver has the name
    /// `self_name`. The only fault is want of memory.
    ///
    /// A struct without leaves is looked into once for each number of levels that are left,
    /// however often it stands in others.
    pub fn new(
        alloc: Global,
        method: &'m Method,
        tcx: &'m TypeContext,
        self_name: &'m IdentBuf,
    ) -> Result<Self, NoMemory>
        requires fits { MethodFits tcx.now.definitions method.now }
        ensures { IfOk result (λ visitor.
            visitor ≡ borrowing_leaves tcx.now.definitions self_name.now method.now) }
    {
        let args = method.method_lifetimes(alloc)?;
        let found = find_leaves(alloc, tcx, self_name, method, &args)?;
        Ok(BorrowingFieldVisitor { found })
    }

    /// How many leaves there are.
    pub fn len(&self) -> usize
        ensures { result ≡ length self.now }
    {
        self.found.len()
    }

    /// The leaf of this number. None exactly where `i` isn't below how many there are.
    pub fn get(&self, i: usize) -> Option<BorrowingField<'_>>
        ensures { option_map visited_leaf result ≡ slice_get self.now i }
    {
        if i >= self.len() {
            return None;
        }
        Some(self.leaf(i))
    }

    /// The leaf of this number, which is there.
    fn leaf(&self, i: usize) -> BorrowingField<'_>
        requires { i < length self.now }
        ensures { visited_leaf result ≡ leaf_at self.now i }
    {
        BorrowingField {
            visitor: self,
            leaf: i,
        }
    }

    /// What the leaf of this number carries.
    pub(crate) fn carried(&self, i: usize) -> &Lifetimes
        requires { i < length self.now }
        ensures { result.now ≡ (leaf_at self.now i).carried }
    {
        self.found.carried(i)
    }

    /// Calls the function at each name that leads to the leaf of this number, in order, with the
    /// number of the name.
    pub(crate) fn backtrace<F: FnMut(usize, &'m IdentBuf)>(&self, i: usize, visit: &mut F)
        requires within { i < length self.now }
        requires callable { F.IsAlwaysCallable visit.old }
        ensures called { FoldsTo (λ p x q. CalledAtName F.FnMut p x tt q) visit.old
            (enumerate_from 0 (leaf_at self.now i).names) visit.new }
        ensures callable { F.IsAlwaysCallable visit.new }
    {
        self.found.backtrace(i, visit);
    }

    /// The same until the function answers with an error, which is the answer then.
    pub(crate) fn try_backtrace<E, F: FnMut(usize, &'m IdentBuf) -> Result<(), E>>(
        &self,
        i: usize,
        visit: &mut F,
    ) -> Result<(), E>
        requires within { i < length self.now }
        requires callable { F.IsAlwaysCallable visit.old }
        ensures called { TriesEach (CalledAtName F.FnMut) visit.old
            (enumerate_from 0 (leaf_at self.now i).names) result visit.new }
        ensures callable { F.IsAlwaysCallable visit.new }
    {
        self.found.try_backtrace(i, visit)
    }

    /// The numbers of the input and of the fields that lead to the leaf of this number.
    pub(crate) fn path(&self, i: usize, alloc: Global) -> Result<Items<usize>, NoMemory>
        requires { i < length self.now }
        ensures { IfOk result (λ path. path ≡ (leaf_at self.now i).path) }
    {
        self.found.path(i, alloc)
    }

    /// Writes the names that lead to the leaf of this number, with `.` between each two.
    pub(crate) fn put_names<W: fmt::Write>(
        &self,
        f: &mut fmt::Formatter<W>,
        i: usize,
    ) -> fmt::Result
        requires { i < length self.now }
        ensures { DisplaysOnOk W.write_str_gives f.old result
            (Some (joined (codes ".") (leaf_at self.now i).names)) f.new }
    {
        self.found.put_names(f, i)
    }

    /// Calls the function at each leaf, in order, with each lifetime that it carries, in order.
    pub fn visit_borrowing_fields<'v, F: FnMut(MaybeStatic<Lifetime>, BorrowingField<'v>)>(
        &'v self,
        visit: &mut F,
    )
        requires { F.IsAlwaysCallable visit.old }
        ensures called { FoldsTo (λ p x q. CalledAtLeaf F.FnMut p x tt q) visit.old
            (lifetimes_with_leaves self.now) visit.new }
        ensures callable { F.IsAlwaysCallable visit.new }
    {
        for i in 0..self.len() {
            visit_leaf(self, i, self.carried(i).as_slice(), visit);
        }
    }
}

/// Calls the function at a leaf with each of these lifetimes.
fn visit_leaf<'v, 'm, F: FnMut(MaybeStatic<Lifetime>, BorrowingField<'v>)>(
    visitor: &'v BorrowingFieldVisitor<'m>,
    i: usize,
    carried: &[MaybeStatic<Lifetime>],
    visit: &mut F,
)
    requires within { i < length visitor.now }
    requires callable { F.IsAlwaysCallable visit.old }
    ensures called { FoldsTo (λ p x q. CalledAtLeaf F.FnMut p x tt q) visit.old
        (map (λ l. (l, leaf_at visitor.now i)) carried.now) visit.new }
    ensures callable { F.IsAlwaysCallable visit.new }
{
    for lifetime in carried {
        call(visit, *lifetime, visitor.leaf(i));
    }
}

/// Calls the function at a leaf with a lifetime.
fn call<'v, F: FnMut(MaybeStatic<Lifetime>, BorrowingField<'v>)>(
    visit: &mut F,
    lifetime: MaybeStatic<Lifetime>,
    field: BorrowingField<'v>,
)
    requires { F.IsAlwaysCallable visit.old }
    ensures called { CalledAtLeaf F.FnMut visit.old (lifetime, visited_leaf field.entry) tt
        visit.new }
    ensures callable { F.IsAlwaysCallable visit.new }
{
    visit(lifetime, field);
}

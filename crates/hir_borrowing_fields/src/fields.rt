//! Leaves, as they are visited.

ghost use Rattle.std.specs.Prelude.{◌≡◌, ◌<◌, length, IfOk};

use crate::visitor::BorrowingFieldVisitor;
use bridge_decl::{IdentBuf, Items, NoMemory};
use hir_life::Lifetimes;
use std::alloc::Global;
use std::fmt;

/// A leaf of a visitor: something in an input of a method that carries lifetimes.
#[derive(Clone, Copy)]
pub struct BorrowingField<'m> {
    pub(crate) visitor: &'m BorrowingFieldVisitor<'m>,
    pub(crate) leaf: usize,
    /// The visitor has a leaf of this number.
    ghost within: { leaf < length visitor.now },
}

impl<'m> BorrowingField<'m> {
    ghost use Rattle.std.specs.List.{FoldsTo, enumerate_from};
    ghost use Rattle.hir_borrowing_fields.specs.Calls.{CalledAtName, TriesEach};
    ghost use Rattle.hir_borrowing_fields.specs.VisitedLeaves.{visited_leaf};

    /// The lifetimes that it carries, each once, as lifetimes of the method.
    pub fn lifetimes(&self) -> &'m Lifetimes
        ensures { result.now ≡ (visited_leaf self.now).carried }
    {
        self.visitor.carried(self.leaf)
    }

    /// Where it stands: the number of its input, where the receiver is 0 if there is one, and then
    /// the number of the field in each struct on the way. Steps and room are as many as these. The
    /// only fault is want of memory.
    pub fn path(&self, alloc: Global) -> Result<Items<usize>, NoMemory>
        ensures { IfOk result (λ path. path ≡ (visited_leaf self.now).path) }
    {
        self.visitor.path(self.leaf, alloc)
    }

    /// Calls the function at each name that leads to the leaf, with its number: the name of the
    /// input with 0, that of its field with 1, and so on. It takes no memory, and about n² / 2
    /// steps for n names, of which there are at most 257.
    pub fn backtrace<F: FnMut(usize, &'m IdentBuf)>(&self, visit: &mut F)
        requires { F.IsAlwaysCallable visit.old }
        ensures called { FoldsTo (λ p x q. CalledAtName F.FnMut p x tt q) visit.old
            (enumerate_from 0 (visited_leaf self.now).names) visit.new }
        ensures callable { F.IsAlwaysCallable visit.new }
    {
        self.visitor.backtrace(self.leaf, visit);
    }

    /// The same until the function answers with an error, which is the answer then.
    pub fn try_backtrace<E, F: FnMut(usize, &'m IdentBuf) -> Result<(), E>>(
        &self,
        visit: &mut F,
    ) -> Result<(), E>
        requires { F.IsAlwaysCallable visit.old }
        ensures called { TriesEach (CalledAtName F.FnMut) visit.old
            (enumerate_from 0 (visited_leaf self.now).names) result visit.new }
        ensures callable { F.IsAlwaysCallable visit.new }
    {
        self.visitor.try_backtrace(self.leaf, visit)
    }
}

/// The names that lead to the leaf, with `.` between each two: `mark.page`.
impl fmt::Display for BorrowingField<'_> {
    ghost use Rattle.std.specs.Prelude.{Some, codes};
    ghost use Rattle.bridge_decl.specs.Names.{joined};
    ghost use Rattle.hir_borrowing_fields.specs.VisitedLeaves.{visited_leaf};

    ghost output = { λ field. Some (joined (codes ".") (visited_leaf field).names) };

    fn fmt<W: fmt::Write>(&self, f: &mut fmt::Formatter<W>) -> fmt::Result {
        self.visitor.put_names(f, self.leaf)
    }
}

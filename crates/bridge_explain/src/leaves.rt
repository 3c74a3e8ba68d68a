//! Leaves, by the names that a page prints.

ghost use Rattle.std.specs.Prelude.{◌≡◌, IfOk, IfSome, MatchOption, None, option_map, slice_get};
ghost use Rattle.std.specs.Str.{bytes_eq};
ghost use Rattle.bridge_report.specs.Page.{leaf_text};
ghost use Rattle.hir_borrowing_fields.specs.VisitedLeaves.{visited_leaf};
ghost use Rattle.bridge_explain.specs.Explained.{leaf_called};
ghost use Rattle.bridge_explain.specs.inside.Found.{FindsLeaf, IsCarriedIfCalled};

use bridge_comparing::is_shown_as;
use bridge_decl::NoMemory;
use hir_borrow::{BorrowingField, BorrowingFieldVisitor};
use hir_life::Lifetimes;

/// Whether a leaf is printed so.
fn is_called(leaf: &BorrowingField<'_>, word: &str) -> Result<bool, NoMemory>
    ensures { IfOk result
        (λ same. same ≡ bytes_eq (leaf_text (visited_leaf leaf.now)) word.now) }
{
    is_shown_as(*leaf, word)
}

/// What the leaf of this number carries, where there is one and it is printed so.
fn carried_if_called<'v>(
    leaves: &'v BorrowingFieldVisitor<'_>,
    number: usize,
    word: &str,
) -> Result<Option<&'v Lifetimes>, NoMemory>
    ensures { IfOk result (λ carried. IfSome (slice_get leaves.now number)
        (λ leaf. IsCarriedIfCalled word.now leaf (option_map (λ carried. carried.now) carried))) }
{
    let Some(leaf) = leaves.get(number) else {
        return Ok(None);
    };
    if !is_called(&leaf, word)? {
        return Ok(None);
    }
    Ok(Some(leaf.lifetimes()))
}

/// What the first leaf that is printed so carries. `NoMemory` only where a leaf can't be shown for want of it.
pub(crate) fn find_leaf<'v>(
    leaves: &'v BorrowingFieldVisitor<'_>,
    word: &str,
) -> Result<Option<&'v Lifetimes>, NoMemory>
    ensures { IfOk result (λ found. MatchOption found (leaf_called word.now leaves.now ≡ None)
        (λ carried. FindsLeaf leaves.now word.now carried.now)) }
{
    for number in 0..leaves.len() {
        match carried_if_called(leaves, number, word)? {
            Some(carried) => return Ok(Some(carried)),
            None => {}
        }
    }
    Ok(None)
}

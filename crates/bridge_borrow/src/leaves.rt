//! The leaves under a lifetime.

ghost use Rattle.std.specs.Prelude.{◌≡◌, ◌++◌, ◌∷◌, [], slice_get, IfOk, OnOk};
ghost use Rattle.bridge_borrow.specs.inside.Returned.{passing_paths};
ghost use Rattle.bridge_report.specs.Borrowings.{input_place, leaf_path};
ghost use Rattle.hir_borrowing_fields.specs.VisitedLeaves.{visited_leaf};
ghost use Rattle.hir_borrowing_params.specs.Edges.{is_in};
ghost use Rattle.hir_mentions.specs.Mentions.{where_any};

use crate::outliving::any_outlives;
use bridge_decl::{Items, NoMemory};
use bridge_report::{InputPlace, LeafPath};
use hir_borrow::{BorrowingField, BorrowingFieldVisitor};
use hir_life::Lifetime;
use std::alloc::Global;
use std::collections::BTreeSet;

/// The input of a number: the receiver is the first, where there is one.
pub(crate) fn input_place(receiver: bool, number: usize) -> InputPlace
    ensures { result ≡ input_place receiver number }
{
    if !receiver {
        return InputPlace::Param(number);
    }
    match number {
        0 => InputPlace::Receiver,
        _ => InputPlace::Param(number - 1),
    }
}

/// The place of these numbers: the input, and then the fields.
fn path_of(alloc: Global, receiver: bool, numbers: &[usize]) -> Result<LeafPath, NoMemory>
    ensures { IfOk result (λ path. path ≡ leaf_path receiver numbers.now) }
{
    let Some((number, fields)) = numbers.split_first() else {
        return Ok(LeafPath {
            input: InputPlace::Param(0),
            fields: Items::new(alloc),
        });
    };
    Ok(LeafPath {
        input: input_place(receiver, *number),
        fields: Items::from_slice(alloc, fields)?,
    })
}

/// The path of a leaf.
fn leaf_path(
    alloc: Global,
    receiver: bool,
    field: &BorrowingField<'_>,
) -> Result<LeafPath, NoMemory>
    ensures { IfOk result (λ path. path ≡ leaf_path receiver (visited_leaf field.now).path) }
{
    let numbers = field.path(alloc)?;
    path_of(alloc, receiver, numbers.as_slice())
}

/// Adds the path of the leaf of this number, where there is one and it carries one of the lifetimes.
fn add_leaf(
    alloc: Global,
    leaves: &mut Items<LeafPath>,
    fields: &BorrowingFieldVisitor<'_>,
    receiver: bool,
    longer: &BTreeSet<Lifetime>,
    number: usize,
) -> Result<(), NoMemory>
    ensures { OnOk result (leaves.new ≡ leaves.old ++ where_any
        (λ leaf. passing_paths receiver (is_in longer.now) (leaf ∷ []))
        (slice_get fields.now number)) }
{
    let Some(field) = fields.get(number) else {
        return Ok(());
    };
    if any_outlives(longer, field.lifetimes().as_slice()) {
        leaves.push(leaf_path(alloc, receiver, &field)?)?;
    }
    Ok(())
}

/// The paths of the leaves that carry one of the lifetimes, in order.
pub(crate) fn listed_leaves(
    alloc: Global,
    fields: &BorrowingFieldVisitor<'_>,
    receiver: bool,
    longer: &BTreeSet<Lifetime>,
) -> Result<Items<LeafPath>, NoMemory>
    ensures { IfOk result (λ leaves. leaves
        ≡ passing_paths receiver (is_in longer.now) fields.now) }
{
    let mut leaves = Items::new(alloc);
    for number in 0..fields.len() {
        add_leaf(alloc, &mut leaves, fields, receiver, longer, number)?;
    }
    Ok(leaves)
}

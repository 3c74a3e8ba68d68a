//! The set of marks of a declaration, made of its marks in order.

ghost use Rattle.std.specs.Prelude.{◌≡◌, IfOk, OnOk, OnErr, option_to_list};
ghost use Rattle.std.specs.List.{list_any};
ghost use Rattle.hir_reports.specs.Store.{Held, Keeps, added};
ghost use Rattle.hir_attrs.specs.Reading.{first_set, changed, errors_from, marks_errors, marks_from, marks_of, read_mark, reading_errors};

use crate::attrs::Attrs;
use crate::change::Reading;
use crate::marks::read_mark;
use bridge_decl::{DiplomatBackendAttr, NoMemory, Text, clone_option};
use hir_backends::AttributeValidator;
use hir_reports::{ErrorStore, LoweringError};
use std::alloc::Global;

/// Adds an error, where there is one.
fn tell(errors: &mut ErrorStore<'_>, error: Option<LoweringError>) -> Result<(), NoMemory>
    ensures told { OnOk result (errors.new ≡ added errors.old (option_to_list error)) }
    ensures kept { (earlier : Held) → Keeps earlier errors.old → Keeps earlier errors.new }
{
    match error {
        Some(error) => errors.push(error),
        None => Ok(()),
    }
}

/// Makes the change that a mark is read as, and tells the rules that it breaks.
#[tactic(auto, using(hir_reports::proofs::StoreLaws::added_more))]
fn take(attrs: &mut Attrs, errors: &mut ErrorStore<'_>, reading: Reading) -> Result<(), NoMemory>
    ensures changed { OnOk result (attrs.new ≡ changed reading.change attrs.old) }
    ensures told { OnOk result (errors.new ≡ added errors.old (reading_errors reading)) }
    ensures kept { (earlier : Held) → Keeps earlier errors.old → Keeps earlier errors.new }
{
    let Reading {
        change,
        first,
        second,
    } = reading;
    attrs.change(change)?;
    tell(errors, first)?;
    tell(errors, second)
}

/// Reads a mark into a set.
fn read_into<V: AttributeValidator>(
    alloc: Global,
    v: &V,
    attrs: &mut Attrs,
    errors: &mut ErrorStore<'_>,
    mark: &DiplomatBackendAttr,
) -> Result<(), NoMemory>
    ensures changed { OnOk result
        (attrs.new ≡ changed (read_mark (V.meaning v.now) attrs.old mark.now).change attrs.old) }
    ensures told { OnOk result (errors.new ≡ added errors.old
        (reading_errors (read_mark (V.meaning v.now) attrs.old mark.now))) }
    ensures kept { (earlier : Held) → Keeps earlier errors.old → Keeps earlier errors.new }
{
    let reading = read_mark(alloc, v, attrs, mark)?;
    take(attrs, errors, reading)
}

/// Reads marks into a set, in order.
fn read_all<V: AttributeValidator>(
    alloc: Global,
    v: &V,
    attrs: &mut Attrs,
    errors: &mut ErrorStore<'_>,
    marks: &[DiplomatBackendAttr],
) -> Result<(), NoMemory>
    ensures changed { OnOk result
        (attrs.new ≡ marks_from (V.meaning v.now) attrs.old marks.now) }
    ensures told { OnOk result
        (errors.new ≡ added errors.old (errors_from (V.meaning v.now) attrs.old marks.now)) }
    ensures kept { Keeps errors.old errors.new }
{
    for mark in marks {
        read_into(alloc, v, attrs, errors, mark)?;
    }
    Ok(())
}

/// Whether the interface of what stands under one of these features may still change.
fn is_any_unstable<V: AttributeValidator>(v: &V, features: &[Text]) -> bool
    ensures { result ≡ list_any (V.meaning v.now).is_unstable features.now }
{
    for feature in features {
        if v.is_unstable(feature.as_str()) {
            return true;
        }
    }
    false
}

/// The set that a declaration begins with.
fn begun<V: AttributeValidator>(
    alloc: Global,
    decl: &bridge_decl::Attrs,
    v: &V,
    parent: Attrs,
) -> Result<Attrs, NoMemory>
    ensures { IfOk result (λ attrs. attrs ≡ first_set (V.meaning v.now) decl.now parent) }
{
    let abi_rename = decl.abi_rename.try_clone(alloc)?;
    let deprecated = clone_option(alloc, &decl.deprecated, Text::try_clone)?;
    let is_unstable = is_any_unstable(v, decl.features.as_slice());
    let mut attrs = parent;
    attrs.abi_rename = abi_rename;
    attrs.deprecated = deprecated;
    attrs.unstable = attrs.unstable || is_unstable;
    Ok(attrs)
}

/// The set of a declaration; after want of memory, what was told before stands first among the reports.
fn read_attrs<V: AttributeValidator>(
    alloc: Global,
    decl: &bridge_decl::Attrs,
    v: &V,
    parent: Attrs,
    errors: &mut ErrorStore<'_>,
) -> Result<Attrs, NoMemory>
    ensures made { IfOk result (λ attrs. attrs ≡ marks_of (V.meaning v.now) decl.now parent) }
    ensures told { OnOk result
        (errors.new ≡ added errors.old (marks_errors (V.meaning v.now) decl.now parent)) }
    ensures kept { Keeps errors.old errors.new }
{
    let mut attrs = begun(alloc, decl, v, parent)?;
    read_all(alloc, v, &mut attrs, errors, decl.marks.as_slice())?;
    Ok(attrs)
}

impl Attrs {
    /// The set of marks of a declaration for a backend, which starts from that of its parent (`for_inheritance`): `specs/Reading` and
    /// `specs/Marks` have what each mark takes, needs, sets and breaks. The rules on conditions and marks that are broken are told, in
    /// order, and nothing else. As `Attrs::from_ast` of `diplomat_core`.
    ///
    /// `NoMemory` where there is no memory for the set or the reports: then the store holds what it held.
    pub fn from_ast<V: AttributeValidator>(
        alloc: Global,
        decl: &bridge_decl::Attrs,
        validator: &V,
        parent_attrs: Attrs,
        errors: &mut ErrorStore<'_>,
    ) -> Result<Attrs, NoMemory>
        ensures made { IfOk result
            (λ attrs. attrs ≡ marks_of (V.meaning validator.now) decl.now parent_attrs) }
        ensures told { OnOk result (errors.new ≡ added errors.old
            (marks_errors (V.meaning validator.now) decl.now parent_attrs)) }
        ensures kept { OnErr result (errors.new ≡ errors.old) }
    {
        let before = errors.len();
        match read_attrs(alloc, decl, validator, parent_attrs, errors) {
            Ok(attrs) => Ok(attrs),
            Err(error) => {
                errors.truncate(before);
                Err(error)
            }
        }
    }
}

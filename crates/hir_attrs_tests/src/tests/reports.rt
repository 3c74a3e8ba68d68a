//! The reports of broken rules as they are printed, each at the place that was last set.

use super::notation::{marked, texts};
use super::{backend, set_of};
use bridge_decl::{AttrInheritContext, NoMemory, Text};
use hir_attrs::{
    Attrs, BackendAttrSupport, BasicAttributeValidator, ErrorStore, LoweringReport, SupportFlag,
};
use std::alloc::Global;
use std::process::Abort;

/// The marks of the module, an item and a method in it, the marks of the item or the method, and the reports.
const ROWS: [(&str, &str, &str, &str, &str); 13] = [
    (
        "",
        "O",
        "t",
        "*, default_value = 1.5",
        "Lowering error in m::O::t\n  BadDefaultValue: unsupported default value\n",
    ),
    (
        "*, disable",
        "P",
        "",
        "*, disable",
        "Lowering error in m::P\n  MarkRepeated: Duplicate `disable` attribute\n",
    ),
    (
        "",
        "P",
        "",
        "*, disable; *, disable",
        "Lowering error in m::P\n  MarkRepeated: Duplicate `disable` attribute\n",
    ),
    (
        "",
        "P",
        "",
        "not( auto ), disable",
        "Lowering error in m::P\n  AutoMisplaced: auto is only allowed at the top level and within any\n",
    ),
    (
        "",
        "P",
        "",
        "supports=nothing, disable",
        "Lowering error in m::P\n  UnknownPair: unknown name and value in a condition\n",
    ),
    (
        "",
        "P",
        "",
        "*, tuple",
        "Lowering error in m::P\n  MarkUnsupported: tuple not supported in backend cpp\n",
    ),
    (
        "",
        "P",
        "f",
        "*, getter; *, setter",
        "Lowering error in m::P::f\n  SecondSpecial: multiple special method markers, found setter\n",
    ),
    (
        "",
        "P",
        "f",
        "*, rename",
        "Lowering error in m::P::f\n  MarkArgument: rename has a wrong argument\n",
    ),
    (
        "",
        "P",
        "f",
        "auto, rename = 'x'",
        "Lowering error in m::P::f\n  AutoIneligible: rename does not work with auto\n",
    ),
    (
        "",
        "P",
        "",
        "*, custom_extra_code",
        "Lowering error in m::P\n  BadInclude: bad custom_extra_code\n",
    ),
    (
        "",
        "P",
        "",
        "*, custom_extra_code(location = 'def_block', source = 'x'); *, custom_extra_code(location = 'def_block', source = 'x')",
        "Lowering error in m::P\n  IncludeRepeated: Duplicates not allowed.\n",
    ),
    (
        "",
        "P",
        "f",
        "*, disabled",
        "Lowering error in m::P::f\n  UnknownMark: Unknown diplomat attribute disabled\n",
    ),
    (
        "",
        "P",
        "f",
        "auto, disable; *, disable",
        "Lowering error in m::P::f\n  AutoIneligible: disable does not work with auto\nLowering error in m::P::f\n  MarkRepeated: Duplicate `disable` attribute\n",
    ),
];

/// Reports, one after another.
fn printed_all(alloc: Global, reports: &[LoweringReport]) -> Result<String, NoMemory> {
    let mut text = String::new(alloc);
    for report in reports {
        text.push_str(report.to_string(alloc)?.as_str())?;
    }
    Ok(text)
}

/// The reports that the store holds.
pub fn printed(alloc: Global, errors: &mut ErrorStore<'_>) -> Result<String, NoMemory> {
    let reports = errors.take_errors();
    printed_all(alloc, reports.as_slice())
}

/// What takes marks over: a method, or an item where there is none.
fn context_of(method: &str) -> AttrInheritContext {
    if method.is_empty() {
        AttrInheritContext::OfType
    } else {
        AttrInheritContext::MethodOrImplFromModule
    }
}

/// What is taken over of a declaration.
fn handed_on(
    alloc: Global,
    backend: &BasicAttributeValidator,
    declared: &bridge_decl::Attrs,
    context: AttrInheritContext,
) -> Result<Attrs, NoMemory> {
    let attrs = set_of(alloc, backend, declared)?;
    attrs.for_inheritance(alloc, context)
}

/// What an item or a method of a module with these marks takes over.
fn taken_over(
    alloc: Global,
    backend: &BasicAttributeValidator,
    module: &str,
    method: &str,
) -> Result<Attrs, NoMemory> {
    let declared = marked(alloc, module)?;
    handed_on(alloc, backend, &declared, context_of(method))
}

fn set_place<'t>(errors: &mut ErrorStore<'t>, module: &'t [Text], item: &'t str, method: &'t str) {
    errors.set_module(module);
    errors.set_item(item);
    if !method.is_empty() {
        errors.set_subitem(method);
    }
}

/// Reads marks.
fn read_marks(
    alloc: Global,
    backend: &BasicAttributeValidator,
    parent: Attrs,
    declared: &bridge_decl::Attrs,
    errors: &mut ErrorStore<'_>,
) -> Result<(), NoMemory> {
    let _attrs = Attrs::from_ast(alloc, declared, backend, parent, errors)?;
    Ok(())
}

/// The reports of marks of an item or a method in a module.
fn reports_in<'t>(
    alloc: Global,
    backend: &BasicAttributeValidator,
    parent: Attrs,
    (module, item, method): (&'t [Text], &'t str, &'t str),
    declared: &bridge_decl::Attrs,
) -> Result<String, NoMemory> {
    let mut errors = ErrorStore::new(alloc);
    set_place(&mut errors, module, item, method);
    read_marks(alloc, backend, parent, declared, &mut errors)?;
    printed(alloc, &mut errors)
}

/// The reports of marks of an item or a method in the module `m`.
fn reports_of(
    alloc: Global,
    backend: &BasicAttributeValidator,
    item: &str,
    method: &str,
    outer: &str,
    marks: &str,
) -> Result<String, NoMemory> {
    let module = texts(alloc, "m")?;
    let declared = marked(alloc, marks)?;
    let parent = taken_over(alloc, backend, outer, method)?;
    let place = (module.as_slice(), item, method);
    reports_in(alloc, backend, parent, place, &declared)
}

/// Whether the row's marks have its reports.
fn are_reported(
    alloc: Global,
    backend: &BasicAttributeValidator,
    (outer, item, method, marks, text): &(&str, &str, &str, &str, &str),
) -> Result<bool, NoMemory> {
    Ok(reports_of(alloc, backend, item, method, outer, marks)?.as_str() == *text)
}

/// Compares the reports of each row.
fn compare_reported(
    rt: &impl Abort,
    alloc: Global,
    backend: &BasicAttributeValidator,
) -> Result<(), NoMemory> {
    for row in &ROWS {
        assert!(rt; are_reported(alloc, backend, row)?);
    }
    Ok(())
}

/// The backend supports defaults of parameters alone.
#[test]
fn rules_are_told_where_they_are_broken(rt: HostRuntime) -> Result<(), NoMemory> {
    let mut backend = backend(rt.alloc(), false)?;
    backend.support = BackendAttrSupport::none().with(SupportFlag::DefaultArgs);
    compare_reported(&rt, rt.alloc(), &backend)
}

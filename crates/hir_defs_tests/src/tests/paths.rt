//! What paths and positions make of the definitions of a context.

ghost use Rattle.std.specs.Prelude.{IsTrue};
ghost use Rattle.hir_defs.specs.Linking.{IsLinkable};
ghost use Rattle.hir_ids.specs.declared.ids.TypeId.TheVariants as type;

use crate::tests::made::{lifetime, opaque_path, struct_path};
use hir_context::TypeContext;
use hir_defs::{LinkedLifetimes, LinkedPath, PositionDefs, ResolvePath};
use hir_ids::{Borrow, MaybeOwn, OpaqueId, Optional, OutStructId, StructId};
use hir_life::Lifetimes;
use hir_types::{CallbackReturn, Everywhere, InputOnly, OpaquePath, OutputOnly, StructPath};
use std::alloc::Global;
use std::process::Abort;
use std::test::Fail;

/// Whether the opaque of this id is there and has as many lifetimes.
fn links_opaque(tcx: &TypeContext, id: OpaqueId, given: &Lifetimes) -> bool
    ensures { IsTrue result → IsLinkable tcx.now.definitions (type.Opaque id) given.now }
{
    if tcx.opaques().len() <= id.index() {
        return false;
    }
    tcx.resolve_opaque(id).lifetimes.num_lifetimes() == given.len()
}

/// Whether the struct of this id is there and has as many lifetimes.
fn links_struct(tcx: &TypeContext, id: StructId, given: &Lifetimes) -> bool
    ensures { IsTrue result → IsLinkable tcx.now.definitions (type.Struct id) given.now }
{
    if tcx.structs().len() <= id.index() {
        return false;
    }
    tcx.resolve_struct(id).lifetimes.num_lifetimes() == given.len()
}

/// Whether a link gives the definition's lifetimes these two numbers.
fn gives(link: &LinkedLifetimes<'_, '_>, given: (usize, usize)) -> bool {
    let mut pairs = link.lifetimes_def_only();
    pairs.next().map(|pair| pair.0) == Some(lifetime(given.0))
        && pairs.next().map(|pair| pair.0) == Some(lifetime(given.1))
        && pairs.next().is_none()
}

/// Compares a link with these numbers, of which the first is that of the pointer.
fn compare_link(
    rt: &impl Abort,
    link: &LinkedLifetimes<'_, '_>,
    pointer: Option<usize>,
    given: (usize, usize),
) {
    assert!(rt; link.self_lifetime() == pointer.map(lifetime));
    assert!(rt; gives(link, given));
}

/// Compares the link of a path to `Page`.
fn compare_opaque(
    rt: &impl Abort,
    tcx: &TypeContext,
    path: &OpaquePath<Optional, Borrow>,
) -> Result<(), Fail> {
    if !links_opaque(tcx, path.tcx_id, &path.lifetimes) {
        return Err(Fail::from("Page has two lifetimes"));
    }
    compare_link(rt, &path.link_lifetimes(tcx), Some(0), (2, 1));
    Ok(())
}

/// Compares the link of a path to `Line`, which is no pointer.
fn compare_struct(rt: &impl Abort, tcx: &TypeContext, path: &StructPath) -> Result<(), Fail> {
    if !links_struct(tcx, path.tcx_id, &path.lifetimes) {
        return Err(Fail::from("Line has two lifetimes"));
    }
    compare_link(rt, &Everywhere::link_lifetimes(path, tcx), None, (4, 3));
    Ok(())
}

/// Makes the path to `Page`.
fn compare_page(rt: &impl Abort, alloc: Global, tcx: &TypeContext) -> Result<(), Fail> {
    let path = opaque_path(alloc, 0, &[2, 1])?;
    compare_opaque(rt, tcx, &path)
}

/// Makes the path to `Line`.
fn compare_line(rt: &impl Abort, alloc: Global, tcx: &TypeContext) -> Result<(), Fail> {
    let path = struct_path(alloc, 0, &[4, 3], MaybeOwn::Own)?;
    compare_struct(rt, tcx, &path)
}

/// Compares both.
pub fn compare_links(rt: &impl Abort, alloc: Global, tcx: &TypeContext) -> Result<(), Fail> {
    compare_page(rt, alloc, tcx)?;
    compare_line(rt, alloc, tcx)
}

/// Compares which positions have structs of their own.
pub fn compare_positions(rt: &impl Abort, tcx: &TypeContext) -> Result<(), Fail> {
    if tcx.structs().is_empty() || tcx.out_structs().is_empty() {
        return Err(Fail::from("Line and Found are there"));
    }
    assert!(rt; Everywhere::resolve_struct(tcx, StructId::new(0)).is_some());
    assert!(rt; InputOnly::resolve_struct(tcx, StructId::new(0)).is_none());
    assert!(rt; CallbackReturn::resolve_struct(tcx, StructId::new(0)).is_none());
    match OutputOnly::resolve_struct(tcx, OutStructId::new(0)) {
        Some(def) => {
            assert!(rt; OutputOnly::get_fields(def).is_empty());
            assert!(rt; OutputOnly::wrap_struct_def(def).is_some());
            Ok(())
        }
        None => Err(Fail::from("Found is there")),
    }
}

/// Whether the path names `Page`.
fn names_page(tcx: &TypeContext, path: &OpaquePath<Optional, Borrow>) -> bool {
    if tcx.opaques().len() <= path.tcx_id.index() {
        return false;
    }
    path.resolve(tcx).name.as_str() == "Page"
}

/// Whether the path names `Rest`.
fn names_rest(tcx: &TypeContext, path: &StructPath) -> bool {
    if tcx.structs().len() <= path.tcx_id.index() {
        return false;
    }
    path.resolve(tcx).name.as_str() == "Rest"
}

/// Compares the name of what a path to an opaque names.
fn compare_opaque_name(rt: &impl Abort, alloc: Global, tcx: &TypeContext) -> Result<(), Fail> {
    let page = opaque_path(alloc, 0, &[])?;
    assert!(rt; names_page(tcx, &page));
    Ok(())
}

/// Compares the name of what a path to a struct names.
fn compare_struct_name(rt: &impl Abort, alloc: Global, tcx: &TypeContext) -> Result<(), Fail> {
    let rest = struct_path(alloc, 1, &[], MaybeOwn::Own)?;
    assert!(rt; names_rest(tcx, &rest));
    Ok(())
}

/// Compares both.
pub fn compare_paths(rt: &impl Abort, alloc: Global, tcx: &TypeContext) -> Result<(), Fail> {
    compare_opaque_name(rt, alloc, tcx)?;
    compare_struct_name(rt, alloc, tcx)
}

//! What is taken over, and what stands beside the marks: features, symbol names and notes.

use super::notation::{declared, marked};
use super::{backend, knowing, read_over, set_of, supported};
use bridge_decl::{AttrInheritContext, Items, NoMemory};
use hir_attrs::{Attrs, BasicAttributeValidator, Pairs};
use std::alloc::Global;
use std::process::Abort;

/// How a set is taken over: as a whole, by a copy, or by what stands in the declaration.
type Way = Option<AttrInheritContext>;

const WHOLE: Way = None;

const VARIANT: Way = Some(AttrInheritContext::Variant);

const OF_TYPE: Way = Some(AttrInheritContext::OfType);

const METHOD: Way = Some(AttrInheritContext::MethodOrImplFromModule);

const MODULE: Way = Some(AttrInheritContext::Module);

/// All that is taken over somewhere.
const OUTER: &str = "*, disable; *, namespace = 'n'; *, rename = 'my_{0}'";

/// All that is taken over nowhere.
const OWN: &str =
    "*, error; *, default; *, manually_disposable; *, generate_mocking_interface; *, abi_compatible; *, ffi_error; *, mut_struct_ref; *, tuple; *, precondition_violation; *, getter; *, custom_extra_code(location = 'def_block', source = 'x'); *, default_value = 7";

/// The marks of the outer declaration, how they are taken over, the marks of the inner one, and what it comes to.
const ROWS: [(&str, Way, &str, &str); 37] = [
    (OUTER, WHOLE, "", "disable namespace(n) rename(my_{0})"),
    (OUTER, VARIANT, "", "-"),
    (OUTER, OF_TYPE, "", "disable namespace(n) rename(my_{0})"),
    (OUTER, METHOD, "", "disable"),
    (OUTER, MODULE, "", "disable namespace(n) rename(my_{0})"),
    (OWN, VARIANT, "", "-"),
    (OWN, OF_TYPE, "", "-"),
    (OWN, METHOD, "", "-"),
    (OWN, MODULE, "", "-"),
    (
        OWN,
        WHOLE,
        "",
        "custom_errors default generate_mocking_interface manually_disposable abi_compatible ffi_error mut_struct_ref tuple precondition_violation Getter DefBlock source(x) Integer(7)",
    ),
    ("*, rename = 'x'", WHOLE, "", "rename(x)"),
    ("*, rename = 'x'", VARIANT, "", "-"),
    ("*, rename = 'x'", OF_TYPE, "", "-"),
    ("*, rename = 'x'", METHOD, "", "-"),
    ("*, rename = 'x'", MODULE, "", "-"),
    (
        "*, disable",
        OF_TYPE,
        "*, disable",
        "disable !MarkRepeated(disable)",
    ),
    (
        "*, disable",
        MODULE,
        "*, disable",
        "disable !MarkRepeated(disable)",
    ),
    (
        "*, disable",
        METHOD,
        "*, disable",
        "disable !MarkRepeated(disable)",
    ),
    (
        "*, disable",
        WHOLE,
        "*, disable",
        "disable !MarkRepeated(disable)",
    ),
    ("*, disable", VARIANT, "*, disable", "disable"),
    ("*, disable", OF_TYPE, "js, disable", "disable"),
    ("js, disable", OF_TYPE, "*, disable", "disable"),
    (
        "*, default",
        WHOLE,
        "*, default",
        "default !MarkRepeated(default)",
    ),
    ("*, default", OF_TYPE, "*, default", "default"),
    (
        "*, manually_disposable",
        WHOLE,
        "*, manually_disposable",
        "manually_disposable !MarkRepeated(manually_disposable)",
    ),
    (
        "*, manually_disposable",
        MODULE,
        "*, manually_disposable",
        "manually_disposable",
    ),
    (
        "*, getter",
        WHOLE,
        "*, setter",
        "Getter !SecondSpecial(setter)",
    ),
    ("*, getter", METHOD, "*, setter", "Setter"),
    (
        OUTER,
        OF_TYPE,
        "*, namespace = ''",
        "disable rename(my_{0})",
    ),
    (
        OUTER,
        OF_TYPE,
        "*, namespace = 'm'",
        "disable namespace(m) rename(my_{0})",
    ),
    (
        OUTER,
        OF_TYPE,
        "js, namespace = ''",
        "disable namespace(n) rename(my_{0})",
    ),
    (
        OUTER,
        MODULE,
        "*, rename = 'y'",
        "disable namespace(n) rename(y)",
    ),
    (OUTER, VARIANT, "*, rename = 'y'", "rename(y)"),
    (OUTER, METHOD, "*, namespace = 'm'", "disable namespace(m)"),
    (
        "*, default_value = 7",
        WHOLE,
        "*, default_value = 8",
        "Integer(8)",
    ),
    (
        "*, custom_extra_code(location = 'def_block', source = 'x')",
        WHOLE,
        "*, custom_extra_code(location = 'def_block', source = 'y')",
        "DefBlock source(x) !IncludeRepeated",
    ),
    (
        "*, custom_extra_code(location = 'def_block', source = 'x')",
        OF_TYPE,
        "*, custom_extra_code(location = 'def_block', source = 'y')",
        "DefBlock source(y)",
    ),
];

/// A set that is taken over in that way.
fn taken_over(alloc: Global, outer: &Attrs, way: Way) -> Result<Attrs, NoMemory> {
    match way {
        Some(context) => outer.for_inheritance(alloc, context),
        None => outer.try_clone(alloc),
    }
}

/// What the outer declaration hands on.
fn handed_on(
    alloc: Global,
    backend: &BasicAttributeValidator,
    outer: &bridge_decl::Attrs,
    way: Way,
) -> Result<Attrs, NoMemory> {
    let outer = set_of(alloc, backend, outer)?;
    taken_over(alloc, &outer, way)
}

/// What the inner declaration comes to, and which rules it breaks.
fn inner(
    alloc: Global,
    backend: &BasicAttributeValidator,
    outer: &bridge_decl::Attrs,
    way: Way,
    own: &bridge_decl::Attrs,
) -> Result<String, NoMemory> {
    let parent = handed_on(alloc, backend, outer, way)?;
    read_over(alloc, backend, parent, own)
}

fn within(
    alloc: Global,
    backend: &BasicAttributeValidator,
    outer: &str,
    way: Way,
    own: &str,
) -> Result<String, NoMemory> {
    let outer = marked(alloc, outer)?;
    let own = marked(alloc, own)?;
    inner(alloc, backend, &outer, way, &own)
}

/// Compares what each inner declaration comes to.
fn compare_within(
    rt: &impl Abort,
    alloc: Global,
    backend: &BasicAttributeValidator,
) -> Result<(), NoMemory> {
    for (outer, way, own, text) in &ROWS {
        assert!(rt; within(alloc, backend, outer, *way, own)?.as_str() == *text);
    }
    Ok(())
}

#[test]
fn some_marks_are_taken_over(rt: HostRuntime) -> Result<(), NoMemory> {
    let backend = backend(rt.alloc(), true)?;
    compare_within(&rt, rt.alloc(), &backend)
}

/// What stands beside the marks of the outer declaration, how its set is taken over, what stands beside those of the inner one, and
/// what that comes to where `u` and `v` are unstable.
const BESIDE: [(&str, Way, &str, &str); 16] = [
    ("", WHOLE, "", "-"),
    ("", WHOLE, "u", "unstable"),
    ("", WHOLE, "s v", "unstable"),
    ("", WHOLE, "u v", "unstable"),
    ("", WHOLE, "s t", "-"),
    ("u", WHOLE, "", "unstable"),
    ("u", VARIANT, "", "unstable"),
    ("u", OF_TYPE, "s", "unstable"),
    ("u", METHOD, "", "unstable"),
    ("u", MODULE, "v", "unstable"),
    ("; a_{0}; old", WHOLE, "", "-"),
    ("; a_{0}; old", OF_TYPE, "", "-"),
    ("", OF_TYPE, "; a_{0}", "abi_rename(a_{0})"),
    ("", METHOD, "; -; old", "deprecated(old)"),
    (
        "u; a_{0}; old",
        MODULE,
        "; b_{0}; older",
        "unstable deprecated(older) abi_rename(b_{0})",
    ),
    ("", WHOLE, "; ; ", "deprecated() abi_rename()"),
];

fn beside(
    alloc: Global,
    backend: &BasicAttributeValidator,
    outer: &str,
    way: Way,
    own: &str,
) -> Result<String, NoMemory> {
    let outer = declared(alloc, outer)?;
    let own = declared(alloc, own)?;
    inner(alloc, backend, &outer, way, &own)
}

/// The backend `cpp`, in which the features `v` and `u` are unstable.
fn unstable(alloc: Global) -> Result<BasicAttributeValidator, NoMemory> {
    let none = Pairs::new(alloc, Items::new(alloc))?;
    knowing(alloc, supported(true), none, ("", "", "v u"))
}

/// Compares what each inner declaration comes to.
fn compare_beside(
    rt: &impl Abort,
    alloc: Global,
    backend: &BasicAttributeValidator,
) -> Result<(), NoMemory> {
    for (outer, way, own, text) in &BESIDE {
        assert!(rt; beside(alloc, backend, outer, *way, own)?.as_str() == *text);
    }
    Ok(())
}

#[test]
fn what_stands_beside_marks_is_kept(rt: HostRuntime) -> Result<(), NoMemory> {
    let backend = unstable(rt.alloc())?;
    compare_beside(&rt, rt.alloc(), &backend)
}

//! What the marks of modules come to, each from those of the module around it.

use super::backend;
use super::notation::{marked, texts};
use super::rendering::render;
use super::reports::printed;
use bridge_ast::{Env, EnvFault, Module};
use bridge_decl::{Items, NoMemory};
use hir_attrs::{Attrs, BasicAttributeValidator, ErrorStore};
use hir_modules::lower_modules;
use std::alloc::{AllocError, Global};

/// The paths of modules with their marks, in the order of the list, and what these come to. `lib` stands after what is in `app`, and
/// is gone through before it.
const ROWS: [(&str, &str, &str); 7] = [
    ("", "*, namespace = 'top'", "namespace(top)"),
    ("app", "*, disable", "disable namespace(top)"),
    ("app fonts", "*, namespace = ''; *, disable", "disable"),
    ("app fonts faces", "", "disable"),
    (
        "lib",
        "*, rename = 'x{0}'; *, colour",
        "namespace(top) rename(x{0})",
    ),
    ("app files", "js, default", "disable namespace(top)"),
    (
        "lib deep",
        "*, error",
        "custom_errors namespace(top) rename(x{0})",
    ),
];

/// The reports of these modules.
const TOLD: &str =
    "Lowering error in lib\n  UnknownMark: Unknown diplomat attribute colour\nLowering error in app::fonts\n  MarkRepeated: Duplicate `disable` attribute\n";

fn module(alloc: Global, path: &str, marks: &str) -> Result<Module, NoMemory> {
    let attrs = marked(alloc, marks)?;
    let path = texts(alloc, path)?;
    Ok(Module {
        path,
        attrs,
        items: Items::new(alloc),
        aliases: Items::new(alloc),
    })
}

/// The modules of the table, which fit together.
fn environment(alloc: Global) -> Result<Env, NoMemory> {
    let mut modules = Vec::new(alloc);
    for (path, marks, _) in &ROWS {
        modules.push(module(alloc, path, marks)?)?;
    }
    match Env::new(alloc, modules) {
        Ok(env) => Ok(env),
        Err(EnvFault::NoMemory) | Err(EnvFault::Bad { .. }) => Err(AllocError),
    }
}

/// Whether the sets are those of the table, one after another.
fn are_rows(alloc: Global, sets: &[Attrs]) -> Result<bool, NoMemory> {
    for (attrs, (_, _, row)) in sets.iter().zip(ROWS.iter()) {
        if render(alloc, attrs, &[])?.as_str() != *row {
            return Ok(false);
        }
    }
    Ok(sets.len() == ROWS.len())
}

/// Whether all come to what the table says.
fn are_lowered<'e>(
    alloc: Global,
    env: &'e Env,
    backend: &BasicAttributeValidator,
    errors: &mut ErrorStore<'e>,
) -> Result<bool, NoMemory> {
    let sets = lower_modules(alloc, env, backend, errors)?;
    are_rows(alloc, sets.as_slice())
}

/// Whether they do, and that is told of them.
fn are_told(alloc: Global, env: &Env, backend: &BasicAttributeValidator) -> Result<bool, NoMemory> {
    let mut errors = ErrorStore::new(alloc);
    Ok(
        are_lowered(alloc, env, backend, &mut errors)?
            && printed(alloc, &mut errors)?.as_str() == TOLD,
    )
}

/// Whether the modules of the table come to that.
fn are_those(alloc: Global, backend: &BasicAttributeValidator) -> Result<bool, NoMemory> {
    let env = environment(alloc)?;
    are_told(alloc, &env, backend)
}

/// Whether they do for a backend that supports everything.
fn are_those_of_able(alloc: Global) -> Result<bool, NoMemory> {
    let backend = backend(alloc, true)?;
    are_those(alloc, &backend)
}

#[test]
fn modules_start_from_those_around_them(rt: HostRuntime) -> Result<(), NoMemory> {
    assert!(rt; are_those_of_able(rt.alloc())?);
    Ok(())
}

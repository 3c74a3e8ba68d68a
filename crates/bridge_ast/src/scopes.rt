//! Modules by the names in them, so that no list of modules is searched.

ghost use Rattle.std.specs.Prelude.{◌≡◌, ℕ, List, [], ◌∷◌, ◌++◌, ◌<◌, length, slice_get, option_map, None, Some, IfOk};
ghost use Rattle.std.specs.Prelude.{OnOk};
ghost use Rattle.std.specs.Option.{ForSome};
ghost use Rattle.bridge_decl.specs.declared.modules.Module.{Module};
ghost use Rattle.bridge_ast.specs.declared.fault.EnvPart.TheVariants as part;
ghost use Rattle.bridge_text.specs.NameIndex.{meaning_of};
ghost use Rattle.bridge_ast.specs.EnvFaults.{Tells, place, repeats, module_at, named_at, path_faults};
ghost use Rattle.bridge_ast.specs.EnvFaults.{submodule_faults, faults_of};
ghost use Rattle.bridge_ast.specs.inside.Scopes.{Knows, IsParent, AddsUnder, Enters};

use crate::fault::{EnvFault, EnvFaultKind, EnvPart, EnvPlace};
use crate::items::test_contents;
use crate::names::PartIndex;
use bridge_decl::{Module, NoMemory, Text};
use sqlite_items::at;
use std::alloc::Global;
use std::collections::BTreeMap;

/// The names in one module.
#[derive(Drop)]
pub struct Scope {
    /// Its items and aliases.
    pub names: PartIndex,
    /// The numbers of its submodules.
    pub submodules: BTreeMap<Text, usize>,
    /// The number of its parent; none for the root.
    pub parent: Option<usize>,
}

/// The number of the submodule of that name in the module of a number.
pub fn submodule_of(scopes: &[Scope], number: usize, name: &Text) -> Option<usize>
    ensures { (modules : List Module) (m : Module) → Knows scopes.now modules
        → slice_get modules number ≡ Some m
        → result ≡ module_at modules (m.path ++ name.now ∷ []) }
{
    at(scopes, number)?.submodules.get(name).copied()
}

/// The item or alias of that name in the module of a number.
pub fn part_of(scopes: &[Scope], number: usize, name: &Text) -> Option<EnvPart>
    ensures { (modules : List Module) → Knows scopes.now modules
        → result ≡ meaning_of (named_at modules number) name.now }
{
    at(scopes, number)?.names.get(name).copied()
}

/// The number of the module around that of a number; none for the root.
pub fn parent_of(scopes: &[Scope], number: usize) -> Option<usize>
    ensures { (modules : List Module) (m : Module) → Knows scopes.now modules
        → slice_get modules number ≡ Some m → IsParent modules result m.path }
{
    match at(scopes, number) {
        Some(scope) => scope.parent,
        None => None,
    }
}

/// The number of the module of a path.
fn find_module(scopes: &[Scope], path: &[Text]) -> Option<usize>
    ensures { (modules : List Module) → Knows scopes.now modules
        → result ≡ module_at modules path.now }
{
    if scopes.is_empty() {
        return None;
    }
    let mut number = 0;
    for segment in path {
        number = submodule_of(scopes, number, segment)?;
    }
    Some(number)
}

fn module_place(module: usize) -> EnvPlace
    ensures { result ≡ place «module» part.Module }
{
    EnvPlace {
        module,
        part: EnvPart::Module,
    }
}

/// Tests a path that isn't empty, and gives the number of its parent.
fn test_submodule(
    scopes: &[Scope],
    number: usize,
    parent: &[Text],
    name: &Text,
) -> Result<usize, EnvFault>
    ensures told { (before : List Module) → Knows scopes.now before → number ≡ length before
        → Tells result (submodule_faults before (parent.now, name.now)) }
    ensures found { (before : List Module) → Knows scopes.now before → IfOk result
        (λ above. module_at before parent.now ≡ Some above) }
{
    let at = module_place(number);
    match find_module(scopes, parent) {
        None => Err(EnvFault::Bad {
            kind: EnvFaultKind::ParentMissing,
            at,
            other: None,
        }),
        Some(above) => match part_of(scopes, above, name) {
            None => Ok(above),
            Some(part) => Err(EnvFault::Bad {
                kind: EnvFaultKind::DuplicateItem,
                at,
                other: Some(EnvPlace {
                    module: above,
                    part,
                }),
            }),
        },
    }
}

/// Tests that no earlier module has the path.
fn test_new_path(scopes: &[Scope], number: usize, path: &[Text]) -> Result<(), EnvFault>
    ensures told { (before : List Module) → Knows scopes.now before → number ≡ length before
        → Tells result (repeats EnvFaultKind.DuplicateModule (place (length before) part.Module)
        (option_map (λ earlier. place earlier part.Module) (module_at before path.now))) }
    ensures absent { (before : List Module) → Knows scopes.now before
        → OnOk result (module_at before path.now ≡ None) }
{
    match find_module(scopes, path) {
        None => Ok(()),
        Some(earlier) => Err(EnvFault::Bad {
            kind: EnvFaultKind::DuplicateModule,
            at: module_place(number),
            other: Some(module_place(earlier)),
        }),
    }
}

/// Tests the path of the module of a number, and gives the number of its parent.
fn test_path(scopes: &[Scope], number: usize, path: &[Text]) -> Result<Option<usize>, EnvFault>
    ensures told { (before : List Module) → Knows scopes.now before → number ≡ length before
        → Tells result (path_faults before path.now) }
    ensures absent { (before : List Module) → Knows scopes.now before
        → OnOk result (module_at before path.now ≡ None) }
    ensures parent { (before : List Module) → Knows scopes.now before
        → IfOk result (λ parent. IsParent before parent path.now) }
{
    test_new_path(scopes, number, path)?;
    match path.split_last() {
        None => Ok(None),
        Some((name, parent)) => Ok(Some(test_submodule(scopes, number, parent, name)?)),
    }
}

/// Adds a submodule to the scope of its parent.
fn add_submodule(
    alloc: Global,
    scopes: &mut [Scope],
    above: usize,
    name: &Text,
    number: usize,
) -> Result<(), NoMemory>
    requires { above < length scopes.old }
    ensures { OnOk result (AddsUnder scopes.old scopes.new above name.now number) }
{
    let key = name.try_clone(alloc)?;
    let scope = &mut scopes[above];
    scope.submodules.insert(key, number)?;
    Ok(())
}

/// Adds the module of a number and of a path that isn't empty to the scope of its parent.
fn add_last(
    alloc: Global,
    scopes: &mut [Scope],
    above: usize,
    path: &[Text],
    number: usize,
) -> Result<(), NoMemory>
    requires { above < length scopes.old }
    ensures { (parent : List (List ℕ)) (name : List ℕ) → path.now ≡ parent ++ name ∷ []
        → OnOk result (AddsUnder scopes.old scopes.new above name number) }
{
    match path.split_last() {
        None => Ok(()),
        Some((name, _)) => add_submodule(alloc, scopes, above, name, number),
    }
}

/// Enters the module of a number into the scope of its parent, where it has one.
fn enter(
    alloc: Global,
    scopes: &mut [Scope],
    parent: Option<usize>,
    path: &[Text],
    number: usize,
) -> Result<(), NoMemory>
    requires { ForSome parent (λ above. above < length scopes.old) }
    ensures { OnOk result (Enters scopes.old scopes.new parent path.now number) }
{
    match parent {
        None => Ok(()),
        Some(above) => add_last(alloc, scopes, above, path, number),
    }
}

/// Tests modules in order, and gives the names in each.
pub fn scopes_of(alloc: Global, modules: &[Module]) -> Result<Vec<Scope>, EnvFault>
    ensures told { Tells result (faults_of modules.now) }
    ensures known { IfOk result (λ scopes. Knows scopes.items modules.now) }
{
    let mut scopes: Vec<Scope> = Vec::new(alloc);
    for (number, module) in modules.iter().enumerate() {
        let path = module.path.as_slice();
        let parent = test_path(scopes.as_slice(), number, path)?;
        let names = test_contents(alloc, number, module)?;
        enter(alloc, scopes.as_mut_slice(), parent, path, number)?;
        scopes.push(Scope {
            names,
            submodules: BTreeMap::new(alloc),
            parent,
        })?;
    }
    Ok(scopes)
}

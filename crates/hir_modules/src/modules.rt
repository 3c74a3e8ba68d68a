//! The marks of all modules, from the root down.

ghost use Rattle.std.specs.Prelude.{◌≡◌, ◌++◌, ◌<◌, ℕ, List, [], ◌∷◌, IfOk, OnOk, length, map, slice_get, slice_set, Some, None};
ghost use Rattle.bridge_ast.specs.Sound.{AreSound};
ghost use Rattle.bridge_decl.specs.declared.modules.Module.{Module};
ghost use Rattle.hir_attrs.specs.Reading.{marks_errors, marks_of};
ghost use Rattle.hir_backends.specs.Backend.{Backend};
ghost use Rattle.hir_modules.specs.Holding.{HoldsStill};
ghost use Rattle.hir_modules.specs.ModuleMarks.{all_module_reports, marks_around, module_marks, numbered_reports};
ghost use Rattle.hir_modules.specs.inside.Walk.{AreRead, HasAround};
ghost use Rattle.hir_reports.specs.Store.{at_place, told_at};

use bridge_ast::{Env, Module};
use bridge_decl::{Items, NoMemory};
use bridge_order::module_order;
use hir_attrs::Attrs;
use hir_backends::AttributeValidator;
use hir_reports::ErrorStore;
use std::alloc::Global;

/// No marks, for so many modules.
fn without_marks(alloc: Global, count: usize) -> Result<Vec<Attrs>, NoMemory>
    ensures { IfOk result (λ marks. length marks.items ≡ count) }
{
    let mut marks = Vec::new(alloc);
    for _ in 0..count {
        marks.push(Attrs::empty(alloc))?;
    }
    Ok(marks)
}

/// The marks of the module of a number, where they were read.
fn marks_at(alloc: Global, marks: &[Attrs], number: usize) -> Result<Attrs, NoMemory>
    ensures { (own : Attrs) → slice_get marks.now number ≡ Some own
        → IfOk result (λ copy. copy ≡ own) }
{
    match marks.get(number) {
        Some(own) => own.try_clone(alloc),
        None => Ok(Attrs::empty(alloc)),
    }
}

/// What the marks of a module start from: those of the module around it, and none of the root.
fn marks_before(alloc: Global, env: &Env, number: usize, marks: &[Attrs]) -> Result<Attrs, NoMemory>
    requires inside { number < length env.now }
    requires sound { AreSound env.now }
    ensures { (B : Backend) (m : Module) → slice_get env.now number ≡ Some m
        → HasAround B env.now marks.now number
        → IfOk result (λ around. around ≡ marks_around B env.now m.path) }
{
    match env.parent(number) {
        Some(outer) => marks_at(alloc, marks, outer),
        None => Ok(Attrs::empty(alloc)),
    }
}

/// The marks of a module, which start from these.
fn lower_module<'tree, V: AttributeValidator>(
    alloc: Global,
    module: &'tree Module,
    around: Attrs,
    validator: &V,
    errors: &mut ErrorStore<'tree>,
) -> Result<Attrs, NoMemory>
    ensures told { OnOk result (errors.new.reports ≡ errors.old.reports
        ++ map (told_at (at_place «module».now.path [] None))
        (marks_errors (V.meaning validator.now) «module».now.attrs around)) }
    ensures made { IfOk result
        (λ own. own ≡ marks_of (V.meaning validator.now) «module».now.attrs around) }
    ensures kept { HoldsStill errors.old errors.new }
{
    errors.set_module(module.path.as_slice());
    Attrs::from_ast(alloc, &module.attrs, validator, around, errors)
}

/// Writes one of a list anew.
fn put<T: Drop>(list: &mut Vec<T>, number: usize, new: T)
    requires { number < length list.old.items }
    ensures { list.new.items ≡ slice_set list.old.items number new }
{
    list[number] = new;
}

/// Reads the marks of the module of a number, after those of the module around it.
fn read_at<'tree, V: AttributeValidator>(
    alloc: Global,
    env: &'tree Env,
    number: usize,
    validator: &V,
    marks: &mut Vec<Attrs>,
    errors: &mut ErrorStore<'tree>,
) -> Result<(), NoMemory>
    requires inside { number < length env.now }
    requires count { length marks.old.items ≡ length env.now }
    requires around { HasAround (V.meaning validator.now) env.now marks.old.items number }
    ensures told { OnOk result (errors.new.reports
        ≡ errors.old.reports ++ numbered_reports (V.meaning validator.now) env.now number) }
    ensures made { (done : List ℕ)
        → AreRead (V.meaning validator.now) env.now marks.old.items done
        → OnOk result (AreRead (V.meaning validator.now) env.now marks.new.items
        (done ++ number ∷ [])) }
    ensures kept { HoldsStill errors.old errors.new }
{
    let module = &env.modules()[number];
    let around = marks_before(alloc, env, number, marks.as_slice())?;
    let own = lower_module(alloc, module, around, validator, errors)?;
    put(marks, number, own);
    Ok(())
}

/// The marks of each module, by the modules' numbers: those that it has itself, which start from
/// those of the module around it, or from none at the root. What they break is told at the module,
/// in the order of `module_order`. `NoMemory` where there is no memory for them or for the reports.
pub fn lower_modules<'tree, V: AttributeValidator>(
    alloc: Global,
    env: &'tree Env,
    validator: &V,
    errors: &mut ErrorStore<'tree>,
) -> Result<Items<Attrs>, NoMemory>
    ensures told { OnOk result (errors.new.reports
        ≡ errors.old.reports ++ all_module_reports (V.meaning validator.now) env.now) }
    ensures made { IfOk result
        (λ marks. marks ≡ map (module_marks (V.meaning validator.now) env.now) env.now) }
    ensures kept { HoldsStill errors.old errors.new }
{
    let order = module_order(alloc, env.modules())?;
    let mut marks = without_marks(alloc, env.modules().len())?;
    for number in order.as_slice() {
        read_at(alloc, env, *number, validator, &mut marks, errors)?;
    }
    Ok(Items::from_vec(marks))
}

//! NumberLists of the lifetimes of a definition's fields.

ghost use Rattle.std.specs.Prelude.{◌≡◌, [], ◌<◌, length, IfErr, IfOk};
ghost use Rattle.bridge_decl.specs.Lifetimes.{IsSoundEnvironment};
ghost use Rattle.hir_elide.specs.Occurrences.{Signature};
ghost use Rattle.hir_elide.specs.Phases.{Defining};
ghost use Rattle.hir_number.specs.Arity.{HaveArity};
ghost use Rattle.hir_number.specs.Breaches.{field_breaches};
ghost use Rattle.hir_number.specs.Faults.{IsOfElision, FaultTold};
ghost use Rattle.hir_number.specs.Naming.{IsNaming, Naming};
ghost use Rattle.hir_number.specs.Numbered.{AreNumberedFields, numbers_of_each};
ghost use Rattle.hir_number.specs.Numbers.{signature_numbers};
ghost use Rattle.hir_number.specs.Signatures.{field_uses};
ghost use Rattle.hir_number.specs.inside.Runs.{Starts, fields_run, whole_run};
ghost use Rattle.hir_number.specs.inside.Threads.{Meets};

use crate::fault::NumberFault;
use crate::indexed::IndexedDefinition;
use crate::numbered::NumberedType;
use crate::types::number_type;
use bridge_ast::Env;
use bridge_decl::{Field, Items, Struct};
use hir_elide::{ElideFault, LifetimeLowerer, MOST_LIFETIMES};
use std::alloc::Global;

fn number_each_field<L: LifetimeLowerer>(
    alloc: Global,
    env: &Env,
    number: usize,
    lowerer: &mut L,
    fields: &[Field],
) -> Result<Items<NumberedType>, NumberFault>
    requires { number < length env.now }
    ensures { (names : Naming) (s : Signature) → IsNaming env.now number names
        → L.stands lowerer.old s
        → Meets (L.stands lowerer.new) result (fields_run L.phase names fields.now s) }
{
    let mut numbered = Items::new(alloc);
    for field in fields {
        numbered.push(number_type(alloc, env, number, lowerer, &field.ty)?)?;
    }
    Ok(numbered)
}

/// The types of the fields, in order.
fn number_all_fields(
    alloc: Global,
    env: &Env,
    number: usize,
    item: &Struct,
) -> Result<Items<NumberedType>, NumberFault>
    requires within { number < length env.now }
    requires sound { IsSoundEnvironment item.now.lifetimes }
    ensures { (names : Naming) → IsNaming env.now number names
        → Starts item.now.lifetimes result
        (whole_run item.now.lifetimes (fields_run Defining names item.now.fields)) }
{
    if item.lifetimes.nodes.len() > MOST_LIFETIMES {
        return Err(NumberFault::Elide(ElideFault::TooManyLifetimes));
    }
    let mut lowerer = IndexedDefinition::new(alloc, &item.lifetimes)?;
    number_each_field(alloc, env, number, &mut lowerer, item.fields.as_slice())
}

/// The types of the fields of a struct that is written in the module of a number.
pub fn number_fields(
    alloc: Global,
    env: &Env,
    number: usize,
    item: &Struct,
) -> Result<Items<NumberedType>, NumberFault>
    requires within { number < length env.now }
    requires sound { IsSoundEnvironment item.now.lifetimes }
    ensures numbered { (names : Naming) → IsNaming env.now number names
        → IfOk result (λ types. AreNumberedFields names item.now types) }
    ensures fault { (names : Naming) → IsNaming env.now number names
        → IfErr result (λ fault. FaultTold item.now.lifetimes fault
        (signature_numbers item.now.lifetimes (field_uses names item.now.fields))) }
    ensures elision { (names : Naming) → IsNaming env.now number names
        → field_breaches names item.now ≡ [] → IfErr result IsOfElision }
    ensures arity { (names : Naming) → IsNaming env.now number names
        → field_breaches names item.now ≡ []
        → IfOk result (λ n. HaveArity (field_uses names item.now.fields) (numbers_of_each n)) }
{
    number_all_fields(alloc, env, number, item)
}

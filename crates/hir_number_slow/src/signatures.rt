//! The uses of lifetimes and paths in a signature or a definition, each with the part in which it stands.

ghost use Rattle.std.specs.Prelude.{◌≡◌, ◌<◌, ◌++◌, length, map, IfOk, OnOk};
ghost use Rattle.std.specs.List.{flat_map};
ghost use Rattle.std.specs.Option.{option_copied};
ghost use Rattle.hir_number.specs.Naming.{IsNaming, Naming};
ghost use Rattle.hir_number.specs.Signatures.{field_uses, function_uses, method_uses, output_uses, param_uses, placed, receiver_borrow, receiver_uses, signature_uses, trait_borrow, trait_method_uses, trait_receiver_uses};
ghost use Rattle.hir_number.specs.Uses.{type_uses};
ghost use Rattle.hir_number_slow.specs.Seen.{part_seen, placed_seen, use_seen};

use crate::flat::{push_borrow, push_path, push_trait, push_type};
use crate::uses::{Part, PlacedUse, Use};
use bridge_ast::Env;
use bridge_decl::{
    Field, Function, Lifetime, Method, Mutability, Param, SelfParam, Struct, TraitMethod,
    TraitSelfParam, TypeName,
};
use hir_number::before_writer;
use std::alloc::{AllocError, Global};

fn borrow_of(receiver: &Option<SelfParam>) -> Option<&(Lifetime, Mutability)>
    ensures { option_copied result ≡ receiver_borrow receiver.now }
{
    match receiver {
        Some(receiver) => receiver.reference.as_ref(),
        None => None,
    }
}

fn trait_borrow_of(receiver: &Option<TraitSelfParam>) -> Option<&(Lifetime, Mutability)>
    ensures { option_copied result ≡ trait_borrow receiver.now }
{
    match receiver {
        Some(receiver) => receiver.reference.as_ref(),
        None => None,
    }
}

fn push_receiver<'m>(
    uses: &mut Vec<Use<'m>>,
    env: &Env,
    number: usize,
    receiver: &'m Option<SelfParam>,
) -> Result<(), AllocError>
    requires { number < length env.now }
    ensures { (names : Naming) → IsNaming env.now number names
        → OnOk result (map use_seen uses.new.items
        ≡ map use_seen uses.old.items ++ receiver_uses names receiver.now) }
{
    match receiver {
        Some(receiver) => push_path(uses, env, number, &receiver.path_type, true),
        None => Ok(()),
    }
}

fn push_trait_receiver<'m>(
    uses: &mut Vec<Use<'m>>,
    env: &Env,
    number: usize,
    receiver: &'m Option<TraitSelfParam>,
) -> Result<(), AllocError>
    requires { number < length env.now }
    ensures { (names : Naming) → IsNaming env.now number names
        → OnOk result (map use_seen uses.new.items
        ≡ map use_seen uses.old.items ++ trait_receiver_uses names receiver.now) }
{
    match receiver {
        Some(receiver) => push_trait(uses, env, number, &receiver.path_trait, true),
        None => Ok(()),
    }
}

fn push_params<'m>(
    uses: &mut Vec<Use<'m>>,
    env: &Env,
    number: usize,
    params: &'m [Param],
) -> Result<(), AllocError>
    requires { number < length env.now }
    ensures { (names : Naming) → IsNaming env.now number names
        → OnOk result (map use_seen uses.new.items
        ≡ map use_seen uses.old.items ++ param_uses names params.now) }
{
    for param in params {
        push_type(uses, env, number, &param.ty)?;
    }
    Ok(())
}

fn push_fields<'m>(
    uses: &mut Vec<Use<'m>>,
    env: &Env,
    number: usize,
    fields: &'m [Field],
) -> Result<(), AllocError>
    requires { number < length env.now }
    ensures { (names : Naming) → IsNaming env.now number names
        → OnOk result (map use_seen uses.new.items
        ≡ map use_seen uses.old.items
        ++ flat_map (λ field. type_uses names field.ty) fields.now) }
{
    for field in fields {
        push_type(uses, env, number, &field.ty)?;
    }
    Ok(())
}

fn push_output<'m>(
    uses: &mut Vec<Use<'m>>,
    env: &Env,
    number: usize,
    output: &'m Option<TypeName>,
) -> Result<(), AllocError>
    requires { number < length env.now }
    ensures { (names : Naming) → IsNaming env.now number names
        → OnOk result (map use_seen uses.new.items
        ≡ map use_seen uses.old.items ++ output_uses names output.now) }
{
    match output {
        Some(ty) => push_type(uses, env, number, ty),
        None => Ok(()),
    }
}

/// Puts uses into a part.
fn place<'m>(list: &mut Vec<PlacedUse<'m>>, part: Part, uses: &[Use<'m>]) -> Result<(), AllocError>
    ensures { OnOk result (map placed_seen list.new.items
        ≡ map placed_seen list.old.items ++ placed (part_seen part) (map use_seen uses.now)) }
{
    for used in uses {
        list.push(PlacedUse { part, used: *used })?;
    }
    Ok(())
}

/// The uses of a signature: those of its inputs and those of its output, each in its part, after the borrow.
fn signature_uses<'m>(
    alloc: Global,
    borrow: Option<&'m (Lifetime, Mutability)>,
    inputs: &[Use<'m>],
    part: Part,
    outputs: &[Use<'m>],
) -> Result<Vec<PlacedUse<'m>>, AllocError>
    ensures { IfOk result (λ uses. map placed_seen uses.items
        ≡ signature_uses (option_copied borrow.entry) (map use_seen inputs.now) (part_seen part)
        (map use_seen outputs.now)) }
{
    let mut borrows = Vec::new(alloc);
    push_borrow(&mut borrows, borrow)?;
    let mut uses = Vec::new(alloc);
    place(&mut uses, Part::Borrow, borrows.as_slice())?;
    place(&mut uses, Part::Input, inputs)?;
    place(&mut uses, part, outputs)?;
    Ok(uses)
}

/// The uses of a method that is written in the module of a number.
pub fn method_uses<'m>(
    alloc: Global,
    env: &Env,
    number: usize,
    method: &'m Method,
) -> Result<Vec<PlacedUse<'m>>, AllocError>
    requires { number < length env.now }
    ensures { (names : Naming) → IsNaming env.now number names
        → IfOk result (λ uses. map placed_seen uses.items ≡ method_uses names method.now) }
{
    let mut inputs = Vec::new(alloc);
    push_receiver(&mut inputs, env, number, &method.self_param)?;
    push_params(
        &mut inputs,
        env,
        number,
        before_writer(method.params.as_slice()),
    )?;
    let mut outputs = Vec::new(alloc);
    push_output(&mut outputs, env, number, &method.return_type)?;
    let borrow = borrow_of(&method.self_param);
    signature_uses(
        alloc,
        borrow,
        inputs.as_slice(),
        Part::Output,
        outputs.as_slice(),
    )
}

/// Those of a function.
pub fn function_uses<'m>(
    alloc: Global,
    env: &Env,
    number: usize,
    function: &'m Function,
) -> Result<Vec<PlacedUse<'m>>, AllocError>
    requires { number < length env.now }
    ensures { (names : Naming) → IsNaming env.now number names
        → IfOk result (λ uses. map placed_seen uses.items ≡ function_uses names function.now) }
{
    let mut inputs = Vec::new(alloc);
    push_params(
        &mut inputs,
        env,
        number,
        before_writer(function.params.as_slice()),
    )?;
    let mut outputs = Vec::new(alloc);
    push_output(&mut outputs, env, number, &function.output_type)?;
    signature_uses(
        alloc,
        None,
        inputs.as_slice(),
        Part::Output,
        outputs.as_slice(),
    )
}

/// Those of a trait's method.
pub fn trait_method_uses<'m>(
    alloc: Global,
    env: &Env,
    number: usize,
    method: &'m TraitMethod,
) -> Result<Vec<PlacedUse<'m>>, AllocError>
    requires { number < length env.now }
    ensures { (names : Naming) → IsNaming env.now number names
        → IfOk result
        (λ uses. map placed_seen uses.items ≡ trait_method_uses names method.now) }
{
    let mut inputs = Vec::new(alloc);
    push_trait_receiver(&mut inputs, env, number, &method.self_param)?;
    push_params(&mut inputs, env, number, method.params.as_slice())?;
    let mut outputs = Vec::new(alloc);
    push_output(&mut outputs, env, number, &method.output_type)?;
    let borrow = trait_borrow_of(&method.self_param);
    signature_uses(
        alloc,
        borrow,
        inputs.as_slice(),
        Part::TraitOutput,
        outputs.as_slice(),
    )
}

/// Those of the fields of a struct.
pub fn field_uses<'m>(
    alloc: Global,
    env: &Env,
    number: usize,
    item: &'m Struct,
) -> Result<Vec<PlacedUse<'m>>, AllocError>
    requires { number < length env.now }
    ensures { (names : Naming) → IsNaming env.now number names
        → IfOk result (λ uses. map placed_seen uses.items ≡ field_uses names item.now.fields) }
{
    let mut fields = Vec::new(alloc);
    push_fields(&mut fields, env, number, item.fields.as_slice())?;
    let mut uses = Vec::new(alloc);
    place(&mut uses, Part::Field, fields.as_slice())?;
    Ok(uses)
}

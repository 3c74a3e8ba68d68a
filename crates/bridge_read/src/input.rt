//! The whole input: declarations, a backend, a configuration, and where documentation lies.

ghost use Rattle.std.specs.Prelude.{◌≡◌, ℕ, List, Err, IfErr, IfOk, Some, length, slice_get};
ghost use Rattle.std.specs.List.{All};
ghost use Rattle.serde_json.specs.Data.{Data};
ghost use Rattle.serde_json.specs.View.{view};
ghost use Rattle.bridge_ast.specs.EnvFaults.{faults_of};
ghost use Rattle.bridge_decl.specs.declared.modules.Module.{Module as Declarations};
ghost use Rattle.bridge_form.specs.declared.fault.Fault.{Fault as Wrong};
ghost use Rattle.bridge_read.specs.declared.input.Declared.{Declared as Spelled};
ghost use Rattle.bridge_form.specs.declared.pointer.Step.{Step as Way};
ghost use Rattle.bridge_read.specs.declared.input.Input.{Input as Given};
ghost use Rattle.bridge_read.specs.declared.input.InputFault.TheVariants.{NoMemory as no_memory};
ghost use Rattle.bridge_read.specs.Agree.{CutsNothing};
ghost use Rattle.bridge_read.specs.Inputs.{IsJsonOf, IsReadAs, IsToldOf, Refuses, SpellsInput, IsFirstOf, IsToldAs, declared_fault, kind_of};
ghost use Rattle.bridge_read.specs.ModulePlaces.{LeadsTo};
ghost use Rattle.bridge_read.specs.Parents.{LacksParent};
ghost use Rattle.bridge_pointers.specs.Pointers.{module_pointers};
ghost use Rattle.bridge_read.specs.TruePlaces.{IsPlaced};
ghost use Rattle.bridge_read.specs.forms.Inputs.{no_backend, whole};
ghost use Rattle.bridge_read.specs.inside.Answers.{GivesEnv, GivesForm, IsNoJson};

use crate::InputForms;
use crate::modules::ModuleList;
use bridge_ast::{Env, EnvFault, EnvFaultKind, EnvPlace, NoMemory, Text};
use bridge_form::{InputKind, Pointer, Read, ReadFault};
use bridge_pointers::place_pointer;
use bridge_read_parts::{FromForm, held, needed, read_object};
use hir_backends::BasicAttributeValidator;
use hir_config::LoweringConfig;
use hir_docs::DocsUrlGenerator;
use serde_json::Value;
use std::alloc::{AllocError, Global};

/// What an input declares, of which it isn't known whether its modules fit together.
#[derive(Drop)]
pub struct Declared {
    /// The modules, each before those that stand in it.
    pub modules: ModuleList,
    /// The backend.
    pub validator: BasicAttributeValidator,
    /// The configuration.
    pub config: LoweringConfig,
    /// Where documentation lies.
    pub urls: DocsUrlGenerator,
}

/// An input.
#[derive(Drop)]
pub struct Input {
    /// The declarations, which fit together.
    pub env: Env,
    /// The backend.
    pub validator: BasicAttributeValidator,
    /// The configuration.
    pub config: LoweringConfig,
    /// Where documentation lies.
    pub urls: DocsUrlGenerator,
}

/// Why bytes are read as no input.
#[derive(Drop)]
pub enum InputFault {
    /// They spell none.
    NotDeclarations {
        /// What is wrong.
        kind: InputKind,
        /// Where: a JSON pointer (RFC 6901), which is empty for the whole.
        pointer: Text,
    },
    /// Memory ran out.
    NoMemory,
}

impl From<AllocError> for InputFault {
    ghost from_gives = { λ _ fault. fault ≡ no_memory };

    fn from(_refused: AllocError) -> InputFault {
        InputFault::NoMemory
    }
}

/// The backend that has no name, supports nothing, and knows no pairs and no features.
fn no_backend(alloc: Global) -> Result<BasicAttributeValidator, NoMemory>
    ensures { IfOk result (λ backend. backend ≡ no_backend) }
{
    BasicAttributeValidator::new(alloc, "")
}

#[tactic(auto, unfolding(crate::specs::forms::Inputs::whole, bridge_form::specs::Left::are_apart, bridge_form::specs::Keys::key_text))]
impl FromForm<InputForms> for Declared {
    ghost use Rattle.bridge_read.specs.forms.Inputs.{whole};

    ghost form = { whole.read };

    fn from_form(alloc: Global, value: Value) -> Read<Declared> {
        read_object!(alloc, value, left, {
            Root => modules = needed(alloc, &mut left)?;
            Backend => validator = held(alloc, &mut left, no_backend(alloc)?)?;
            Config => config = held(alloc, &mut left, LoweringConfig::default())?;
            Docs => urls = held(alloc, &mut left, DocsUrlGenerator::new(alloc))?;
        } Ok(Declared { modules, validator, config, urls }))
    }
}

/// The fault of a kind at a pointer.
fn fault_at(alloc: Global, kind: InputKind, at: Pointer) -> InputFault
    ensures { IsToldAs result (record { kind = kind; at = at }) }
{
    match at.into_text(alloc) {
        Ok(pointer) => InputFault::NotDeclarations { kind, pointer },
        Err(AllocError) => InputFault::NoMemory,
    }
}

/// The JSON value of the bytes.
fn json_value(alloc: Global, bytes: &[u8]) -> Result<Value, InputFault>
    ensures ok { IfOk result (λ value. IsJsonOf bytes.now (view value)) }
    ensures not_json { IfErr result (λ fault. IsNoJson bytes.now fault) }
{
    match Value::from_slice(alloc, bytes) {
        Ok(value) => Ok(value),
        Err(error) if error.is_memory() => Err(InputFault::NoMemory),
        Err(_) => Err(fault_at(alloc, InputKind::NotJson, Pointer::here(alloc))),
    }
}

/// What the value declares.
fn declared_in(alloc: Global, value: Value) -> Result<Declared, InputFault>
    ensures { GivesForm result (view value) }
{
    match Declared::from_form(alloc, value) {
        Ok(declared) => Ok(declared),
        Err(ReadFault::Bad(fault)) => Err(fault_at(alloc, fault.kind, fault.at)),
        Err(ReadFault::NoMemory) => Err(InputFault::NoMemory),
    }
}

/// The kind of a fault between declarations.
fn kind_of(kind: EnvFaultKind) -> InputKind
    ensures { result ≡ kind_of kind }
{
    match kind {
        EnvFaultKind::DuplicateModule => InputKind::DuplicateModule,
        EnvFaultKind::ParentMissing => InputKind::WrongForm,
        EnvFaultKind::DuplicateItem => InputKind::DuplicateItem,
        EnvFaultKind::DuplicateLifetime => InputKind::DuplicateLifetime,
        EnvFaultKind::BoundOutOfRange => InputKind::BoundOutOfRange,
        EnvFaultKind::BoundOneSided => InputKind::BoundOneSided,
    }
}

/// A fault between the declarations that the bytes spell. Their value is read once more, since it was taken apart.
#[tactic(auto, using(crate::proofs::InputLaws::same_value, crate::proofs::InputLaws::none_told))]
fn fault_between(alloc: Global, bytes: &[u8], kind: EnvFaultKind, at: EnvPlace) -> InputFault
    ensures { (d : Data) → IsJsonOf bytes.now d → IsToldAs result (declared_fault d kind at) }
{
    let value = match json_value(alloc, bytes) {
        Ok(value) => value,
        Err(fault) => return fault,
    };
    match place_pointer(alloc, &value, at) {
        Ok(pointer) => fault_at(alloc, kind_of(kind), pointer),
        Err(AllocError) => InputFault::NoMemory,
    }
}

/// The environment of the modules that the bytes declare.
fn env_of(alloc: Global, bytes: &[u8], modules: ModuleList) -> Result<Env, InputFault>
    ensures { (d : Data) → IsJsonOf bytes.now d → GivesEnv result d modules }
{
    match Env::new(alloc, modules.into_vec()) {
        Ok(env) => Ok(env),
        Err(EnvFault::Bad { kind, at, .. }) => Err(fault_between(alloc, bytes, kind, at)),
        Err(EnvFault::NoMemory) => Err(InputFault::NoMemory),
    }
}

/// The input that the bytes spell.
///
/// `NotDeclarations` comes exactly where they spell none, and tells the first fault: the bytes are no JSON text; else the first
/// place where their value hasn't the form, as it is read in order; else the first place where the declarations don't fit
/// together. `NoMemory` comes where memory runs out.
#[tactic(auto, using(crate::proofs::InputLaws::json_refuses))]
pub fn read_input(alloc: Global, bytes: &[u8]) -> Result<Input, InputFault>
    // What is read is spelled so.
    ensures spelled { IfOk result (λ input. SpellsInput bytes.now input) }
    // What is spelled so is read, unless memory runs out.
    ensures only { (input : Given) → SpellsInput bytes.now input → IsReadAs result input }
    // The fault that is told is the first.
    ensures told { IfErr result (λ fault. IsToldOf bytes.now fault) }
    // Bytes are refused only where they spell no input, and those that spell one have no fault.
    ensures refused { IfErr result (λ fault. Refuses bytes.now fault) }
    ensures faultless { (value : Data) (input : Given) (fault : Wrong)
        → SpellsInput bytes.now input → IsJsonOf bytes.now value → ¬ IsFirstOf value fault }
    // Each module that a value declares has its pointer, which leads to the object that spells it.
    ensures counted { (value : Data) (declared : Spelled) → whole.Spells value declared
        → length declared.modules ≡ length (module_pointers value) }
    ensures pointed { (value : Data) (declared : Spelled) (n : ℕ) (m : Declarations)
        → whole.Spells value declared → slice_get declared.modules n ≡ Some m
        → (steps : List Way) × (slice_get (module_pointers value) n ≡ Some steps)
        × LeadsTo value steps m }
    // A fault between declarations is told of a place that there is.
    ensures placed { (modules : List Declarations)
        → All (IsPlaced modules) (faults_of modules) }
    // Each module that a value declares stands after the one that it is in, so `wrong form` is never told of a missing parent.
    ensures parents { (value : Data) (declared : Spelled) → whole.Spells value declared
        → All (λ fault. ¬ LacksParent fault) (faults_of declared.modules) }
    // Types, conditions and modules may nest as deep as a text may.
    ensures uncut { CutsNothing }
    // No bytes spell two inputs.
    ensures once { (one other : Given) → SpellsInput bytes.now one → SpellsInput bytes.now other
        → one ≡ other }
{
    let value = json_value(alloc, bytes)?;
    let declared = declared_in(alloc, value)?;
    let env = env_of(alloc, bytes, declared.modules)?;
    Ok(Input {
        env,
        validator: declared.validator,
        config: declared.config,
        urls: declared.urls,
    })
}

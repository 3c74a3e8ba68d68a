//! What a trait's method has beside its marks and its types.

ghost use Rattle.std.specs.Prelude.{◌≡◌, ◌≢◌, [], IfOk, MatchBool, OnOk, map, option_map};
ghost use Rattle.hir_heads.specs.Heads.{lifetime_errors};
ghost use Rattle.hir_heads.specs.Names.{name_errors};
ghost use Rattle.hir_heads.specs.Told.{MadeUnlessTold};
ghost use Rattle.hir_reports.specs.Store.{Held, Keeps, added};
ghost use Rattle.hir_traits.specs.TraitMethods.{unmarked_param, param_name_errors, trait_method_head, trait_method_head_errors};
ghost use Rattle.hir_traits.specs.inside.Parts.{method_headed, named_as};

use bridge_decl::{IdentBuf, Items, LifetimeEnv, NoMemory, Param, TraitMethod};
use hir_backends::AttributeValidator;
use hir_docs::Docs;
use hir_heads::{lower_ident, tell_lifetimes};
use hir_methods::{keep, paired, read_docs};
use hir_reports::ErrorStore;
use std::alloc::Global;

/// A parameter without its type.
#[derive(Drop)]
pub struct NamedParam {
    /// Its name.
    pub name: IdentBuf,
}

/// What a trait's method has beside its marks and its types.
#[derive(Drop)]
pub struct TraitMethodHead {
    /// What is documented.
    pub docs: Docs,
    /// Its name.
    pub name: IdentBuf,
    /// Its parameters.
    pub params: Items<NamedParam>,
}

/// A parameter, where there is its name.
fn named_as(name: Option<IdentBuf>) -> Option<NamedParam>
    ensures { result ≡ option_map named_as name }
{
    match name {
        Some(name) => Some(NamedParam { name }),
        None => None,
    }
}

/// A parameter. None only where its name is no identifier.
fn lower_param(
    alloc: Global,
    param: &Param,
    errors: &mut ErrorStore<'_>,
) -> Result<Option<NamedParam>, NoMemory>
    ensures told { OnOk result (errors.new ≡ added errors.old (name_errors param.now.name)) }
    ensures made { IfOk result
        (MadeUnlessTold (name_errors param.now.name) (unmarked_param param.now)) }
    ensures kept { (earlier : Held) → Keeps earlier errors.old → Keeps earlier errors.new }
{
    let name = lower_ident(alloc, &param.name, errors)?;
    Ok(named_as(name))
}

/// All parameters of a list. None only where something is told of them.
fn lower_params(
    alloc: Global,
    params: &[Param],
    errors: &mut ErrorStore<'_>,
) -> Result<Option<Items<NamedParam>>, NoMemory>
    ensures told { OnOk result (errors.new ≡ added errors.old (param_name_errors params.now)) }
    ensures made { IfOk result
        (MadeUnlessTold (param_name_errors params.now) (map unmarked_param params.now)) }
    ensures kept { (earlier : Held) → Keeps earlier errors.old → Keeps earlier errors.new }
{
    let mut lowered = Some(Items::new(alloc));
    for param in params {
        let one = lower_param(alloc, param, errors)?;
        keep(&mut lowered, one)?;
    }
    Ok(lowered)
}

/// Tells each declared lifetime whose name is no identifier. Whether there is none.
fn test_lifetimes(
    alloc: Global,
    declared: &LifetimeEnv,
    errors: &mut ErrorStore<'_>,
) -> Result<bool, NoMemory>
    ensures told { OnOk result (errors.new ≡ added errors.old (lifetime_errors declared.now)) }
    ensures fine { IfOk result (λ fine. MatchBool fine (lifetime_errors declared.now ≡ [])
        (lifetime_errors declared.now ≢ [])) }
    ensures kept { (earlier : Held) → Keeps earlier errors.old → Keeps earlier errors.new }
{
    let before = errors.len();
    tell_lifetimes(alloc, declared, errors)?;
    Ok(errors.len() == before)
}

/// A head of these documents, where there are the method's name and its parameters.
fn method_headed(
    docs: Docs,
    name: Option<IdentBuf>,
    params: Option<Items<NamedParam>>,
) -> Option<TraitMethodHead>
    ensures { result ≡ method_headed docs name params }
{
    match paired(name, params) {
        Some((name, params)) => Some(TraitMethodHead { docs, name, params }),
        None => None,
    }
}

/// What was read of a method beside its marks and its types.
#[derive(Drop)]
pub struct ReadHead {
    /// All of it, where nothing is told of it.
    pub head: Option<TraitMethodHead>,
    /// Whether the names of its lifetimes are identifiers.
    pub are_named: bool,
}

/// What an enabled method has beside its marks and its types.
pub fn lower_head<V: AttributeValidator>(
    alloc: Global,
    method: &TraitMethod,
    validator: &V,
    errors: &mut ErrorStore<'_>,
) -> Result<ReadHead, NoMemory>
    ensures told { OnOk result (errors.new
        ≡ added errors.old (trait_method_head_errors (V.meaning validator.now) method.now)) }
    ensures made { IfOk result (λ read. MadeUnlessTold
        (trait_method_head_errors (V.meaning validator.now) method.now)
        (trait_method_head (V.meaning validator.now) method.now) read.head) }
    ensures named { IfOk result (λ read. MatchBool read.are_named
        (lifetime_errors method.now.lifetimes ≡ [])
        (lifetime_errors method.now.lifetimes ≢ [])) }
    ensures kept { (earlier : Held) → Keeps earlier errors.old → Keeps earlier errors.new }
{
    let docs = read_docs(alloc, &method.docs, validator, errors)?;
    let name = lower_ident(alloc, &method.name, errors)?;
    let are_named = test_lifetimes(alloc, &method.lifetimes, errors)?;
    let params = lower_params(alloc, method.params.as_slice(), errors)?;
    let head = method_headed(docs, name, params);
    Ok(ReadHead { head, are_named })
}

//! The walk over the inputs of a method.

ghost use Rattle.std.specs.Prelude.{◌≡◌, ◌≤◌, ℕ, List, [], ◌∷◌, length, map, IfOk, OnOk};
ghost use Rattle.std.specs.List.{All};
ghost use Rattle.hir_life.specs.Substitution.{identity};
ghost use Rattle.hir_mentions.specs.Mentions.{where_any};
ghost use Rattle.hir_skeleton.specs.Lowered.{receiver_skeleton};
ghost use Rattle.hir_skeleton.specs.Inputs.{method_inputs, param_skeleton};
ghost use Rattle.hir_skeleton.specs.NamedLeaves.{borrowing_leaves};
ghost use Rattle.hir_borrowing_fields.specs.inside.InputFits.{SkeletonFits};
ghost use Rattle.hir_borrowing_fields.specs.inside.Walks.{AreBare, GoesOn, behind, leaves_from, named_inputs, named_param, named_receiver, walked_type};

use crate::found::FoundLeaves;
use crate::parts::{TypePart, type_part};
use crate::places::Place;
use crate::walk::{LeafWalk, add_part};
use bridge_decl::{IdentBuf, NoMemory};
use hir_context::TypeContext;
use hir_definitions::{Method, Param, ParamSelf};
use hir_life::Lifetimes;
use hir_types::SelfType;
use std::alloc::Global;
use std::collections::BTreeSet;

/// How many levels of structs are looked into: no struct nests deeper.
const MOST_LEVELS: usize = 256;

/// Adds the leaves of a receiver of this type.
fn add_self<'m>(
    alloc: Global,
    tcx: &'m TypeContext,
    walk: &mut LeafWalk<'m>,
    self_name: &'m IdentBuf,
    ty: &'m SelfType,
    args: &Lifetimes,
) -> Result<(), NoMemory>
    requires fits { SkeletonFits tcx.now.definitions (length args.now)
        (receiver_skeleton ty.now) }
    requires bare { AreBare tcx.now.definitions walk.old.bare }
    ensures { OnOk result (GoesOn tcx.now.definitions walk.old walk.new
        (map (behind (record { number = 0; name = self_name.now } ∷ []))
        (walked_type tcx.now.definitions 256 args.now (receiver_skeleton ty.now)))) }
{
    let place = Place {
        parent: None,
        number: 0,
        name: self_name,
    };
    match ty {
        SelfType::Opaque(path) => {
            let given = path.lifetimes.as_slice();
            let part = TypePart::Carrier(None, Some(path.owner.lifetime), given);
            add_part(alloc, tcx, walk, &place, &part, args, MOST_LEVELS)
        }
        SelfType::Struct(path) => {
            let part = TypePart::Struct(path);
            add_part(alloc, tcx, walk, &place, &part, args, MOST_LEVELS)
        }
        SelfType::Enum(_) => Ok(()),
    }
}

/// Adds the leaves of the receiver, where there is one.
fn add_receiver<'m>(
    alloc: Global,
    tcx: &'m TypeContext,
    walk: &mut LeafWalk<'m>,
    self_name: &'m IdentBuf,
    receiver: &'m Option<ParamSelf>,
    args: &Lifetimes,
) -> Result<(), NoMemory>
    requires fit { All (SkeletonFits tcx.now.definitions (length args.now))
        (where_any (λ r. receiver_skeleton r.ty ∷ []) receiver.now) }
    requires bare { AreBare tcx.now.definitions walk.old.bare }
    ensures { OnOk result (GoesOn tcx.now.definitions walk.old walk.new (map (behind [])
        (leaves_from 0 (walked_type tcx.now.definitions 256 args.now)
        (named_receiver self_name.now receiver.now)))) }
{
    match receiver {
        Some(receiver) => add_self(alloc, tcx, walk, self_name, &receiver.ty, args),
        None => Ok(()),
    }
}

/// The number of the first parameter among the inputs: the receiver stands before it.
fn first_param(receiver: &Option<ParamSelf>) -> usize
    ensures behind { (self_name : List ℕ) → result
        ≡ length (named_receiver self_name receiver.now) }
    ensures few { result ≤ 1 }
{
    match receiver {
        Some(_) => 1,
        None => 0,
    }
}

/// Adds the leaves of parameters, the first of which has this number.
fn add_params<'m>(
    alloc: Global,
    tcx: &'m TypeContext,
    walk: &mut LeafWalk<'m>,
    params: &'m [Param],
    args: &Lifetimes,
    first: usize,
) -> Result<(), NoMemory>
    requires few { first ≤ 1 }
    requires fit { All (λ p. SkeletonFits tcx.now.definitions (length args.now)
        (param_skeleton p.ty)) params.now }
    requires bare { AreBare tcx.now.definitions walk.old.bare }
    ensures { OnOk result (GoesOn tcx.now.definitions walk.old walk.new (map (behind [])
        (leaves_from first (walked_type tcx.now.definitions 256 args.now)
        (map named_param params.now)))) }
{
    for (number, param) in params.iter().enumerate() {
        let place = Place {
            parent: None,
            number: first + number,
            name: &param.name,
        };
        add_part(
            alloc,
            tcx,
            walk,
            &place,
            &type_part(&param.ty),
            args,
            MOST_LEVELS,
        )?;
    }
    Ok(())
}

/// Adds the leaves of all inputs of a method.
fn add_inputs<'m>(
    alloc: Global,
    tcx: &'m TypeContext,
    walk: &mut LeafWalk<'m>,
    self_name: &'m IdentBuf,
    method: &'m Method,
    args: &Lifetimes,
) -> Result<(), NoMemory>
    requires fit { All (SkeletonFits tcx.now.definitions (length args.now))
        (method_inputs method.now) }
    requires bare { AreBare tcx.now.definitions walk.old.bare }
    ensures { OnOk result (GoesOn tcx.now.definitions walk.old walk.new (map (behind [])
        (leaves_from 0 (walked_type tcx.now.definitions 256 args.now)
        (named_inputs self_name.now method.now)))) }
{
    add_receiver(alloc, tcx, walk, self_name, &method.param_self, args)?;
    let first = first_param(&method.param_self);
    add_params(alloc, tcx, walk, method.params.as_slice(), args, first)?;
    Ok(())
}

/// The leaves of all inputs of a method whose lifetimes are these.
pub(crate) fn find_leaves<'m>(
    alloc: Global,
    tcx: &'m TypeContext,
    self_name: &'m IdentBuf,
    method: &'m Method,
    args: &Lifetimes,
) -> Result<FoundLeaves<'m>, NoMemory>
    requires fit { All (SkeletonFits tcx.now.definitions (length args.now))
        (method_inputs method.now) }
    requires own { args.now ≡ identity method.now.lifetime_env.count }
    ensures { IfOk result (λ found.
        found.leaves ≡ borrowing_leaves tcx.now.definitions self_name.now method.now) }
{
    let mut walk = LeafWalk {
        found: FoundLeaves::new(alloc),
        bare: BTreeSet::new(alloc),
    };
    add_inputs(alloc, tcx, &mut walk, self_name, method, args)?;
    Ok(walk.found)
}

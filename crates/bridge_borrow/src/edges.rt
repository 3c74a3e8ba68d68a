//! The edges under a lifetime.

ghost use Rattle.std.specs.Prelude.{◌≡◌, ◌++◌, is_some, IfOk, OnOk};
ghost use Rattle.std.specs.List.{enumerate_from, flat_map};
ghost use Rattle.bridge_borrow.specs.inside.Edges.{argument_edges, param_edges, params_edges, receiver_edges, edges_of_struct, edges_of_whole};
ghost use Rattle.bridge_report.specs.Borrowings.{edges_of_input, kind_of_whole};
ghost use Rattle.bridge_report.specs.InContext.{callable_inputs};
ghost use Rattle.hir_borrowing_params.specs.Edges.{is_in};
ghost use Rattle.hir_mentions.specs.Mentions.{where_any};
ghost use Rattle.hir_parts.specs.Parts.{carried_by};

use crate::outliving::{carried_outlives, outlives};
use bridge_decl::{Items, NoMemory};
use bridge_report::{InputPlace, ReportEdge, ReportEdgeKind};
use hir_definitions::{Method, Param, ParamSelf};
use hir_life::{Lifetime, MaybeStatic};
use hir_parts::{InputPart, input_part, receiver_part};
use std::alloc::Global;
use std::collections::BTreeSet;

/// What is held of an input that is a slice or isn't, and is no struct.
fn kind_of_whole(is_slice: bool) -> ReportEdgeKind
    ensures { result ≡ kind_of_whole is_slice }
{
    if is_slice {
        ReportEdgeKind::Slice
    } else {
        ReportEdgeKind::Opaque
    }
}

/// Adds the edge of a carrier, where it carries a lifetime of the set.
fn push_carrier_edge(
    edges: &mut Items<ReportEdge>,
    longer: &BTreeSet<Lifetime>,
    input: &InputPlace,
    is_slice: bool,
    own: Option<MaybeStatic<Lifetime>>,
    element: Option<MaybeStatic<Lifetime>>,
    given: &[MaybeStatic<Lifetime>],
) -> Result<(), NoMemory>
    ensures { OnOk result (edges.new ≡ edges.old
        ++ edges_of_whole input.now (is_in longer.now) is_slice
        (carried_by own element given.now)) }
{
    if carried_outlives(longer, own, element, given) {
        edges.push(ReportEdge {
            input: *input,
            kind: kind_of_whole(is_slice),
        })?;
    }
    Ok(())
}

/// Adds the edge of a struct for its argument of this number, where the argument is in the set.
fn push_argument_edge(
    edges: &mut Items<ReportEdge>,
    longer: &BTreeSet<Lifetime>,
    input: &InputPlace,
    optional: bool,
    number: usize,
    argument: &MaybeStatic<Lifetime>,
) -> Result<(), NoMemory>
    ensures { OnOk result (edges.new ≡ edges.old
        ++ argument_edges input.now (is_in longer.now) optional (number, argument.now)) }
{
    if outlives(longer, argument) {
        edges.push(ReportEdge {
            input: *input,
            kind: ReportEdgeKind::Struct(Lifetime::new(number), optional),
        })?;
    }
    Ok(())
}

/// Adds the edges of a struct with these arguments, which stands in an option or doesn't.
fn push_struct_edges(
    edges: &mut Items<ReportEdge>,
    longer: &BTreeSet<Lifetime>,
    input: &InputPlace,
    optional: bool,
    args: &[MaybeStatic<Lifetime>],
) -> Result<(), NoMemory>
    ensures { OnOk result (edges.new ≡ edges.old
        ++ edges_of_struct input.now (is_in longer.now) optional 0 args.now) }
{
    for (number, argument) in args.iter().enumerate() {
        push_argument_edge(edges, longer, input, optional, number, argument)?;
    }
    Ok(())
}

/// Adds the edges of a receiver, where there is one. It stands in no option, and is no slice.
fn push_receiver_edges(
    edges: &mut Items<ReportEdge>,
    longer: &BTreeSet<Lifetime>,
    receiver: &Option<ParamSelf>,
) -> Result<(), NoMemory>
    ensures { OnOk result (edges.new ≡ edges.old
        ++ where_any (receiver_edges (is_in longer.now)) receiver.now) }
{
    let Some(receiver) = receiver else {
        return Ok(());
    };
    let input = InputPlace::Receiver;
    match receiver_part(&receiver.ty) {
        InputPart::Carrier(is_slice, own, element, given) => {
            push_carrier_edge(edges, longer, &input, is_slice, own, element, given)
        }
        InputPart::Struct(_, args) => push_struct_edges(edges, longer, &input, false, args),
    }
}

/// Adds the edges of the parameter of this number.
fn push_param_edges(
    edges: &mut Items<ReportEdge>,
    longer: &BTreeSet<Lifetime>,
    number: usize,
    param: &Param,
) -> Result<(), NoMemory>
    ensures { OnOk result (edges.new ≡ edges.old
        ++ param_edges (is_in longer.now) (number, param.now)) }
{
    let input = InputPlace::Param(number);
    let optional = param.ty.is_option();
    match input_part(&param.ty) {
        InputPart::Carrier(is_slice, own, element, given) => {
            push_carrier_edge(edges, longer, &input, is_slice, own, element, given)
        }
        InputPart::Struct(_, args) => push_struct_edges(edges, longer, &input, optional, args),
    }
}

/// Adds the edges of all parameters, in order.
fn push_params_edges(
    edges: &mut Items<ReportEdge>,
    longer: &BTreeSet<Lifetime>,
    params: &[Param],
) -> Result<(), NoMemory>
    ensures { OnOk result (edges.new ≡ edges.old
        ++ params_edges (is_in longer.now) 0 params.now) }
{
    for (number, param) in params.iter().enumerate() {
        push_param_edges(edges, longer, number, param)?;
    }
    Ok(())
}

/// The edges of the inputs of a method that carry one of the lifetimes, in the order of the inputs.
pub(crate) fn held_edges(
    alloc: Global,
    method: &Method,
    longer: &BTreeSet<Lifetime>,
) -> Result<Items<ReportEdge>, NoMemory>
    ensures { IfOk result (λ edges. edges
        ≡ flat_map (edges_of_input (is_some method.now.param_self) (is_in longer.now))
        (enumerate_from 0 (callable_inputs method.now))) }
{
    let mut edges = Items::new(alloc);
    push_receiver_edges(&mut edges, longer, &method.param_self)?;
    push_params_edges(&mut edges, longer, method.params.as_slice())?;
    Ok(edges)
}

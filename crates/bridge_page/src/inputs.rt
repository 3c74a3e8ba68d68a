//! Inputs: their names, and the structs that they are.

ghost use Rattle.std.specs.Prelude.{◌≡◌, option_and_then};
ghost use Rattle.bridge_outside.specs.Printing.{Prints};
ghost use Rattle.bridge_page.specs.inside.Printed.{input_at, input_name};
ghost use Rattle.bridge_page.specs.inside.Walked.{number_of_struct};
ghost use Rattle.bridge_report.specs.declared.report.InputPlace.TheVariants as input;
ghost use Rattle.hir_parts.specs.Parts.{input_skeleton};
ghost use Rattle.hir_skeleton.specs.Lowered.{receiver_skeleton};

use bridge_outside::{Printer, Sink, put_text};
use bridge_report::InputPlace;
use hir_definitions::Method;
use hir_ids::StructId;
use hir_parts::{InputPart, input_part};
use hir_types::SelfType;

/// The name of an input.
pub(crate) fn put_input<K: Sink>(
    sink: &mut K,
    out: &mut Printer,
    method: &Method,
    input: InputPlace,
)
    ensures { Prints (K.state sink.old) out.old (K.state sink.new) out.new
        (input_name method.now input) }
{
    match input {
        InputPlace::Receiver => put_text(sink, out, "this"),
        InputPlace::Param(number) => {
            if let Some(param) = method.params.get(number) {
                put_text(sink, out, param.name.as_str());
            }
        }
    }
}

/// The struct of which this is the part, where it is one.
pub(crate) fn struct_of(part: &InputPart<'_>) -> Option<StructId>
    ensures { result ≡ number_of_struct (input_skeleton part.now) }
{
    match part {
        InputPart::Struct(id, _) => Some(*id),
        InputPart::Carrier(_, _, _, _) => None,
    }
}

/// The struct that a receiver of this type is.
fn self_struct(ty: &SelfType) -> Option<StructId>
    ensures { result ≡ number_of_struct (receiver_skeleton ty.now) }
{
    match ty {
        SelfType::Struct(path) => Some(path.tcx_id),
        SelfType::Opaque(_) | SelfType::Enum(_) => None,
    }
}

/// The struct that the receiver is.
fn receiver_struct(method: &Method) -> Option<StructId>
    ensures { result ≡ option_and_then number_of_struct (input_at method.now input.Receiver) }
{
    match &method.param_self {
        Some(receiver) => self_struct(&receiver.ty),
        None => None,
    }
}

/// The struct that the parameter of this number is.
fn param_struct(method: &Method, number: usize) -> Option<StructId>
    ensures { result
        ≡ option_and_then number_of_struct (input_at method.now (input.Param number)) }
{
    match method.params.get(number) {
        Some(param) => struct_of(&input_part(&param.ty)),
        None => None,
    }
}

/// The struct that an input is.
pub(crate) fn input_struct(method: &Method, input: InputPlace) -> Option<StructId>
    ensures { result ≡ option_and_then number_of_struct (input_at method.now input) }
{
    match input {
        InputPlace::Receiver => receiver_struct(method),
        InputPlace::Param(number) => param_struct(method, number),
    }
}

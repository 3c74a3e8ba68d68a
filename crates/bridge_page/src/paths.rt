//! Leaves, by the names along their paths.

ghost use Rattle.std.specs.Prelude.{◌≡◌, ◌++◌, codes, option_and_then, slice_get};
ghost use Rattle.std.specs.List.{join_by};
ghost use Rattle.std.specs.Option.{option_copied};
ghost use Rattle.bridge_outside.specs.Printing.{Prints, separator_at};
ghost use Rattle.bridge_page.specs.inside.Printed.{dotted, leaf_path_text};
ghost use Rattle.bridge_page.specs.inside.Walked.{field_struct_id, name_of_field, names_from};
ghost use Rattle.hir_mentions.specs.Mentions.{where_any};

use crate::inputs::{input_struct, put_input, struct_of};
use bridge_outside::{Printer, Sink, put_separator, put_text};
use bridge_report::LeafPath;
use hir_context::TypeContext;
use hir_definitions::{Method, StructDef};
use hir_ids::StructId;
use hir_parts::input_part;
use hir_types::Everywhere;

/// The name of the field of this number, after a point, where the struct has one.
fn put_field_name<K: Sink>(
    sink: &mut K,
    out: &mut Printer,
    def: &StructDef<Everywhere>,
    number: usize,
)
    ensures { Prints (K.state sink.old) out.old (K.state sink.new) out.new
        (dotted (name_of_field number def.now)) }
{
    if let Some(field) = def.fields.get(number) {
        put_text(sink, out, ".");
        put_text(sink, out, field.name.as_str());
    }
}

/// The struct that the field of this number is. A disabled struct leads nowhere.
fn field_struct(def: &StructDef<Everywhere>, number: usize) -> Option<StructId>
    ensures { result ≡ field_struct_id number def.now }
{
    if def.attrs.disable {
        return None;
    }
    match def.fields.get(number) {
        Some(field) => struct_of(&input_part(&field.ty)),
        None => None,
    }
}

/// The name of the field of this number, after a point, where there is a struct. The answer is the struct that the field
/// is.
fn put_field<K: Sink>(
    sink: &mut K,
    out: &mut Printer,
    def: Option<&StructDef<Everywhere>>,
    number: usize,
) -> Option<StructId>
    ensures printed { Prints (K.state sink.old) out.old (K.state sink.new) out.new
        (dotted (where_any (name_of_field number) (option_copied def.entry))) }
    ensures next { result ≡ option_and_then (field_struct_id number) (option_copied def.entry) }
{
    match def {
        Some(def) => {
            put_field_name(sink, out, def, number);
            field_struct(def, number)
        }
        None => None,
    }
}

/// The struct of an id, where there is one.
fn struct_at(tcx: &TypeContext, id: Option<StructId>) -> Option<&StructDef<Everywhere>>
    ensures { option_copied result
        ≡ option_and_then (slice_get tcx.now.definitions.structs.defs) id }
{
    match id {
        Some(id) => tcx.structs().get(id.index()),
        None => None,
    }
}

/// The names of these fields, each after a point, from inside this struct.
fn put_fields<K: Sink>(
    sink: &mut K,
    out: &mut Printer,
    tcx: &TypeContext,
    start: Option<StructId>,
    fields: &[usize],
)
    ensures { Prints (K.state sink.old) out.old (K.state sink.new) out.new
        (dotted (names_from tcx.now.definitions fields.now start)) }
{
    let mut inside = start;
    for number in fields {
        inside = put_field(sink, out, struct_at(tcx, inside), *number);
    }
}

/// A leaf: the name of its input, and those of the fields that lead to it.
fn put_path<K: Sink>(
    sink: &mut K,
    out: &mut Printer,
    tcx: &TypeContext,
    method: &Method,
    path: &LeafPath,
)
    ensures { Prints (K.state sink.old) out.old (K.state sink.new) out.new
        (leaf_path_text tcx.now.definitions method.now path.now) }
{
    let start = input_struct(method, path.input);
    put_input(sink, out, method, path.input);
    put_fields(sink, out, tcx, start, path.fields.as_slice());
}

/// A leaf, after what stands before it in its list.
fn put_path_at<K: Sink>(
    sink: &mut K,
    out: &mut Printer,
    tcx: &TypeContext,
    method: &Method,
    place: usize,
    path: &LeafPath,
)
    ensures { Prints (K.state sink.old) out.old (K.state sink.new) out.new
        (separator_at (codes ", ") place
        ++ leaf_path_text tcx.now.definitions method.now path.now) }
{
    put_separator(sink, out, ", ", place);
    put_path(sink, out, tcx, method, path);
}

/// Leaves, with a comma between each two.
pub(crate) fn put_joined_paths<K: Sink>(
    sink: &mut K,
    out: &mut Printer,
    tcx: &TypeContext,
    method: &Method,
    paths: &[LeafPath],
)
    ensures { Prints (K.state sink.old) out.old (K.state sink.new) out.new
        (join_by (leaf_path_text tcx.now.definitions method.now) (codes ", ") paths.now) }
{
    for (place, path) in paths.iter().enumerate() {
        put_path_at(sink, out, tcx, method, place, path);
    }
}

//! The table of positions.

ghost use Rattle.std.specs.Prelude.{◌≡◌};
ghost use Rattle.bridge_rules.specs.Table.{by_way, cell_of, refs_flag, six};

use crate::position::Position;
use crate::shape::{Element, FlatSlice, Shape, Value};
use bridge_decl::{Mutability, PrimitiveType, StdlibOrDiplomat};
use hir_backends::SupportFlag;
use hir_ids::Borrow;
use hir_life::{Lifetime, MaybeStatic};
use hir_reports::Rule;

/// What is asked of a shape at a position.
#[derive(Clone, Copy)]
pub enum Cell {
    /// Nothing.
    Fine,
    /// A rule is broken.
    Broken(Rule),
    /// A rule is broken, unless the shape stands inside an option or a result.
    UnlessInside(Rule),
    /// A feature of the backend.
    Needs(SupportFlag),
    /// Nothing but what is asked of the shape inside.
    Inside,
    /// That a reference which may be written through is to an opaque that is marked as mutable.
    Marked(Mutability, Mutability),
    /// That an option of a pointer to an opaque isn't Diplomat's.
    OfOpaque(StdlibOrDiplomat),
    /// An option of a box of an opaque is refused here; by which rule depends on whose option it is.
    OfBox(StdlibOrDiplomat),
    /// That an option of a value is Diplomat's, and a feature.
    OfValue(StdlibOrDiplomat),
    /// Features for a slice that lives for `'static` or may be written through.
    Static(MaybeStatic<Lifetime>, Mutability),
    /// A feature for a slice that may be written through.
    Mut(Mutability),
    /// That an owned slice is one of bytes and isn't an error, and a feature.
    Bytes(PrimitiveType),
    /// What is asked of a slice of other types that comes in.
    SliceIn(Option<Borrow>, Element),
    /// What is asked of a slice of other types that goes out.
    SliceOut(Option<Borrow>, Element),
}

/// One cell for what comes in, another for what goes out.
fn by_way(at: Position, input: Cell, output: Cell) -> Cell
    ensures { result ≡ by_way input output at }
{
    match at {
        Position::Field | Position::Param | Position::CallbackReturn => input,
        Position::CallbackParam | Position::OutField | Position::Return => output,
    }
}

/// The feature that a struct by reference needs.
pub fn refs_flag(mutability: Mutability) -> SupportFlag
    ensures { result ≡ refs_flag mutability }
{
    match mutability {
        Mutability::Mutable => SupportFlag::MutStructRefs,
        Mutability::Immutable => SupportFlag::StructRefs,
    }
}

fn value_cell(value: Value, at: Position) -> Cell
    ensures { result ≡ cell_of (Shape.Value value) at }
{
    match value {
        Value::Primitive(_) | Value::Enum(_) | Value::Struct(_) => Cell::Fine,
        Value::Empty(_) | Value::EmptyOut(_) => by_way(
            at,
            Cell::Broken(Rule::ZeroSize),
            Cell::UnlessInside(Rule::ZeroSize),
        ),
        Value::OutStruct(_) => by_way(at, Cell::Broken(Rule::OutStructInput), Cell::Fine),
    }
}

fn flat_cell(slice: FlatSlice, at: Position) -> Cell
    ensures { result ≡ cell_of (Shape.Flat slice) at }
{
    match slice {
        FlatSlice::Str(lifetime, _) => by_way(
            at,
            Cell::Static(lifetime, Mutability::Immutable),
            Cell::Mut(Mutability::Immutable),
        ),
        FlatSlice::Primitives(borrow, _) => by_way(
            at,
            Cell::Static(borrow.lifetime, borrow.mutability),
            Cell::Mut(borrow.mutability),
        ),
        FlatSlice::OwnedStr(_) => match at {
            Position::Field | Position::Param => Cell::Needs(SupportFlag::OwnedSlices),
            _ => Cell::Broken(Rule::OwnedSliceMisplaced),
        },
        FlatSlice::OwnedPrimitives(primitive) => match at {
            Position::Field | Position::Param => Cell::Needs(SupportFlag::OwnedSlices),
            Position::Return => Cell::Bytes(primitive),
            _ => Cell::Broken(Rule::OwnedSliceMisplaced),
        },
    }
}

/// A reference to a struct, of which something is asked where it may come in.
fn struct_reference_cell(at: Position, asked: Cell) -> Cell
    ensures { result ≡ six asked asked (Cell.Broken Rule.CallbackReturnShape)
        (Cell.Broken Rule.ReferenceTarget) (Cell.Broken Rule.ReferenceTarget)
        (Cell.Broken Rule.ReferenceTarget) at }
{
    match at {
        Position::Field | Position::Param => asked,
        Position::CallbackReturn => Cell::Broken(Rule::CallbackReturnShape),
        _ => Cell::Broken(Rule::ReferenceTarget),
    }
}

/// What is asked of a shape at a position.
pub fn cell_of(shape: &Shape, at: Position) -> Cell
    ensures { result ≡ cell_of shape.now at }
{
    match *shape {
        Shape::Value(value) => value_cell(value, at),
        Shape::Ordering => match at {
            Position::CallbackParam | Position::Return => Cell::Fine,
            _ => Cell::Broken(Rule::OrderingMisplaced),
        },
        Shape::Opaque => Cell::Broken(Rule::OpaqueByValue),
        Shape::ImplTrait(_) => match at {
            Position::Param | Position::CallbackReturn => Cell::Needs(SupportFlag::Traits),
            _ => Cell::Broken(Rule::TraitMisplaced),
        },
        Shape::OpaqueReference(borrow, _, mark) => {
            by_way(at, Cell::Marked(borrow.mutability, mark), Cell::Fine)
        }
        Shape::StructReference(borrow, _) => {
            struct_reference_cell(at, Cell::Needs(refs_flag(borrow.mutability)))
        }
        Shape::OutStructReference(_, _) => {
            struct_reference_cell(at, Cell::Broken(Rule::OutStructInput))
        }
        Shape::OtherReference => Cell::Broken(Rule::ReferenceTarget),
        Shape::OpaqueBox(_) => by_way(at, Cell::Broken(Rule::BoxMisplaced), Cell::Fine),
        Shape::OtherBox => Cell::Broken(Rule::BoxMisplaced),
        Shape::OptionOfReference(_, _, spelling) => Cell::OfOpaque(spelling),
        Shape::OptionOfBox(_, spelling) => match at {
            Position::Field | Position::Param => Cell::Broken(Rule::OptionShape),
            Position::CallbackReturn => Cell::OfBox(spelling),
            _ => Cell::OfOpaque(spelling),
        },
        Shape::OptionOfPointer => Cell::Broken(Rule::OptionShape),
        Shape::OptionOfValue(_, spelling) => match at {
            Position::Field | Position::OutField => Cell::OfValue(spelling),
            _ => Cell::Needs(SupportFlag::Option),
        },
        Shape::OptionOfStrings(_) => by_way(at, Cell::Fine, Cell::Broken(Rule::OptionShape)),
        Shape::OptionOfFlat(_) => by_way(at, Cell::Inside, Cell::Broken(Rule::OptionShape)),
        Shape::OtherOption => Cell::Broken(Rule::OptionShape),
        Shape::Result => Cell::Broken(Rule::ResultMisplaced),
        Shape::Writer => Cell::Broken(Rule::WriteMisplaced),
        Shape::Flat(slice) => flat_cell(slice, at),
        Shape::Strings(_) => by_way(at, Cell::Fine, Cell::Broken(Rule::StrsOutput)),
        Shape::Slice(borrow, element) => match at {
            Position::Field | Position::Param | Position::CallbackReturn => {
                Cell::SliceIn(borrow, element)
            }
            _ => Cell::SliceOut(borrow, element),
        },
        Shape::Function => match at {
            Position::Param => Cell::Needs(SupportFlag::Callbacks),
            _ => Cell::Broken(Rule::FunctionMisplaced),
        },
        Shape::Unit => Cell::Broken(Rule::UnitMisplaced),
    }
}

//! The rows of the table of positions.

use bridge_decl::{Mutability, PrimitiveType, StdlibOrDiplomat, StringEncoding};
use hir_ids::Borrow;
use hir_life::{Lifetime, MaybeStatic};

/// A type that is a value by itself. The numbers are those of the catalog.
#[derive(Clone, Copy)]
pub enum Value {
    /// A primitive type.
    Primitive(PrimitiveType),
    /// A named enum.
    Enum(usize),
    /// A named struct with fields.
    Struct(usize),
    /// A named struct without fields.
    Empty(usize),
    /// A named out-struct without fields.
    EmptyOut(usize),
    /// A named out-struct with fields.
    OutStruct(usize),
}

/// A string slice or a slice of a primitive type.
#[derive(Clone, Copy)]
pub enum FlatSlice {
    /// A borrowed string slice.
    Str(MaybeStatic<Lifetime>, StringEncoding),
    /// A borrowed slice of a primitive type.
    Primitives(Borrow, PrimitiveType),
    /// An owned string slice.
    OwnedStr(StringEncoding),
    /// An owned slice of a primitive type.
    OwnedPrimitives(PrimitiveType),
}

/// What a slice of any other type is of.
#[derive(Clone, Copy)]
pub enum Element {
    /// A named struct or enum.
    Value(Value),
    /// A named opaque.
    Opaque,
    /// A reference to an opaque, which may be marked as mutable.
    OpaqueReference(Borrow, usize, Mutability),
    /// An option of a reference to an opaque.
    OpaqueOption(Borrow, usize, StdlibOrDiplomat),
    /// Anything else.
    Other,
}

/// A row of the table.
#[derive(Clone, Copy)]
pub enum Shape {
    /// A primitive type, a named struct or a named enum.
    Value(Value),
    /// `std::cmp::Ordering`.
    Ordering,
    /// A named opaque, also in an option.
    Opaque,
    /// `impl Trait`.
    ImplTrait(usize),
    /// A reference to an opaque, which may be marked as mutable.
    OpaqueReference(Borrow, usize, Mutability),
    /// A reference to a struct that goes either way.
    StructReference(Borrow, usize),
    /// A reference to an out-struct.
    OutStructReference(Borrow, usize),
    /// Any other reference.
    OtherReference,
    /// A box of an opaque.
    OpaqueBox(usize),
    /// Any other box.
    OtherBox,
    /// An option of a reference to an opaque.
    OptionOfReference(Borrow, usize, StdlibOrDiplomat),
    /// An option of a box of an opaque.
    OptionOfBox(usize, StdlibOrDiplomat),
    /// An option of any other reference or box.
    OptionOfPointer,
    /// An option of a named struct or enum, or of a primitive type.
    OptionOfValue(Value, StdlibOrDiplomat),
    /// An option of a list of strings.
    OptionOfStrings(StringEncoding),
    /// An option of a string slice or of a slice of a primitive type.
    OptionOfFlat(FlatSlice),
    /// Any other option.
    OtherOption,
    /// A result.
    Result,
    /// A writer.
    Writer,
    /// A string slice or a slice of a primitive type.
    Flat(FlatSlice),
    /// A list of strings.
    Strings(StringEncoding),
    /// A slice of any other type; owned where it has no borrow.
    Slice(Option<Borrow>, Element),
    /// A function.
    Function,
    /// `()`.
    Unit,
}

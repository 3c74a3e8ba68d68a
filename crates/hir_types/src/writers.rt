//! What is written in place of being returned.

use hir_ids::PrimitiveType;

/// What a method writes to the writer that it is lent.
#[derive(Clone, Copy)]
pub enum WriteType {
    /// A text in UTF-8.
    Str,
    /// A text in UTF-16.
    Str16,
    /// A list of primitives.
    Primitive(PrimitiveType),
}

//! Where types stand.

/// Where a type stands. The first three are what comes in from the other language, the last three what goes out to it.
#[derive(Clone, Copy, PartialEq, Eq, Debug)]
pub enum Position {
    /// A field of a struct.
    Field,
    /// A parameter of a method or a function.
    Param,
    /// What a callback or a trait's method returns.
    CallbackReturn,
    /// A parameter of a callback or of a trait's method.
    CallbackParam,
    /// A field of an out-struct.
    OutField,
    /// What a method or a function returns.
    Return,
}

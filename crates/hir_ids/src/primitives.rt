//! Primitive types.

ghost use Rattle.std.specs.Prelude.{◌≡◌};
ghost use Rattle.hir_ids.specs.Primitives.{float_name, int_name, lowered_name, size_name, wide_name};

/// An integer of up to 64 bits.
#[derive(Clone, Copy, PartialEq, Eq, Debug)]
pub enum IntType {
    I8,
    I16,
    I32,
    I64,
    U8,
    U16,
    U32,
    U64,
}

impl IntType {
    /// Rust's name of the type, as `u8`.
    pub fn as_str(&self) -> &'static str
        ensures { result.now ≡ int_name self.now }
    {
        match self {
            IntType::I8 => "i8",
            IntType::I16 => "i16",
            IntType::I32 => "i32",
            IntType::I64 => "i64",
            IntType::U8 => "u8",
            IntType::U16 => "u16",
            IntType::U32 => "u32",
            IntType::U64 => "u64",
        }
    }
}

/// An integer of the machine's size.
#[derive(Clone, Copy, PartialEq, Eq, Debug)]
pub enum IntSizeType {
    Isize,
    Usize,
}

impl IntSizeType {
    /// Rust's name of the type, as `usize`.
    pub fn as_str(&self) -> &'static str
        ensures { result.now ≡ size_name self.now }
    {
        match self {
            IntSizeType::Isize => "isize",
            IntSizeType::Usize => "usize",
        }
    }
}

/// An integer of 128 bits.
#[derive(Clone, Copy, PartialEq, Eq, Debug)]
pub enum Int128Type {
    I128,
    U128,
}

impl Int128Type {
    /// Rust's name of the type, as `u128`.
    pub fn as_str(&self) -> &'static str
        ensures { result.now ≡ wide_name self.now }
    {
        match self {
            Int128Type::I128 => "i128",
            Int128Type::U128 => "u128",
        }
    }
}

/// A float.
#[derive(Clone, Copy, PartialEq, Eq, Debug)]
pub enum FloatType {
    F32,
    F64,
}

impl FloatType {
    /// Rust's name of the type, as `f64`.
    pub fn as_str(&self) -> &'static str
        ensures { result.now ≡ float_name self.now }
    {
        match self {
            FloatType::F32 => "f32",
            FloatType::F64 => "f64",
        }
    }
}

/// A primitive type, grouped as backends treat them.
#[derive(Clone, Copy, PartialEq, Eq, Debug)]
pub enum PrimitiveType {
    /// `bool`.
    Bool,
    /// `char`.
    Char,
    /// A `u8` that stands for raw data and for no number.
    Byte,
    /// `std::cmp::Ordering`, as an `i8` that is -1, 0 or 1.
    Ordering,
    /// An integer of up to 64 bits.
    Int(IntType),
    /// An integer of the machine's size.
    IntSize(IntSizeType),
    /// An integer of 128 bits.
    Int128(Int128Type),
    /// A float.
    Float(FloatType),
}

impl PrimitiveType {
    /// The type's name: Rust's, or `byte` or `ordering`.
    pub fn as_str(&self) -> &'static str
        ensures { result.now ≡ lowered_name self.now }
    {
        match self {
            PrimitiveType::Bool => "bool",
            PrimitiveType::Char => "char",
            PrimitiveType::Byte => "byte",
            PrimitiveType::Ordering => "ordering",
            PrimitiveType::Int(ty) => ty.as_str(),
            PrimitiveType::IntSize(ty) => ty.as_str(),
            PrimitiveType::Int128(ty) => ty.as_str(),
            PrimitiveType::Float(ty) => ty.as_str(),
        }
    }
}

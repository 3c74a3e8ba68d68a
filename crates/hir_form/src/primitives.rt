//! Primitive types.

ghost use Rattle.std.specs.Prelude.{◌≡◌};
ghost use Rattle.hir_form.specs.Forms.{primitive_form};

use bridge_decl::PrimitiveType as Declared;
use hir_ids::{FloatType, Int128Type, IntSizeType, IntType, PrimitiveType};

/// What a primitive type is lowered to.
pub fn primitive_form(primitive: Declared) -> PrimitiveType
    ensures { result ≡ primitive_form primitive }
{
    match primitive {
        Declared::i8 => PrimitiveType::Int(IntType::I8),
        Declared::u8 => PrimitiveType::Int(IntType::U8),
        Declared::i16 => PrimitiveType::Int(IntType::I16),
        Declared::u16 => PrimitiveType::Int(IntType::U16),
        Declared::i32 => PrimitiveType::Int(IntType::I32),
        Declared::u32 => PrimitiveType::Int(IntType::U32),
        Declared::i64 => PrimitiveType::Int(IntType::I64),
        Declared::u64 => PrimitiveType::Int(IntType::U64),
        Declared::isize => PrimitiveType::IntSize(IntSizeType::Isize),
        Declared::usize => PrimitiveType::IntSize(IntSizeType::Usize),
        Declared::i128 => PrimitiveType::Int128(Int128Type::I128),
        Declared::u128 => PrimitiveType::Int128(Int128Type::U128),
        Declared::f32 => PrimitiveType::Float(FloatType::F32),
        Declared::f64 => PrimitiveType::Float(FloatType::F64),
        Declared::bool => PrimitiveType::Bool,
        Declared::char => PrimitiveType::Char,
        Declared::byte => PrimitiveType::Byte,
    }
}

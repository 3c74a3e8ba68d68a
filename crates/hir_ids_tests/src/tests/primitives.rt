//! The names of primitive types.

use hir_ids::{FloatType, Int128Type, IntSizeType, IntType, PrimitiveType};

// Each primitive type with its name, as upstream prints it.
const NAMES: [(PrimitiveType, &str); 18] = [
    (PrimitiveType::Bool, "bool"),
    (PrimitiveType::Char, "char"),
    (PrimitiveType::Byte, "byte"),
    (PrimitiveType::Ordering, "ordering"),
    (PrimitiveType::Int(IntType::I8), "i8"),
    (PrimitiveType::Int(IntType::I16), "i16"),
    (PrimitiveType::Int(IntType::I32), "i32"),
    (PrimitiveType::Int(IntType::I64), "i64"),
    (PrimitiveType::Int(IntType::U8), "u8"),
    (PrimitiveType::Int(IntType::U16), "u16"),
    (PrimitiveType::Int(IntType::U32), "u32"),
    (PrimitiveType::Int(IntType::U64), "u64"),
    (PrimitiveType::IntSize(IntSizeType::Isize), "isize"),
    (PrimitiveType::IntSize(IntSizeType::Usize), "usize"),
    (PrimitiveType::Int128(Int128Type::I128), "i128"),
    (PrimitiveType::Int128(Int128Type::U128), "u128"),
    (PrimitiveType::Float(FloatType::F32), "f32"),
    (PrimitiveType::Float(FloatType::F64), "f64"),
];

#[test]
fn names_are_upstreams(rt: HostRuntime) {
    for (primitive, name) in NAMES {
        assert!(rt; primitive.as_str() == name);
    }
}

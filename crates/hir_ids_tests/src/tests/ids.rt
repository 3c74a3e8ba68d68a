//! Ids, their conversions and their order.

use hir_ids::{EnumId, FunctionId, OpaqueId, OutStructId, StructId, SymbolId, TraitId, TypeId};

/// The ids of the four kinds of types at a place, in the order of the kinds.
fn types_at(place: usize) -> [TypeId; 4] {
    [
        TypeId::from(StructId::new(place)),
        TypeId::from(OutStructId::new(place)),
        TypeId::from(OpaqueId::new(place)),
        TypeId::from(EnumId::new(place)),
    ]
}

/// The same as ids of anything, made at once.
fn symbols_at(place: usize) -> [SymbolId; 4] {
    [
        SymbolId::from(StructId::new(place)),
        SymbolId::from(OutStructId::new(place)),
        SymbolId::from(OpaqueId::new(place)),
        SymbolId::from(EnumId::new(place)),
    ]
}

/// The number of the kind, counted by hand, and the place.
fn kind_and_place(id: TypeId) -> (usize, usize) {
    match id {
        TypeId::Struct(id) => (0, id.index()),
        TypeId::OutStruct(id) => (1, id.index()),
        TypeId::Opaque(id) => (2, id.index()),
        TypeId::Enum(id) => (3, id.index()),
    }
}

#[test]
fn types_convert_to_and_fro(rt: HostRuntime) {
    for place in [0, 7] {
        let symbols = symbols_at(place);
        for (kind, id) in types_at(place).iter().enumerate() {
            assert!(rt; kind_and_place(*id) == (kind, place));
            let symbol = SymbolId::from(*id);
            assert!(rt; symbols.get(kind) == Some(&symbol));
            assert!(rt; TypeId::try_from(symbol) == Ok(*id));
            assert!(rt; TraitId::try_from(symbol) == Err(()));
        }
    }
}

/// The id of a trait, as one of anything.
fn trait_at(place: usize) -> SymbolId {
    SymbolId::from(TraitId::new(place))
}

/// The id of a function, as one of anything.
fn function_at(place: usize) -> SymbolId {
    SymbolId::from(FunctionId::new(place))
}

#[test]
fn traits_and_functions_are_no_types(rt: HostRuntime) {
    for place in [0, 2] {
        assert!(rt; TraitId::try_from(trait_at(place)) == Ok(TraitId::new(place)));
        assert!(rt; TypeId::try_from(trait_at(place)) == Err(()));
        assert!(rt; TypeId::try_from(function_at(place)) == Err(()));
        assert!(rt; TraitId::try_from(function_at(place)) == Err(()));
    }
}

#[test]
fn kinds_come_before_places(rt: HostRuntime) {
    let ascending = [
        SymbolId::from(StructId::new(0)),
        SymbolId::from(StructId::new(9)),
        SymbolId::from(OutStructId::new(1)),
        SymbolId::from(OpaqueId::new(0)),
        SymbolId::from(EnumId::new(4)),
        SymbolId::from(EnumId::new(5)),
        SymbolId::from(TraitId::new(0)),
        SymbolId::from(TraitId::new(3)),
        SymbolId::from(FunctionId::new(1)),
    ];
    for (at, low) in ascending.iter().enumerate() {
        for (place, high) in ascending.iter().enumerate() {
            assert!(rt; (low < high) == (at < place));
            assert!(rt; (low == high) == (at == place));
        }
    }
}

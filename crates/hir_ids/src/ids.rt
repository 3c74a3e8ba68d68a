//! Ids of definitions, and of what may be any of several kinds.

ghost use Rattle.std.specs.Prelude.{◌≡◌};

use std::marker::Model;

/// The id of a struct that may stand in inputs and outputs: its place among the structs of a
/// context, by which ids are ordered. Contracts see the place.
#[derive(Clone, Copy, PartialEq, Eq, PartialOrd, Ord, Hash, Debug)]
pub struct StructId(usize);

impl Model for StructId {
    ghost use Rattle.std.specs.Prelude.{ℕ};

    ghost Value = { ℕ };

    ghost view = { λ it. it.0 };

    ghost inverse = { λ place. record { 0 = place } };
}

impl StructId {
    /// The id of the struct at this place.
    pub fn new(index: usize) -> StructId
        ensures { result ≡ index }
    {
        StructId(index)
    }

    /// The place.
    pub fn index(self) -> usize
        ensures { result ≡ self }
    {
        self.0
    }
}

/// The id of a struct that is only returned: its place among the out-structs of a context, by
/// which ids are ordered. Contracts see the place.
#[derive(Clone, Copy, PartialEq, Eq, PartialOrd, Ord, Hash, Debug)]
pub struct OutStructId(usize);

impl Model for OutStructId {
    ghost use Rattle.std.specs.Prelude.{ℕ};

    ghost Value = { ℕ };

    ghost view = { λ it. it.0 };

    ghost inverse = { λ place. record { 0 = place } };
}

impl OutStructId {
    /// The id of the out-struct at this place.
    pub fn new(index: usize) -> OutStructId
        ensures { result ≡ index }
    {
        OutStructId(index)
    }

    /// The place.
    pub fn index(self) -> usize
        ensures { result ≡ self }
    {
        self.0
    }
}

/// The id of an opaque: its place among the opaques of a context, by which ids are ordered.
/// Contracts see the place.
#[derive(Clone, Copy, PartialEq, Eq, PartialOrd, Ord, Hash, Debug)]
pub struct OpaqueId(usize);

impl Model for OpaqueId {
    ghost use Rattle.std.specs.Prelude.{ℕ};

    ghost Value = { ℕ };

    ghost view = { λ it. it.0 };

    ghost inverse = { λ place. record { 0 = place } };
}

impl OpaqueId {
    /// The id of the opaque at this place.
    pub fn new(index: usize) -> OpaqueId
        ensures { result ≡ index }
    {
        OpaqueId(index)
    }

    /// The place.
    pub fn index(self) -> usize
        ensures { result ≡ self }
    {
        self.0
    }
}

/// The id of an enum: its place among the enums of a context, by which ids are ordered. Contracts
/// see the place.
#[derive(Clone, Copy, PartialEq, Eq, PartialOrd, Ord, Hash, Debug)]
pub struct EnumId(usize);

impl Model for EnumId {
    ghost use Rattle.std.specs.Prelude.{ℕ};

    ghost Value = { ℕ };

    ghost view = { λ it. it.0 };

    ghost inverse = { λ place. record { 0 = place } };
}

impl EnumId {
    /// The id of the enum at this place.
    pub fn new(index: usize) -> EnumId
        ensures { result ≡ index }
    {
        EnumId(index)
    }

    /// The place.
    pub fn index(self) -> usize
        ensures { result ≡ self }
    {
        self.0
    }
}

/// The id of a trait: its place among the traits of a context, by which ids are ordered. Contracts
/// see the place.
#[derive(Clone, Copy, PartialEq, Eq, PartialOrd, Ord, Hash, Debug)]
pub struct TraitId(usize);

impl Model for TraitId {
    ghost use Rattle.std.specs.Prelude.{ℕ};

    ghost Value = { ℕ };

    ghost view = { λ it. it.0 };

    ghost inverse = { λ place. record { 0 = place } };
}

impl TraitId {
    /// The id of the trait at this place.
    pub fn new(index: usize) -> TraitId
        ensures { result ≡ index }
    {
        TraitId(index)
    }

    /// The place.
    pub fn index(self) -> usize
        ensures { result ≡ self }
    {
        self.0
    }
}

/// The id of a function that stands in no type: its place among the functions of a context, by
/// which ids are ordered. Contracts see the place.
#[derive(Clone, Copy, PartialEq, Eq, PartialOrd, Ord, Hash, Debug)]
pub struct FunctionId(usize);

impl Model for FunctionId {
    ghost use Rattle.std.specs.Prelude.{ℕ};

    ghost Value = { ℕ };

    ghost view = { λ it. it.0 };

    ghost inverse = { λ place. record { 0 = place } };
}

impl FunctionId {
    /// The id of the function at this place.
    pub fn new(index: usize) -> FunctionId
        ensures { result ≡ index }
    {
        FunctionId(index)
    }

    /// The place.
    pub fn index(self) -> usize
        ensures { result ≡ self }
    {
        self.0
    }
}

/// The id of a type that is declared: ordered by kind, and then by place.
#[derive(Clone, Copy, PartialEq, Eq, PartialOrd, Ord, Hash, Debug)]
pub enum TypeId {
    /// Of a struct that may stand in inputs and outputs.
    Struct(StructId),
    /// Of a struct that is only returned.
    OutStruct(OutStructId),
    /// Of an opaque.
    Opaque(OpaqueId),
    /// Of an enum.
    Enum(EnumId),
}

/// The id of anything that is declared: ordered by kind, and then by the id of that kind.
#[derive(Clone, Copy, PartialEq, Eq, PartialOrd, Ord, Hash, Debug)]
pub enum SymbolId {
    /// Of a type.
    TypeId(TypeId),
    /// Of a trait.
    TraitId(TraitId),
    /// Of a function that stands in no type.
    FunctionId(FunctionId),
}

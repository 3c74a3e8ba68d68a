//! Where the items of each kind stand.

ghost use Rattle.std.specs.Prelude.{◌≡◌, ◌++◌, [], ◌∷◌, length, IfOk, OnOk};
ghost use Rattle.bridge_places.specs.Places.{of_kind};
ghost use Rattle.bridge_places.specs.inside.Numbering.{no_places, with_place};

use crate::kinds::Kind;
use bridge_ast::{ItemPlace, NoMemory};
use bridge_decl::Items;
use std::alloc::Global;

/// The places of the items of each kind, in the order in which modules are gone through.
#[derive(Drop)]
pub struct KindPlaces {
    out_structs: Items<ItemPlace>,
    structs: Items<ItemPlace>,
    opaques: Items<ItemPlace>,
    enums: Items<ItemPlace>,
    traits: Items<ItemPlace>,
    functions: Items<ItemPlace>,
}

/// Adds a place, and gives the number that it got.
fn push_place(list: &mut Items<ItemPlace>, place: ItemPlace) -> Result<usize, NoMemory>
    ensures number { IfOk result (λ id. id ≡ length list.old) }
    ensures list { OnOk result (list.new ≡ list.old ++ place ∷ []) }
{
    let id = list.len();
    list.push(place)?;
    Ok(id)
}

impl KindPlaces {
    /// No places.
    pub(crate) fn new(alloc: Global) -> KindPlaces
        ensures { result ≡ no_places }
    {
        KindPlaces {
            out_structs: Items::new(alloc),
            structs: Items::new(alloc),
            opaques: Items::new(alloc),
            enums: Items::new(alloc),
            traits: Items::new(alloc),
            functions: Items::new(alloc),
        }
    }

    /// Adds the place of an item of a kind, and gives its number among them.
    pub(crate) fn push(&mut self, kind: Kind, place: ItemPlace) -> Result<usize, NoMemory>
        ensures number { IfOk result (λ id. id ≡ length (of_kind kind self.old)) }
        ensures places { OnOk result (self.new ≡ with_place kind place self.old) }
    {
        match kind {
            Kind::OutStruct => push_place(&mut self.out_structs, place),
            Kind::Struct => push_place(&mut self.structs, place),
            Kind::Opaque => push_place(&mut self.opaques, place),
            Kind::Enum => push_place(&mut self.enums, place),
            Kind::Trait => push_place(&mut self.traits, place),
            Kind::Function => push_place(&mut self.functions, place),
        }
    }

    /// The places of the items of a kind: the one with the id 0 stands first.
    pub fn of_kind(&self, kind: Kind) -> &[ItemPlace]
        ensures { result.now ≡ of_kind kind self.now }
    {
        match kind {
            Kind::OutStruct => self.out_structs.as_slice(),
            Kind::Struct => self.structs.as_slice(),
            Kind::Opaque => self.opaques.as_slice(),
            Kind::Enum => self.enums.as_slice(),
            Kind::Trait => self.traits.as_slice(),
            Kind::Function => self.functions.as_slice(),
        }
    }
}

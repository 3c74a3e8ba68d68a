//! The kinds of items.

ghost use Rattle.std.specs.Prelude.{◌≡◌};
ghost use Rattle.bridge_places.specs.Kinds.{item_kind};

use bridge_ast::Item;

/// What an item is. A struct that only comes out of the interface is a kind of its own.
#[derive(Clone, Copy)]
pub enum Kind {
    /// A struct that only comes out.
    OutStruct,
    /// Any other struct.
    Struct,
    /// An opaque.
    Opaque,
    /// An enum.
    Enum,
    /// A trait.
    Trait,
    /// A function.
    Function,
}

impl Kind {
    /// The kind of an item.
    pub fn of(item: &Item) -> Kind
        ensures { result ≡ item_kind item.now }
    {
        match item {
            Item::Struct(item) => {
                if item.output_only {
                    Kind::OutStruct
                } else {
                    Kind::Struct
                }
            }
            Item::Opaque(_) => Kind::Opaque,
            Item::Enum(_) => Kind::Enum,
            Item::Trait(_) => Kind::Trait,
            Item::Function(_) => Kind::Function,
        }
    }
}

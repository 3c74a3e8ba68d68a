//! What declarations of every kind are made with.

ghost use Rattle.std.specs.Prelude.{◌≡◌, [], ◌∷◌, IfOk};
ghost use Rattle.bridge_generate.specs.Generated.{plain_attrs, plain_docs};

use bridge_ast::{Attrs, Docs, Items, NoMemory, RenameAttr};
use std::alloc::Global;

/// No documentation.
pub fn plain_docs(alloc: Global) -> Docs
    ensures { result ≡ plain_docs }
{
    Docs {
        blocks: Items::new(alloc),
        links: Items::new(alloc),
    }
}

/// No attributes.
pub fn plain_attrs(alloc: Global) -> Attrs
    ensures { result ≡ plain_attrs }
{
    Attrs {
        features: Items::new(alloc),
        marks: Items::new(alloc),
        abi_rename: RenameAttr::empty(),
        deprecated: None,
    }
}

/// The list of that alone.
pub fn one<T: Drop>(alloc: Global, item: T) -> Result<Items<T>, NoMemory>
    ensures { IfOk result (λ items. items ≡ item ∷ []) }
{
    let mut items = Items::new(alloc);
    items.push(item)?;
    Ok(items)
}

//! The numbers of declared lifetimes by their names.

ghost use Rattle.std.specs.Prelude.{IfOk};
ghost use Rattle.bridge_decl.specs.Lifetimes.{lifetime_names};
ghost use Rattle.bridge_text.specs.NameIndex.{Indexes};

use crate::lifetimes::LifetimeEnv;
use bridge_text::{NameIndex, NoMemory, take_name};
use std::alloc::Global;
use std::collections::BTreeMap;

/// The number of each lifetime's name, the first where a name stands twice.
pub fn index_lifetimes(alloc: Global, env: &LifetimeEnv) -> Result<NameIndex<usize>, NoMemory>
    ensures { IfOk result (λ index. Indexes index (lifetime_names env.now)) }
{
    let mut index = BTreeMap::new(alloc);
    for (number, node) in env.nodes.as_slice().iter().enumerate() {
        take_name(alloc, &mut index, &node.name, number)?;
    }
    Ok(index)
}

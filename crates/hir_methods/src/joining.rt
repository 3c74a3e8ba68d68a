//! Parts that lack something, and lists of them that are joined with a list of what they lack.

ghost use Rattle.std.specs.Prelude.{◌≡◌, IfOk, reverse};
ghost use Rattle.hir_methods.specs.Joining.{completed};

use bridge_decl::{Items, NoMemory};
use std::alloc::Global;

/// A part that lacks something.
pub trait Lacking: Drop {
    /// What it lacks.
    type Lack: Drop;
    /// What it is with that.
    type Whole: Drop;

    ghost whole: { Self → Self.Lack → Self.Whole };

    /// It with what it lacks.
    fn with(self, lack: Self::Lack) -> Self::Whole
        ensures { result ≡ whole self lack };
}

/// The last item first.
fn backwards<T: Drop>(alloc: Global, items: Items<T>) -> Result<Items<T>, NoMemory>
    ensures { IfOk result (λ it. it ≡ reverse items) }
{
    let mut left = items;
    let mut turned = Items::new(alloc);
    while let Some(last) = left.pop() {
        turned.push(last)?;
    }
    Ok(turned)
}

/// Each part with what it lacks, as far as there are both.
pub(crate) fn join<P: Lacking>(
    alloc: Global,
    parts: Items<P>,
    lacks: Items<P::Lack>,
) -> Result<Items<P::Whole>, NoMemory>
    ensures { IfOk result (λ joined. joined ≡ completed P.whole parts lacks) }
{
    let mut parts = backwards(alloc, parts)?;
    let mut lacks = backwards(alloc, lacks)?;
    let mut joined = Items::new(alloc);
    while let Some(part) = parts.pop() {
        match lacks.pop() {
            Some(lack) => joined.push(part.with(lack))?,
            None => {
                return Ok(joined);
            }
        }
    }
    Ok(joined)
}

/// Each part with what it lacks, as far as there are both, beside something else: that is let go where
/// there is no memory.
pub fn join_beside<P: Lacking, R: Drop>(
    alloc: Global,
    rest: R,
    parts: Items<P>,
    lacks: Items<P::Lack>,
) -> Result<(R, Items<P::Whole>), NoMemory>
    ensures { IfOk result (λ it. it ≡ (rest, completed P.whole parts lacks)) }
{
    let joined = join(alloc, parts, lacks)?;
    Ok((rest, joined))
}

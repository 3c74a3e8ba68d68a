//! Two lists that are joined to one.

ghost use Rattle.std.specs.Prelude.{◌≡◌, IfOk, length};
ghost use Rattle.hir_fields.specs.inside.Pairs.{HaveOneLength, zipped, zipped_where_given};

use bridge_decl::{Items, NoMemory};
use std::alloc::Global;

/// What is joined, and how.
pub trait Joins {
    /// What comes first.
    type First: Drop;
    /// What is joined to it.
    type Second: Drop;
    /// Both.
    type Both: Drop;

    /// Both of two.
    ghost both: { Self.First → Self.Second → Self.Both };

    /// Both of two.
    fn join(first: Self::First, second: Self::Second) -> Self::Both
        ensures { result ≡ both first second };
}

/// The first of one with the first of the other, and so on.
pub fn join_all<J: Joins>(
    alloc: Global,
    firsts: Items<J::First>,
    seconds: Items<J::Second>,
) -> Result<Items<J::Both>, NoMemory>
    requires { length firsts ≡ length seconds }
    ensures { IfOk result (λ all. all ≡ zipped J.both firsts seconds) }
{
    let mut firsts = firsts;
    let mut seconds = seconds;
    let mut all = Vec::new(alloc);
    while let Some(first) = firsts.pop() {
        match seconds.pop() {
            Some(second) => all.push(J::join(first, second))?,
            None => {}
        }
    }
    all.reverse();
    Ok(Items::from_vec(all))
}

/// So, where both lists are given.
pub fn join_given<J: Joins>(
    alloc: Global,
    firsts: Option<Items<J::First>>,
    seconds: Option<Items<J::Second>>,
) -> Result<Option<Items<J::Both>>, NoMemory>
    requires { HaveOneLength firsts seconds }
    ensures { IfOk result (λ all. all ≡ zipped_where_given J.both firsts seconds) }
{
    match (firsts, seconds) {
        (Some(firsts), Some(seconds)) => {
            let all = join_all::<J>(alloc, firsts, seconds)?;
            Ok(Some(all))
        }
        _ => Ok(None),
    }
}

//! What `longer_of` answers, with the number of its steps.

ghost use Rattle.std.specs.Prelude.{◌≡◌, ◌+◌, ◌<◌, IfOk};

use bridge_decl::NoMemory;
use hir_life::{Lifetime, LifetimeEnv, Steps};
use std::alloc::Global;
use std::sync::ledger::{Blank, Ledger};

/// The lifetimes that outlive `lt`, and how many steps this took.
pub fn counted<L: Ledger>(
    alloc: Global,
    env: &LifetimeEnv,
    lt: Lifetime,
    blank: Blank,
) -> Result<(Vec<Lifetime>, usize), NoMemory>
    requires within { lt < env.now.count }
    requires name { blank.name ≡ L.name }
    requires parts { blank.parts ≡ L.parts }
    requires some { blank.parts ≡ 1 }
{
    let mut steps = Steps::<L>::new(blank);
    let answer = in_steps(alloc, env, lt, &mut steps)?;
    Ok(answer)
}

/// The same, where the number is proved to be that of the steps.
fn in_steps<L: Ledger>(
    alloc: Global,
    env: &LifetimeEnv,
    lt: Lifetime,
    steps: &mut Steps<L>,
) -> Result<(Vec<Lifetime>, usize), NoMemory>
    requires { lt < env.now.count }
    ensures { IfOk result (λ r. steps.new ≡ steps.old + r.1) }
{
    let longer = env.longer_of(alloc, lt, steps)?;
    let number = longer.len();
    Ok((longer, number))
}

//! Names that have a number.

ghost use Rattle.std.specs.Prelude.{◌≡◌, IfOk};
ghost use Rattle.bridge_generate.specs.Generated.{function_name, struct_name};

use bridge_ast::{NoMemory, Text};
use std::alloc::Global;

/// The name of the struct of a number.
pub fn struct_name(alloc: Global, number: usize) -> Result<Text, NoMemory>
    ensures { IfOk result (λ name. name ≡ struct_name number) }
{
    Ok(Text::from(format!(in alloc; "S{number}")?))
}

/// The name of the function of a number.
pub fn function_name(alloc: Global, number: usize) -> Result<Text, NoMemory>
    ensures { IfOk result (λ name. name ≡ function_name number) }
{
    Ok(Text::from(format!(in alloc; "f{number}")?))
}

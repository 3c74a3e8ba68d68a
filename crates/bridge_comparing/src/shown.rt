//! Values that show a name.

ghost use Rattle.std.specs.Prelude.{◌≡◌, IfOk, IfSome};
ghost use Rattle.std.specs.Str.{bytes_eq};

use crate::comparing::Comparing;
use std::alloc::AllocError;
use std::fmt::{Display, Write};

/// Whether a value is shown as this word. As where texts are made of values, `AllocError` stands for a value that can't be shown.
pub fn is_shown_as<D: Display + Drop>(value: D, word: &str) -> Result<bool, AllocError>
    ensures { IfOk result (λ same. IfSome (D.output value)
        (λ text. same ≡ bytes_eq text word.now)) }
{
    let mut comparing = Comparing::with(word);
    match comparing.write(value) {
        Ok(()) => Ok(comparing.is_whole()),
        Err(_) => Err(AllocError),
    }
}

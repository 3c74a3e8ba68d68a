//! What the words of a command line ask for.

ghost use Rattle.std.specs.Prelude.{◌≡◌, ◌≤◌, ◌<◌, ◌^◌, String, IfSome, MatchOption, codes, decimal, map};
ghost use Rattle.std.specs.Prelude.{string_bytes, if◌then◌else◌, None};
ghost use Rattle.std.specs.Str.{bytes_eq};
ghost use Rattle.bridge_tool.specs.Commands.{command_named, command_of, digits_after, explaining};
ghost use Rattle.bridge_tool.specs.inside.Within.{IsWithin};
ghost use Rattle.bridge_tool.specs.Commands.{generating, generating_all, number_in, reads};

use bridge_explain::Question;
use itoa::Buffer;

/// What a run is asked for.
#[derive(Drop)]
pub enum Command<'w> {
    /// Which rules are broken, or what may be borrowed: the word `check`, or none.
    Check,
    /// Why a leaf is listed under a lifetime, or why it isn't: the word `explain`, a callable, a leaf and the number of a lifetime.
    Explain(Question<'w>),
    /// How much is listed of so many made structs and functions: the word `gen`, and their number, from 1 to 10,000.
    Generate(usize),
    /// Where the declarations are documented: the word `links`.
    Links,
}

/// No more structs and functions are made.
const MOST_GENERATED: usize = 10_000;

impl Command<'_> {
    /// Whether it is asked of the source's bytes: `gen` makes its own declarations.
    pub fn reads(&self) -> bool
        ensures { result ≡ reads self.now }
    {
        !matches!(self, Command::Generate(_))
    }
}

/// The command of that name.
fn command_named<'w>(word: &str) -> Option<Command<'w>>
    ensures { result ≡ command_named word.now }
{
    match word {
        "check" => Some(Command::Check),
        "links" => Some(Command::Links),
        _ => None,
    }
}

/// What the digits of a word write, where it is below 2^32.
fn digits_in(word: &[u8]) -> Option<u64>
    ensures { MatchOption result (2 ^ 32 ≤ digits_after 0 word.now)
        (λ n. (n ≡ digits_after 0 word.now) × (n < 2 ^ 32)) }
{
    let mut number = 0u64;
    for byte in word {
        number = number * 10 + u64::from(byte.saturating_sub(b'0'));
        if number >= 1 << 32 {
            return None;
        }
    }
    Some(number)
}

/// Whether the word is the number in decimal.
fn is_decimal(number: u64, word: &str) -> bool
    ensures { result ≡ bytes_eq (decimal number) word.now }
{
    let mut digits = Buffer::new();
    digits.format(number) == word
}

/// The number below 2^32 that the word is in decimal, without a sign or a leading zero.
fn number_in(word: &str) -> Option<usize>
    ensures { result ≡ number_in word.now }
{
    match digits_in(word.as_bytes()) {
        Some(number) if is_decimal(number, word) => Some(number as usize),
        _ => None,
    }
}

/// The command `explain`, by the words after it.
fn explaining<'w>(callable: &'w str, leaf: &'w str, number: &str) -> Option<Command<'w>>
    ensures { result ≡ explaining callable.now leaf.now number.now }
{
    match number_in(number) {
        Some(lifetime) => Some(Command::Explain(Question::new(callable, leaf, lifetime))),
        None => None,
    }
}

/// The command `gen` for so many, where they are from 1 to 10,000.
fn generating_all<'w>(count: usize) -> Option<Command<'w>>
    ensures { result ≡ generating_all count }
{
    if count > 0 && count <= MOST_GENERATED {
        Some(Command::Generate(count))
    } else {
        None
    }
}

/// The command `gen`, by the word after it.
fn generating<'w>(number: &str) -> Option<Command<'w>>
    ensures { result ≡ generating number.now }
{
    match number_in(number) {
        Some(count) => generating_all(count),
        None => None,
    }
}

/// The command of two words.
fn command_of_two<'w>(word: &str, number: &str) -> Option<Command<'w>>
    ensures { result ≡ if bytes_eq word.now (codes "gen") then generating number.now else None }
{
    match word {
        "gen" => generating(number),
        _ => None,
    }
}

/// The command of four words.
fn command_of_four<'w>(
    word: &str,
    callable: &'w str,
    leaf: &'w str,
    number: &str,
) -> Option<Command<'w>>
    ensures { result ≡ if bytes_eq word.now (codes "explain")
        then explaining callable.now leaf.now number.now else None }
{
    match word {
        "explain" => explaining(callable, leaf, number),
        _ => None,
    }
}

/// The command that the words after the program's name ask for, if they do.
pub fn command_of<'w>(words: &'w [String]) -> Option<Command<'w>>
    ensures command { result ≡ command_of (map string_bytes words.now) }
    ensures within { IfSome result (λ command. IsWithin command) }
{
    match words {
        [] => Some(Command::Check),
        [word] => command_named(word.as_str()),
        [word, number] => command_of_two(word.as_str(), number.as_str()),
        [word, callable, leaf, number] => command_of_four(
            word.as_str(),
            callable.as_str(),
            leaf.as_str(),
            number.as_str(),
        ),
        _ => None,
    }
}

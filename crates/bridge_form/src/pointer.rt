//! Where a value stands in a JSON value.

ghost use Rattle.std.specs.Prelude.{◌≡◌, ◌∷◌, ◌++◌, [], IfOk, OnOk, decimal, string_bytes};
ghost use Rattle.bridge_form.specs.PointerTexts.{escaped, escaped_text, pointer_text, step_text};

use bridge_text::{NoMemory, Text};
use itoa::Buffer;
use std::alloc::Global;
use std::marker::Model;

/// A step from a JSON value to one inside it.
#[derive(Drop)]
pub enum Step {
    /// To the value under that key of an object.
    Member(Text),
    /// To the entry of that number of a list.
    Index(usize),
}

/// The steps from a JSON value to one inside it, the outermost first.
#[derive(Drop)]
pub struct Pointer {
    // The innermost first, so that a step to the whole is put at the end.
    steps: Vec<Step>,
}

impl Model for Pointer {
    ghost use Rattle.std.specs.Prelude.{List, reverse};
    ghost use Rattle.bridge_form.specs.declared.pointer.Step.{Step as Way};

    ghost Value = { List Way };

    ghost view = { λ it. reverse it.steps.items };
}

impl Pointer {
    /// To the value itself.
    pub fn here(alloc: Global) -> Pointer
        ensures { result ≡ [] }
    {
        Pointer {
            steps: Vec::new(alloc),
        }
    }

    /// From a value that the step leads out of.
    pub fn within(mut self, step: Step) -> Result<Pointer, NoMemory>
        ensures { IfOk result (λ pointer. pointer ≡ step ∷ self) }
    {
        self.steps.push(step)?;
        Ok(self)
    }

    /// The pointer, and from where it leads to on.
    pub fn followed_by(mut self, mut inner: Pointer) -> Result<Pointer, NoMemory>
        ensures { IfOk result (λ pointer. pointer ≡ self ++ inner) }
    {
        inner.steps.append(&mut self.steps)?;
        Ok(inner)
    }

    /// The text of the pointer (RFC 6901).
    pub fn into_text(self, alloc: Global) -> Result<Text, NoMemory>
        ensures { IfOk result (λ text. text ≡ pointer_text self) }
    {
        let mut steps = self.steps;
        let mut text = String::new(alloc);
        while let Some(step) = steps.pop() {
            put_step(&mut text, &step)?;
        }
        Text::new(alloc, text.as_str())
    }
}

/// Adds a character as a pointer writes it.
fn put_char(text: &mut String, c: char) -> Result<(), NoMemory>
    ensures { OnOk result (string_bytes text.new ≡ string_bytes text.old ++ escaped c) }
{
    match c {
        '~' => text.push_str("~0"),
        '/' => text.push_str("~1"),
        other => text.push(other),
    }
}

/// Adds a name as a pointer writes it.
fn put_name(text: &mut String, name: &str) -> Result<(), NoMemory>
    ensures { OnOk result
        (string_bytes text.new ≡ string_bytes text.old ++ escaped_text name.now) }
{
    for c in name.chars() {
        put_char(text, c)?;
    }
    Ok(())
}

fn put_number(text: &mut String, number: usize) -> Result<(), NoMemory>
    ensures { OnOk result (string_bytes text.new ≡ string_bytes text.old ++ decimal number) }
{
    let mut digits = Buffer::new();
    text.push_str(digits.format(number))
}

fn put_step(text: &mut String, step: &Step) -> Result<(), NoMemory>
    ensures { OnOk result (string_bytes text.new ≡ string_bytes text.old ++ step_text step.now) }
{
    text.push_str("/")?;
    match step {
        Step::Member(name) => put_name(text, name.as_str()),
        Step::Index(number) => put_number(text, *number),
    }
}

//! The places that reports stand at.

ghost use Rattle.std.specs.Prelude.{◌≡◌, ◌++◌, IfOk, Some, codes};
ghost use Rattle.std.specs.Option.{option_copied};
ghost use Rattle.std.specs.Fmt.{DisplaysOnOk};
ghost use Rattle.bridge_decl.specs.Names.{joined};
ghost use Rattle.hir_reports.specs.Places.{location_text, module_text, context_text};
ghost use Rattle.hir_reports.specs.inside.Openings.{module_opening, inner_text};

use bridge_decl::{Items, NoMemory, Text};
use std::alloc::Global;
use std::fmt;

/// The place of a declaration: the smallest of module, item and method that holds what is wrong.
pub struct ErrorContext {
    /// The path of the module.
    pub module: Items<Text>,
    /// The name of the item; empty where the module itself is the place.
    pub item: Text,
    /// The name of the method, where the place is one.
    pub subitem: Option<Text>,
}

/// By hand, so that where one is let go the proof has one call.
impl Drop for ErrorContext {
    fn drop(self) {
        let ErrorContext {
            module: _,
            item: _,
            subitem: _,
        } = self;
    }
}

impl ErrorContext {
    /// The item, and `::` and the method where the place is one. `NoMemory` where there is no memory for the text.
    pub fn location(&self, alloc: Global) -> Result<Text, NoMemory>
        ensures { IfOk result (λ text. text ≡ location_text self.now) }
    {
        let mut text = String::from_str(alloc, self.item.as_str())?;
        if let Some(subitem) = &self.subitem {
            text.push_str("::")?;
            text.push_str(subitem.as_str())?;
        }
        Ok(Text::from(text))
    }
}

/// Segments with `::` between each two.
fn put_joined<W: fmt::Write>(f: &mut fmt::Formatter<W>, segments: &[Text]) -> fmt::Result
    ensures { DisplaysOnOk W.write_str_gives f.old result (Some (joined (codes "::") segments.now))
        f.new }
{
    match segments {
        [] => Ok(()),
        [last] => f.write_str(last.as_str()),
        [first, rest @ ..] => {
            f.write_str(first.as_str())?;
            f.write_str("::")?;
            put_joined(f, rest)
        }
    }
}

/// A module: its segments with `::` between each two, or what the root is called.
fn put_module<W: fmt::Write>(f: &mut fmt::Formatter<W>, path: &[Text]) -> fmt::Result
    ensures { DisplaysOnOk W.write_str_gives f.old result (Some (module_text path.now)) f.new }
{
    match path {
        [] => f.write_str("root module"),
        _ => put_joined(f, path),
    }
}

/// A module with `::` after it; the root has none.
fn put_opening<W: fmt::Write>(f: &mut fmt::Formatter<W>, path: &[Text]) -> fmt::Result
    ensures { DisplaysOnOk W.write_str_gives f.old result (Some (module_opening path.now)) f.new }
{
    match path {
        [] => Ok(()),
        _ => {
            put_joined(f, path)?;
            f.write_str("::")
        }
    }
}

/// What stands in a module: an item, a method of it, or both.
fn put_inner<W: fmt::Write>(
    f: &mut fmt::Formatter<W>,
    item: &str,
    subitem: Option<&Text>,
) -> fmt::Result
    ensures { DisplaysOnOk W.write_str_gives f.old result
        (Some (inner_text item.now (option_copied subitem.entry))) f.new }
{
    match subitem {
        None => f.write_str(item),
        Some(subitem) if item.is_empty() => f.write_str(subitem.as_str()),
        Some(subitem) => {
            f.write_str(item)?;
            f.write_str("::")?;
            f.write_str(subitem.as_str())
        }
    }
}

/// A place within a module: an item, or a method.
fn put_within<W: fmt::Write>(
    f: &mut fmt::Formatter<W>,
    path: &[Text],
    item: &str,
    subitem: Option<&Text>,
) -> fmt::Result
    ensures { DisplaysOnOk W.write_str_gives f.old result
        (Some (module_opening path.now
        ++ inner_text item.now (option_copied subitem.entry))) f.new }
{
    put_opening(f, path)?;
    put_inner(f, item, subitem)
}

impl fmt::Display for ErrorContext {
    ghost output = { λ context. Some (context_text context) };

    fn fmt<W: fmt::Write>(&self, f: &mut fmt::Formatter<W>) -> fmt::Result {
        let (item, subitem) = (self.item.as_str(), self.subitem.as_ref());
        if item.is_empty() && subitem.is_none() {
            put_module(f, self.module.as_slice())
        } else {
            put_within(f, self.module.as_slice(), item, subitem)
        }
    }
}

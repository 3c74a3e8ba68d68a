//! Code that is written by hand and included in what is generated.

ghost use Rattle.std.specs.Prelude.{◌≡◌, IfOk, Some, find};
ghost use Rattle.hir_attrs.specs.Includes.{every_location, include_of, is_location_called, location_named, location_word, no_parts, pair_of_parts, parts_from, with_next, with_part, with_text};

use bridge_decl::{Assign, Lit, MetaValue, NoMemory, Text};
use std::alloc::Global;

/// What is included. As `diplomat_core::hir::IncludeSource`.
#[derive(Drop)]
pub enum IncludeSource {
    /// This code.
    Source(Text),
    /// The file of that path.
    File(Text),
}

impl IncludeSource {
    /// A copy, which is equal to the source.
    pub fn try_clone(&self, alloc: Global) -> Result<IncludeSource, NoMemory>
        ensures { IfOk result (λ copy. copy ≡ self.now) }
    {
        match self {
            IncludeSource::Source(text) => Ok(IncludeSource::Source(text.try_clone(alloc)?)),
            IncludeSource::File(path) => Ok(IncludeSource::File(path.try_clone(alloc)?)),
        }
    }
}

/// Where it is included. As `diplomat_core::hir::IncludeLocation`.
#[derive(Clone, Copy, Debug, PartialEq, Eq, Hash)]
pub enum IncludeLocation {
    /// Before what defines the type.
    PreDefBlock,
    /// In what defines the type.
    DefBlock,
    /// After what defines the type.
    PostDefBlock,
    /// In what implements it.
    ImplBlock,
    /// Before what implements it.
    PreImplBlock,
    /// Before what is run first.
    PreInitializationBlock,
    /// In what is run first.
    InitializationBlock,
}

impl IncludeLocation {
    /// The name by which a mark spells it.
    #[tactic(auto, unfolding(crate::specs::Includes::location_word))]
    pub fn text(self) -> &'static str
        ensures { result.now ≡ location_word self }
    {
        match self {
            IncludeLocation::PreDefBlock => "pre_def_block",
            IncludeLocation::DefBlock => "def_block",
            IncludeLocation::PostDefBlock => "post_def_block",
            IncludeLocation::ImplBlock => "impl_block",
            IncludeLocation::PreImplBlock => "pre_impl_block",
            IncludeLocation::PreInitializationBlock => "pre_init_block",
            IncludeLocation::InitializationBlock => "init_block",
        }
    }

    /// All of them.
    #[tactic(auto, unfolding(crate::specs::Includes::every_location))]
    fn all() -> &'static [IncludeLocation]
        ensures { result.now ≡ every_location }
    {
        &[
            IncludeLocation::PreDefBlock,
            IncludeLocation::DefBlock,
            IncludeLocation::PostDefBlock,
            IncludeLocation::ImplBlock,
            IncludeLocation::PreImplBlock,
            IncludeLocation::PreInitializationBlock,
            IncludeLocation::InitializationBlock,
        ]
    }

    /// The one of that name, if there is one.
    pub fn named(name: &str) -> Option<IncludeLocation>
        ensures { result ≡ location_named name.now }
    {
        first_named(IncludeLocation::all(), name)
    }
}

/// Whether it has that name.
fn is_location_called(it: IncludeLocation, name: &str) -> bool
    ensures { result ≡ is_location_called name.now it }
{
    it.text() == name
}

/// The first of these that has that name.
fn first_named(all: &[IncludeLocation], name: &str) -> Option<IncludeLocation>
    ensures { result ≡ find (is_location_called name.now) all.now }
{
    match all {
        [] => None,
        [first, ..] if is_location_called(*first, name) => Some(*first),
        [_, rest @ ..] => first_named(rest, name),
    }
}

/// What the arguments so far give.
#[derive(Drop)]
pub struct Parts {
    /// The last location.
    pub location: Option<IncludeLocation>,
    /// The last source or file.
    pub source: Option<IncludeSource>,
}

/// The parts with one more, of that name and text. None where no part has the name, or no location the text.
fn with_text(
    alloc: Global,
    parts: Parts,
    name: &str,
    text: &Text,
) -> Result<Option<Parts>, NoMemory>
    ensures { IfOk result (λ next. next ≡ with_text parts name.now text.now) }
{
    let mut parts = parts;
    if name == "location" {
        let Some(location) = IncludeLocation::named(text.as_str()) else {
            return Ok(None);
        };
        parts.location = Some(location);
    } else if name == "source" {
        parts.source = Some(IncludeSource::Source(text.try_clone(alloc)?));
    } else if name == "file" {
        parts.source = Some(IncludeSource::File(text.try_clone(alloc)?));
    } else {
        return Ok(None);
    }
    Ok(Some(parts))
}

/// The parts with one more. None where it is no part, or isn't a string.
fn with_part(alloc: Global, parts: Parts, assign: &Assign) -> Result<Option<Parts>, NoMemory>
    ensures { IfOk result (λ next. next ≡ with_part parts assign.now) }
{
    match &assign.value {
        Lit::Str(text) => with_text(alloc, parts, assign.name.as_str(), text),
        _ => Ok(None),
    }
}

/// The parts so far with one more, where all so far are parts.
fn with_next(
    alloc: Global,
    parts: Option<Parts>,
    assign: &Assign,
) -> Result<Option<Parts>, NoMemory>
    ensures { IfOk result (λ next. next ≡ with_next parts assign.now) }
{
    match parts {
        Some(parts) => with_part(alloc, parts, assign),
        None => Ok(None),
    }
}

/// What a list of arguments gives. None where one of them is no part.
fn parts_of(alloc: Global, assigns: &[Assign]) -> Result<Option<Parts>, NoMemory>
    ensures { IfOk result (λ parts. parts ≡ parts_from (Some no_parts) assigns.now) }
{
    let mut parts = Some(Parts {
        location: None,
        source: None,
    });
    for assign in assigns {
        parts = with_next(alloc, parts, assign)?;
    }
    Ok(parts)
}

/// A location and a source, where both are given.
fn pair_of_parts(parts: Parts) -> Option<(IncludeLocation, IncludeSource)>
    ensures { result ≡ pair_of_parts parts }
{
    let Parts { location, source } = parts;
    match (location, source) {
        (Some(location), Some(source)) => Some((location, source)),
        _ => None,
    }
}

/// What the argument of `custom_extra_code` includes, and where: the last location, and the last source or file. None where it isn't a
/// list of strings of these names, where a location has none of the seven names, and where one of the two isn't given.
pub fn include_of(
    alloc: Global,
    value: &MetaValue,
) -> Result<Option<(IncludeLocation, IncludeSource)>, NoMemory>
    ensures { IfOk result (λ pair. pair ≡ include_of value.now) }
{
    match value {
        MetaValue::Assignments(assigns) => match parts_of(alloc, assigns.as_slice())? {
            Some(parts) => Ok(pair_of_parts(parts)),
            None => Ok(None),
        },
        _ => Ok(None),
    }
}

//! What changes names: patterns in which `{0}` stands for the name.
//!
//! `{0}` stands where these three characters follow one another, and nowhere else: braces can't be escaped, and `{{0}}` has it
//! once, between two braces.

ghost use Rattle.std.specs.Prelude.{◌≡◌, ◌↔◌, ◌<◌, ◌≤◌, IsTrue, IfOk, OnOk, IfSome, IsErrOf, Some, None};
ghost use Rattle.std.specs.Option.{option_copied};
ghost use Rattle.bridge_text.specs.Rename.{placeholder_count, IsFilled, IsRenamed, inherited_pattern, kept_pattern};

use crate::text::{NoMemory, Text};
use std::alloc::{AllocError, Global};
use std::marker::Model;

/// Why no attribute was made of a pattern.
#[derive(Clone, Copy, Debug, PartialEq, Eq)]
pub enum RenameFault {
    /// `{0}` stands in the pattern more than once.
    Pattern,
    /// There was no memory for the copy.
    NoMemory,
}

impl From<AllocError> for RenameFault {
    ghost use Rattle.std.specs.Prelude.{◌≡◌};
    ghost use Rattle.bridge_text.specs.declared.rename.RenameFault.{RenameFault};

    ghost from_gives = { λ _ fault. fault ≡ RenameFault.NoMemory };

    fn from(_error: AllocError) -> RenameFault {
        RenameFault::NoMemory
    }
}

/// The kind of declaration that takes attributes over from the one that it stands in.
#[derive(Clone, Copy)]
pub enum AttrInheritContext {
    /// A variant of an enum.
    Variant,
    /// A type, trait or function of a module.
    OfType,
    /// A method, from the module of its type.
    MethodOrImplFromModule,
    /// A submodule.
    Module,
}

/// How names are changed: a pattern in which `{0}` stands for the name, at most once, or nothing. Contracts see it as the
/// bytes of the pattern, if there is one.
pub struct RenameAttr {
    pattern: Option<Text>,
}

/// By hand, so that where one is let go the proof has one call.
impl Drop for RenameAttr {
    fn drop(self) {
        let RenameAttr { pattern: _ } = self;
    }
}

impl Model for RenameAttr {
    ghost use Rattle.std.specs.Prelude.{Option, List, ℕ, ◌≤◌, IfSome};
    ghost use Rattle.bridge_text.specs.Rename.{placeholder_count};

    ghost Value = { Option (List ℕ) };

    ghost view = { λ it. it.pattern };

    ghost invariant = { λ it. IfSome it.pattern (λ pattern. placeholder_count pattern ≤ 1) };
}

impl RenameAttr {
    /// The attribute with that pattern. The fault is `Pattern` exactly where `{0}` stands in it more than once, and `NoMemory`
    /// only where it doesn't.
    pub fn new(alloc: Global, pattern: &str) -> Result<RenameAttr, RenameFault>
        ensures ok { IfOk result (λ attr. attr ≡ Some pattern.now) }
        ensures once { OnOk result (placeholder_count pattern.now ≤ 1) }
        ensures twice { IsErrOf result RenameFault.Pattern ↔ (1 < placeholder_count pattern.now) }
        ensures no_memory { IsErrOf result RenameFault.NoMemory
            → placeholder_count pattern.now ≤ 1 }
    {
        if has_two_placeholders(pattern) {
            return Err(RenameFault::Pattern);
        }
        Ok(RenameAttr {
            pattern: Some(Text::new(alloc, pattern)?),
        })
    }

    /// The attribute that changes nothing.
    pub fn empty() -> RenameAttr
        ensures { result ≡ None }
    {
        RenameAttr { pattern: None }
    }

    /// Whether the attribute changes nothing: it has no pattern.
    pub fn is_empty(&self) -> bool
        ensures { IsTrue result ↔ (self.now ≡ None) }
    {
        self.pattern.is_none()
    }

    /// The pattern, lent, if there is one.
    pub fn pattern(&self) -> Option<&str>
        ensures value { option_copied result ≡ self.now }
        ensures once { IfSome result (λ pattern. placeholder_count pattern.now ≤ 1) }
    {
        match &self.pattern {
            Some(pattern) => Some(pattern.as_str()),
            None => None,
        }
    }

    /// The name as the attribute changes it: the pattern with the name in place of `{0}`, so the pattern alone where `{0}`
    /// doesn't stand in it, and the name itself where there is no pattern.
    pub fn apply(&self, alloc: Global, name: &str) -> Result<Text, NoMemory>
        ensures { IfOk result (λ text. IsRenamed self.now name.now text) }
    {
        match self.pattern() {
            Some(pattern) => fill(alloc, pattern, name),
            None => Text::new(alloc, name),
        }
    }

    /// The attribute that a declaration takes over from the one that it stands in: the same where the pattern has `{0}` and is
    /// taken over by a type, a trait or a function of a module, or by a submodule. Any other pattern would give one name to all
    /// that took it over, so the attribute is then the empty one.
    pub fn attrs_for_inheritance(
        &self,
        alloc: Global,
        context: AttrInheritContext,
    ) -> Result<RenameAttr, NoMemory>
        ensures { IfOk result (λ attr. attr ≡ inherited_pattern self.now context) }
    {
        match context {
            AttrInheritContext::OfType | AttrInheritContext::Module => self.kept(alloc),
            AttrInheritContext::Variant | AttrInheritContext::MethodOrImplFromModule => {
                Ok(RenameAttr::empty())
            }
        }
    }

    fn kept(&self, alloc: Global) -> Result<RenameAttr, NoMemory>
        ensures { IfOk result (λ attr. attr ≡ kept_pattern self.now) }
    {
        match self.pattern() {
            Some(pattern) if has_placeholder(pattern) => self.try_clone(alloc),
            _ => Ok(RenameAttr::empty()),
        }
    }

    /// A copy, which is equal to the attribute.
    pub fn try_clone(&self, alloc: Global) -> Result<RenameAttr, NoMemory>
        ensures { IfOk result (λ copy. copy ≡ self.now) }
    {
        let pattern = match &self.pattern {
            Some(pattern) => Some(pattern.try_clone(alloc)?),
            None => None,
        };
        Ok(RenameAttr { pattern })
    }
}

const PLACEHOLDER: &str = "{0}";

fn has_placeholder(pattern: &str) -> bool
    ensures { IsTrue result ↔ (0 < placeholder_count pattern.now) }
{
    pattern.contains(PLACEHOLDER)
}

fn has_two_placeholders(pattern: &str) -> bool
    ensures { IsTrue result ↔ (1 < placeholder_count pattern.now) }
{
    match pattern.split_once(PLACEHOLDER) {
        Some((_, rest)) => has_placeholder(rest),
        None => false,
    }
}

fn fill(alloc: Global, pattern: &str, name: &str) -> Result<Text, NoMemory>
    requires { placeholder_count pattern.now ≤ 1 }
    ensures { IfOk result (λ text. IsFilled pattern.now name.now text) }
{
    match pattern.split_once(PLACEHOLDER) {
        Some((front, back)) => Text::joined(alloc, front, name, back),
        None => Text::new(alloc, pattern),
    }
}

//! The attributes of declarations: marks for backends, and what renames.

ghost use Rattle.std.specs.Prelude.{◌≡◌, IfOk};

use bridge_text::{NoMemory, RenameAttr, Text, clone_items, clone_option, clone_texts};
use sqlite_items::{Boxed, Items};
use std::alloc::Global;

/// The attributes of one declaration, as written.
pub struct Attrs {
    /// The features that the declaration stands under.
    pub features: Items<Text>,
    /// The marks for backends, in order.
    pub marks: Items<DiplomatBackendAttr>,
    /// How the name of the exported symbol is made.
    pub abi_rename: RenameAttr,
    /// The note of a deprecated declaration.
    pub deprecated: Option<Text>,
}

/// By hand, so that where one is let go the proof has one call.
impl Drop for Attrs {
    fn drop(self) {
        let Attrs {
            features: _,
            marks: _,
            abi_rename: _,
            deprecated: _,
        } = self;
    }
}

impl Attrs {
    /// A copy, which is equal to the attributes.
    pub fn try_clone(&self, alloc: Global) -> Result<Attrs, NoMemory>
        ensures { IfOk result (λ copy. copy ≡ self.now) }
    {
        Ok(Attrs {
            features: clone_texts(alloc, &self.features)?,
            marks: clone_items(alloc, &self.marks, DiplomatBackendAttr::try_clone)?,
            abi_rename: self.abi_rename.try_clone(alloc)?,
            deprecated: clone_option(alloc, &self.deprecated, Text::try_clone)?,
        })
    }
}

/// A mark, for the backends that meet its condition.
#[derive(Drop)]
pub struct DiplomatBackendAttr {
    /// Where the mark counts.
    pub cfg: DiplomatBackendAttrCfg,
    /// The mark.
    pub meta: Meta,
}

impl DiplomatBackendAttr {
    /// A copy, which is equal to the mark.
    pub fn try_clone(&self, alloc: Global) -> Result<DiplomatBackendAttr, NoMemory>
        ensures { IfOk result (λ copy. copy ≡ self.now) }
    {
        Ok(DiplomatBackendAttr {
            cfg: self.cfg.try_clone(alloc)?,
            meta: self.meta.try_clone(alloc)?,
        })
    }
}

/// A condition on backends.
#[derive(Drop)]
pub enum DiplomatBackendAttrCfg {
    /// Where the inner condition isn't met.
    Not(Boxed<DiplomatBackendAttrCfg>),
    /// Where some inner condition is met.
    Any(Items<DiplomatBackendAttrCfg>),
    /// Where each inner condition is met.
    All(Items<DiplomatBackendAttrCfg>),
    /// Where the backend supports the mark.
    Auto,
    /// Everywhere.
    Star,
    /// For the backend of that name.
    BackendName(Text),
    /// Where the backend has that value under that name.
    NameValue(Text, Text),
}

impl DiplomatBackendAttrCfg {
    /// A copy, which is equal to the condition.
    #[cycle(copies)]
    pub fn try_clone(&self, alloc: Global) -> Result<DiplomatBackendAttrCfg, NoMemory>
        ensures { IfOk result (λ copy. copy ≡ self.now) }
    {
        match self {
            DiplomatBackendAttrCfg::Not(inner) => {
                let inner = Boxed::new(alloc, inner.get().try_clone(alloc)?)?;
                Ok(DiplomatBackendAttrCfg::Not(inner))
            }
            DiplomatBackendAttrCfg::Any(inner) => Ok(DiplomatBackendAttrCfg::Any(
                DiplomatBackendAttrCfg::clone_each(alloc, inner)?,
            )),
            DiplomatBackendAttrCfg::All(inner) => Ok(DiplomatBackendAttrCfg::All(
                DiplomatBackendAttrCfg::clone_each(alloc, inner)?,
            )),
            DiplomatBackendAttrCfg::Auto => Ok(DiplomatBackendAttrCfg::Auto),
            DiplomatBackendAttrCfg::Star => Ok(DiplomatBackendAttrCfg::Star),
            DiplomatBackendAttrCfg::BackendName(name) => Ok(DiplomatBackendAttrCfg::BackendName(
                name.try_clone(alloc)?,
            )),
            DiplomatBackendAttrCfg::NameValue(name, value) => Ok(DiplomatBackendAttrCfg::NameValue(
                name.try_clone(alloc)?,
                value.try_clone(alloc)?,
            )),
        }
    }

    #[cycle(copies)]
    fn clone_each(
        alloc: Global,
        conditions: &Items<DiplomatBackendAttrCfg>,
    ) -> Result<Items<DiplomatBackendAttrCfg>, NoMemory>
        ensures { IfOk result (λ copies. copies ≡ conditions.now) }
    {
        let mut copies = Items::new(alloc);
        for condition in conditions.as_slice() {
            copies.push(condition.try_clone(alloc)?)?;
        }
        Ok(copies)
    }
}

/// The name of a mark and what it is given.
#[derive(Drop)]
pub struct Meta {
    /// The segments of the name.
    pub path: Items<Text>,
    /// The argument.
    pub value: MetaValue,
}

impl Meta {
    /// A copy, which is equal to the mark.
    pub fn try_clone(&self, alloc: Global) -> Result<Meta, NoMemory>
        ensures { IfOk result (λ copy. copy ≡ self.now) }
    {
        Ok(Meta {
            path: clone_texts(alloc, &self.path)?,
            value: self.value.try_clone(alloc)?,
        })
    }
}

/// The argument of a mark.
#[derive(Drop)]
pub enum MetaValue {
    /// None.
    Empty,
    /// One literal.
    Literal(Lit),
    /// Named literals.
    Assignments(Items<Assign>),
}

impl MetaValue {
    /// A copy, which is equal to the argument.
    pub fn try_clone(&self, alloc: Global) -> Result<MetaValue, NoMemory>
        ensures { IfOk result (λ copy. copy ≡ self.now) }
    {
        match self {
            MetaValue::Empty => Ok(MetaValue::Empty),
            MetaValue::Literal(literal) => Ok(MetaValue::Literal(literal.try_clone(alloc)?)),
            MetaValue::Assignments(assigns) => {
                let assigns = clone_items(alloc, assigns, Assign::try_clone)?;
                Ok(MetaValue::Assignments(assigns))
            }
        }
    }
}

/// A literal under a name.
#[derive(Drop)]
pub struct Assign {
    /// The name.
    pub name: Text,
    /// The literal.
    pub value: Lit,
}

impl Assign {
    /// A copy, which is equal to the literal and its name.
    pub fn try_clone(&self, alloc: Global) -> Result<Assign, NoMemory>
        ensures { IfOk result (λ copy. copy ≡ self.now) }
    {
        Ok(Assign {
            name: self.name.try_clone(alloc)?,
            value: self.value.try_clone(alloc)?,
        })
    }
}

/// A literal.
#[derive(Drop)]
pub enum Lit {
    /// `true` or `false`.
    Bool(bool),
    /// A character.
    Char(char),
    /// A byte.
    Byte(u8),
    /// A whole number, as its decimal digits.
    Int(Text),
    /// A floating number, whose value is not kept.
    Float,
    /// A text.
    Str(Text),
    /// Any other literal.
    Other,
}

impl Lit {
    /// A copy, which is equal to the literal.
    pub fn try_clone(&self, alloc: Global) -> Result<Lit, NoMemory>
        ensures { IfOk result (λ copy. copy ≡ self.now) }
    {
        match self {
            Lit::Bool(value) => Ok(Lit::Bool(*value)),
            Lit::Char(value) => Ok(Lit::Char(*value)),
            Lit::Byte(value) => Ok(Lit::Byte(*value)),
            Lit::Int(digits) => Ok(Lit::Int(digits.try_clone(alloc)?)),
            Lit::Float => Ok(Lit::Float),
            Lit::Str(text) => Ok(Lit::Str(text.try_clone(alloc)?)),
            Lit::Other => Ok(Lit::Other),
        }
    }
}

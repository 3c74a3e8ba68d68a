//! The documentation of a declaration, for a backend.

ghost use Rattle.std.specs.Prelude.{◌≡◌, ◌↔◌, [], IsTrue, IfOk, OnOk, OnErr, option_to_list, string_bytes};
ghost use Rattle.std.specs.List.{flat_map};
ghost use Rattle.hir_reports.specs.Store.{Held, Keeps, added};
ghost use Rattle.hir_docs.specs.Docs.{continued, docs_for, docs_errors, block_errors, lines_from, read_lines};

use bridge_decl::{DocBlock, Items, NoMemory, RustLink, Text, clone_items};
use hir_backends::{AttributeValidator, Met, meets};
use hir_reports::{ErrorStore, LoweringError};
use std::alloc::Global;
use std::marker::Model;

/// What documents a declaration for one backend: the lines that are meant for it, and the links to Rust's documentation.
pub struct Docs {
    lines: Text,
    links: Items<RustLink>,
}

/// By hand, so that where one is let go the proof has one call.
impl Drop for Docs {
    fn drop(self) {
        let Docs { lines: _, links: _ } = self;
    }
}

impl Model for Docs {
    ghost use Rattle.hir_docs.specs.Docs.{Documented};

    ghost Value = { Documented };

    ghost view = { λ it. record { lines = it.lines; links = it.links } };
}

/// Adds an error, where there is one.
fn tell(errors: &mut ErrorStore<'_>, error: Option<LoweringError>) -> Result<(), NoMemory>
    ensures told { OnOk result (errors.new ≡ added errors.old (option_to_list error)) }
    ensures kept { (earlier : Held) → Keeps earlier errors.old → Keeps earlier errors.new }
{
    match error {
        Some(error) => errors.push(error),
        None => Ok(()),
    }
}

/// The lines so far and those of one more block, with a line feed between where there is text before.
fn push_lines(lines: &mut String, block: &str) -> Result<(), NoMemory>
    ensures { OnOk result (string_bytes lines.new
        ≡ continued (string_bytes lines.old) block.now) }
{
    if !lines.is_empty() {
        lines.push_str("\n")?;
    }
    lines.push_str(block)?;
    Ok(())
}

/// Adds the lines of a block whose condition is met, and tells a fault of its condition. `auto` isn't allowed in it.
fn read_block<V: AttributeValidator>(
    alloc: Global,
    block: &DocBlock,
    validator: &V,
    lines: &mut String,
    errors: &mut ErrorStore<'_>,
) -> Result<(), NoMemory>
    ensures lines { OnOk result (string_bytes lines.new
        ≡ read_lines (V.meaning validator.now) (string_bytes lines.old) block.now) }
    ensures told { OnOk result (errors.new
        ≡ added errors.old (block_errors (V.meaning validator.now) block.now)) }
    ensures kept { (earlier : Held) → Keeps earlier errors.old → Keeps earlier errors.new }
{
    let block_met = meets(validator, &block.cfg, false);
    match block_met {
        Met::Holds(_) => push_lines(lines, block.lines.as_str()),
        Met::Fails => Ok(()),
        Met::Faulty(_) => tell(errors, block_met.error(alloc)),
    }
}

/// Adds the lines of the blocks whose conditions are met, and tells the faults of conditions.
fn read_blocks<V: AttributeValidator>(
    alloc: Global,
    blocks: &[DocBlock],
    validator: &V,
    errors: &mut ErrorStore<'_>,
) -> Result<String, NoMemory>
    ensures lines { IfOk result (λ lines. string_bytes lines
        ≡ lines_from (V.meaning validator.now) [] blocks.now) }
    ensures told { OnOk result (errors.new
        ≡ added errors.old (flat_map (block_errors (V.meaning validator.now)) blocks.now)) }
    ensures kept { Keeps errors.old errors.new }
{
    let mut lines = String::new(alloc);
    for block in blocks {
        read_block(alloc, block, validator, &mut lines, errors)?;
    }
    Ok(lines)
}

/// The documents for a backend; after want of memory, what was told before stands first among the reports.
fn read_docs<V: AttributeValidator>(
    alloc: Global,
    docs: &bridge_decl::Docs,
    validator: &V,
    errors: &mut ErrorStore<'_>,
) -> Result<Docs, NoMemory>
    ensures made { IfOk result
        (λ read. read ≡ docs_for (V.meaning validator.now) docs.now) }
    ensures told { OnOk result (errors.new
        ≡ added errors.old (docs_errors (V.meaning validator.now) docs.now)) }
    ensures kept { Keeps errors.old errors.new }
{
    let links = clone_items(alloc, &docs.links, RustLink::try_clone)?;
    let lines = read_blocks(alloc, docs.blocks.as_slice(), validator, errors)?;
    Ok(Docs {
        lines: Text::from(lines),
        links,
    })
}

impl Docs {
    /// The documents of these lines and links.
    pub fn new(lines: Text, links: Items<RustLink>) -> Docs
        ensures { result ≡ record { lines = lines; links = links } }
    {
        Docs { lines, links }
    }

    /// The documents for a backend: the lines of the blocks whose condition is met, in order, with a line feed between two where text
    /// stands before, and all links. `auto` isn't allowed in a condition. It tells each condition with a fault, in order, and nothing
    /// else. As `Docs::from_ast` of `diplomat_core`.
    ///
    /// `NoMemory` where there is no memory for the documents or the reports: then the store holds what it held.
    pub fn from_ast<V: AttributeValidator>(
        alloc: Global,
        d: &bridge_decl::Docs,
        validator: &V,
        errors: &mut ErrorStore<'_>,
    ) -> Result<Docs, NoMemory>
        ensures made { IfOk result (λ docs. docs ≡ docs_for (V.meaning validator.now) d.now) }
        ensures told { OnOk result (errors.new
            ≡ added errors.old (docs_errors (V.meaning validator.now) d.now)) }
        ensures kept { OnErr result (errors.new ≡ errors.old) }
    {
        let before = errors.len();
        match read_docs(alloc, d, validator, errors) {
            Ok(docs) => Ok(docs),
            Err(error) => {
                errors.truncate(before);
                Err(error)
            }
        }
    }

    /// The lines, lent.
    pub fn lines(&self) -> &str
        ensures { result.now ≡ self.now.lines }
    {
        self.lines.as_str()
    }

    /// The links, lent, in order.
    pub fn rust_links(&self) -> &[RustLink]
        ensures { result.now ≡ self.now.links }
    {
        self.links.as_slice()
    }

    /// Whether there are neither lines nor links.
    pub fn is_empty(&self) -> bool
        ensures { IsTrue result ↔ ((self.now.lines ≡ []) × (self.now.links ≡ [])) }
    {
        self.lines().is_empty() && self.links.is_empty()
    }

    /// A copy, which is equal to the documents.
    pub fn try_clone(&self, alloc: Global) -> Result<Docs, NoMemory>
        ensures { IfOk result (λ copy. copy ≡ self.now) }
    {
        let links = clone_items(alloc, &self.links, RustLink::try_clone)?;
        Ok(Docs {
            lines: self.lines.try_clone(alloc)?,
            links,
        })
    }
}

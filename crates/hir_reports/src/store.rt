//! A list of reports that grows, with the place of the next.

ghost use Rattle.std.specs.Prelude.{◌≡◌, [], ◌↔◌, IsTrue, IfOk, OnOk, OnErr, length, take, Some, None};
ghost use Rattle.std.specs.Option.{option_copied};

use crate::places::ErrorContext;
use crate::report::{LoweringError, LoweringReport};
use bridge_decl::{Items, NoMemory, Text};
use std::alloc::Global;
use std::marker::Model;

/// The reports so far, in order, and the place that the next one gets. The place is lent from the declarations that are walked over.
#[derive(Drop)]
pub struct ErrorStore<'tree> {
    alloc: Global,
    reports: Vec<LoweringReport>,
    module: &'tree [Text],
    item: &'tree str,
    subitem: Option<&'tree str>,
}

impl<'tree> Model for ErrorStore<'tree> {
    ghost use Rattle.hir_reports.specs.Store.{Held};
    ghost use Rattle.std.specs.Option.{option_copied};

    ghost Value = { Held };

    ghost view = { λ s. record {
      reports = s.reports.items;
      place = record {
        «module» = s.«module».now;
        item = s.item.now;
        subitem = option_copied s.subitem;
      };
    } };
}

/// A copy of a text, if there is one.
fn owned(alloc: Global, text: Option<&str>) -> Result<Option<Text>, NoMemory>
    ensures { IfOk result (λ copy. copy ≡ option_copied text.entry) }
{
    match text {
        Some(text) => Ok(Some(Text::new(alloc, text)?)),
        None => Ok(None),
    }
}

/// Copies of texts.
fn owned_list(alloc: Global, texts: &[Text]) -> Result<Items<Text>, NoMemory>
    ensures { IfOk result (λ copies. copies ≡ texts.now) }
{
    let mut copies = Items::new(alloc);
    for text in texts {
        copies.push(text.try_clone(alloc)?)?;
    }
    Ok(copies)
}

impl<'tree> ErrorStore<'tree> {
    ghost use Rattle.hir_reports.specs.Store.{Held, Keeps, nowhere, at_module, at_item, at_subitem, gained};

    /// No reports, and the root module as the place.
    pub fn new(alloc: Global) -> Self
        ensures { result ≡ nowhere }
    {
        ErrorStore {
            alloc,
            reports: Vec::new(alloc),
            module: &[],
            item: "",
            subitem: None,
        }
    }

    /// Sets the place to a module; no item of it, and so no method.
    pub fn set_module(&mut self, module: &'tree [Text])
        ensures { self.new ≡ at_module self.old «module».now }
    {
        self.module = module;
        self.item = "";
        self.subitem = None;
    }

    /// Sets the place to an item of the module; no method of it.
    pub fn set_item(&mut self, item: &'tree str)
        ensures { self.new ≡ at_item self.old item.now }
    {
        self.item = item;
        self.subitem = None;
    }

    /// Sets the place to a method of the item.
    pub fn set_subitem(&mut self, subitem: &'tree str)
        ensures { self.new ≡ at_subitem self.old (Some subitem.now) }
    {
        self.subitem = Some(subitem);
    }

    /// Sets the place back to the item.
    pub fn clear_subitem(&mut self)
        ensures { self.new ≡ at_subitem self.old None }
    {
        self.subitem = None;
    }

    /// Adds one report, at the place last set. `NoMemory` where there is no memory for it: then the store holds what it held.
    pub fn push(&mut self, error: LoweringError) -> Result<(), NoMemory>
        ensures ok { OnOk result (self.new ≡ gained self.old error) }
        ensures err { OnErr result (self.new ≡ self.old) }
        ensures kept { (earlier : Held) → Keeps earlier self.old → Keeps earlier self.new }
    {
        let context = ErrorContext {
            module: owned_list(self.alloc, self.module)?,
            item: Text::new(self.alloc, self.item)?,
            subitem: owned(self.alloc, self.subitem)?,
        };
        self.reports.push(LoweringReport { error, context })?;
        Ok(())
    }

    /// The number of reports.
    pub fn len(&self) -> usize
        ensures { result ≡ length self.now.reports }
    {
        self.reports.len()
    }

    /// Whether there is no report.
    pub fn is_empty(&self) -> bool
        ensures { IsTrue result ↔ (self.now.reports ≡ []) }
    {
        self.reports.is_empty()
    }

    /// Leaves the first `len` reports, and the place as it is. It takes no memory, so a caller goes back by it: where reports were
    /// added and the place is the same, the store is as it was when it had that many.
    pub fn truncate(&mut self, len: usize)
        ensures reports { self.new.reports ≡ take len self.old.reports }
        ensures place { self.new.place ≡ self.old.place }
        ensures back { (earlier : Held) → Keeps earlier self.old
            → len ≡ length earlier.reports
            → self.new ≡ earlier }
    {
        self.reports.truncate(len);
    }

    /// Hands out all reports, in order, and keeps none; the place stays.
    pub fn take_errors(&mut self) -> Vec<LoweringReport>
        ensures taken { result.items ≡ self.old.reports }
        ensures left { self.new.reports ≡ [] }
        ensures place { self.new.place ≡ self.old.place }
    {
        let empty = Vec::new(self.alloc);
        std::mem::replace(&mut self.reports, empty)
    }
}

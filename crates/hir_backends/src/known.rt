//! Lists of names and of pairs that are asked again and again.
//!
//! An input may give a backend a million pairs and ask for one in each of a million conditions. So each list here is kept twice, in
//! the order in which it is given, which is all that contracts see, and sorted, where a text is found by halving.

ghost use Rattle.std.specs.Prelude.{◌≡◌, IfOk, IsTrue, ◌↔◌, []};
ghost use Rattle.std.specs.Ordering.{nat_cmp};
ghost use Rattle.std.specs.Cmp.Lexicographic.{slice_cmp};
ghost use Rattle.hir_backends.specs.Known.{is_named, is_paired};
ghost use Rattle.hir_backends.specs.inside.Sorted.{IsSortedCopy, texts_cmp};

use bridge_decl::{Items, NoMemory, Text, clone_items, clone_texts};
use std::alloc::Global;
use std::cmp::Ordering;
use std::marker::Model;

/// Names in the order in which they are given. Whether a text is one of them takes about as many steps as their number has bits.
#[derive(Drop)]
pub struct Names {
    items: Items<Text>,
    sorted: Vec<Text>,
}

impl Model for Names {
    ghost use Rattle.std.specs.Prelude.{List, ℕ};
    ghost use Rattle.std.specs.Ordering.{nat_cmp};
    ghost use Rattle.std.specs.Cmp.Lexicographic.{slice_cmp};
    ghost use Rattle.hir_backends.specs.inside.Sorted.{IsSortedCopy};

    ghost Value = { List (List ℕ) };

    ghost view = { λ it. it.items };

    ghost invariant = { λ it. IsSortedCopy (slice_cmp nat_cmp) it.items it.sorted.items };
}

/// Copies of texts, sorted.
fn sorted_texts(alloc: Global, texts: &[Text]) -> Result<Vec<Text>, NoMemory>
    ensures { IfOk result (λ sorted. IsSortedCopy (slice_cmp nat_cmp) texts.now sorted.items) }
{
    let mut sorted = Vec::with_capacity(alloc, texts.len())?;
    for text in texts {
        sorted.push(text.try_clone(alloc)?)?;
    }
    sorted.sort()?;
    Ok(sorted)
}

impl Names {
    /// No names.
    pub fn empty(alloc: Global) -> Names
        ensures { result ≡ [] }
    {
        Names {
            items: Items::new(alloc),
            sorted: Vec::new(alloc),
        }
    }

    /// These names, in this order. `NoMemory` where there is no memory for sorted copies of them.
    pub fn new(alloc: Global, names: Items<Text>) -> Result<Names, NoMemory>
        ensures { IfOk result (λ it. it ≡ names) }
    {
        let sorted = sorted_texts(alloc, names.as_slice())?;
        Ok(Names {
            items: names,
            sorted,
        })
    }

    /// The names in order, lent.
    pub fn as_slice(&self) -> &[Text]
        ensures { result.now ≡ self.now }
    {
        self.items.as_slice()
    }

    /// Whether there are no names.
    pub fn is_empty(&self) -> bool
        ensures { IsTrue result ↔ (self.now ≡ []) }
    {
        self.items.is_empty()
    }

    /// Whether that text is one of the names.
    pub fn has(&self, name: &str) -> bool
        ensures { result ≡ is_named self.now name.now }
    {
        self.sorted
            .binary_search_by(
                |text: &Text|
                    ensures { result ≡ slice_cmp nat_cmp text.now name.entry.now }
                { text.as_str().cmp(name) },
            )
            .is_ok()
    }

    /// A copy, which is equal to the names.
    pub fn try_clone(&self, alloc: Global) -> Result<Names, NoMemory>
        ensures { IfOk result (λ copy. copy ≡ self.now) }
    {
        Names::new(alloc, clone_texts(alloc, &self.items)?)
    }
}

/// Pairs of a name and a value in the order in which they are given. Whether two texts are one of them takes about as many steps as
/// their number has bits.
#[derive(Drop)]
pub struct Pairs {
    items: Items<(Text, Text)>,
    sorted: Vec<(Text, Text)>,
}

impl Model for Pairs {
    ghost use Rattle.std.specs.Prelude.{List, ℕ};
    ghost use Rattle.hir_backends.specs.inside.Sorted.{IsSortedCopy, texts_cmp};

    ghost Value = { List (List ℕ × List ℕ) };

    ghost view = { λ it. it.items };

    ghost invariant = { λ it. IsSortedCopy texts_cmp it.items it.sorted.items };
}

/// A copy of a pair.
fn clone_pair(pair: &(Text, Text), alloc: Global) -> Result<(Text, Text), NoMemory>
    ensures { IfOk result (λ copy. copy ≡ pair.now) }
{
    Ok((pair.0.try_clone(alloc)?, pair.1.try_clone(alloc)?))
}

/// Copies of pairs, sorted.
fn sorted_pairs(alloc: Global, pairs: &[(Text, Text)]) -> Result<Vec<(Text, Text)>, NoMemory>
    ensures { IfOk result (λ sorted. IsSortedCopy texts_cmp pairs.now sorted.items) }
{
    let mut sorted = Vec::with_capacity(alloc, pairs.len())?;
    for pair in pairs {
        sorted.push(clone_pair(pair, alloc)?)?;
    }
    sorted.sort()?;
    Ok(sorted)
}

/// How a pair compares with the pair of two texts: by the names, and by the values where these are the same.
fn compare(pair: &(Text, Text), name: &str, value: &str) -> Ordering
    ensures { result ≡ texts_cmp pair.now (name.entry.now, value.entry.now) }
{
    match pair.0.as_str().cmp(name) {
        Ordering::Equal => pair.1.as_str().cmp(value),
        apart => apart,
    }
}

impl Pairs {
    /// No pairs.
    pub fn empty(alloc: Global) -> Pairs
        ensures { result ≡ [] }
    {
        Pairs {
            items: Items::new(alloc),
            sorted: Vec::new(alloc),
        }
    }

    /// These pairs, in this order. `NoMemory` where there is no memory for sorted copies of them.
    pub fn new(alloc: Global, pairs: Items<(Text, Text)>) -> Result<Pairs, NoMemory>
        ensures { IfOk result (λ it. it ≡ pairs) }
    {
        let sorted = sorted_pairs(alloc, pairs.as_slice())?;
        Ok(Pairs {
            items: pairs,
            sorted,
        })
    }

    /// The pairs in order, lent.
    pub fn as_slice(&self) -> &[(Text, Text)]
        ensures { result.now ≡ self.now }
    {
        self.items.as_slice()
    }

    /// Whether there are no pairs.
    pub fn is_empty(&self) -> bool
        ensures { IsTrue result ↔ (self.now ≡ []) }
    {
        self.items.is_empty()
    }

    /// Whether that name and that value are one of the pairs.
    pub fn has(&self, name: &str, value: &str) -> bool
        ensures { result ≡ is_paired self.now name.now value.now }
    {
        self.sorted
            .binary_search_by(
                |pair: &(Text, Text)|
                    ensures { result ≡ texts_cmp pair.now (name.entry.now, value.entry.now) }
                { compare(pair, name, value) },
            )
            .is_ok()
    }

    /// A copy, which is equal to the pairs.
    pub fn try_clone(&self, alloc: Global) -> Result<Pairs, NoMemory>
        ensures { IfOk result (λ copy. copy ≡ self.now) }
    {
        Pairs::new(alloc, clone_items(alloc, &self.items, clone_pair)?)
    }
}

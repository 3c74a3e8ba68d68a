//! Rust's identifiers.
//!
//! The rule is that of the Rust Reference, "Identifiers", with the strict and reserved keywords of edition 2021. A text is
//! taken as it stands: it isn't brought into a normal form first.

ghost use Rattle.std.specs.Prelude.{◌≡◌, ◌↔◌, IsTrue, IfOk, OnOk, IsErrOf, Some, Contains, map, nat_eq, refl};
ghost use Rattle.std.specs.Str.{chars};
ghost use Rattle.std.specs.Cmp.{partial_equiv_from_equiv};
ghost use Rattle.std.specs.Cmp.Lexicographic.{pointwise, slice_cmp, nat_list_eq_equiv, nat_list_cmp_total, texts_ties, texts_po};
ghost use Rattle.std.specs.Ordering.{nat_cmp, is_lt};
ghost use Rattle.bridge_text.specs.Ident.{reserved_words, path_words, MayStart, HasShape, IsPlain, IsIdent, MayBeRaw};
ghost use Rattle.bridge_text.specs.inside.Tables.{rises};

use crate::text::{NoMemory, Text};
use std::alloc::{AllocError, Global};
use std::cmp::Ordering;
use std::fmt;
use std::marker::Model;
use unicode_ident::{is_xid_continue, is_xid_start};

/// Why no identifier was made of a text.
#[derive(Clone, Copy, Debug, PartialEq, Eq)]
pub enum IdentFault {
    /// The text isn't an identifier.
    Bad,
    /// There was no memory for the copy.
    NoMemory,
}

impl From<AllocError> for IdentFault {
    ghost use Rattle.std.specs.Prelude.{◌≡◌};
    ghost use Rattle.bridge_text.specs.declared.idents.IdentFault.{IdentFault};

    ghost from_gives = { λ _ fault. fault ≡ IdentFault.NoMemory };

    fn from(_error: AllocError) -> IdentFault {
        IdentFault::NoMemory
    }
}

/// An identifier. Contracts see it as the bytes of its text.
#[derive(Drop)]
pub struct IdentBuf {
    text: Text,
}

impl Model for IdentBuf {
    ghost use Rattle.std.specs.Prelude.{List, ℕ};
    ghost use Rattle.bridge_text.specs.Ident.{IsIdent};

    ghost Value = { List ℕ };

    ghost view = { λ it. it.text };

    ghost invariant = { λ it. IsIdent it.text };
}

impl IdentBuf {
    /// A copy of the text, where it is an identifier by [`is_ident`]. The fault is `Bad` exactly where it isn't one, and
    /// `NoMemory` only at an identifier.
    pub fn new(alloc: Global, s: &str) -> Result<IdentBuf, IdentFault>
        ensures ok { IfOk result (λ ident. ident ≡ s.now) }
        ensures valid { OnOk result (IsIdent s.now) }
        ensures bad { IsErrOf result IdentFault.Bad ↔ ¬ (IsIdent s.now) }
        ensures no_memory { IsErrOf result IdentFault.NoMemory → IsIdent s.now }
    {
        if !is_ident(s) {
            return Err(IdentFault::Bad);
        }
        Ok(IdentBuf {
            text: Text::new(alloc, s)?,
        })
    }

    /// The identifier's text, with its `r#` if it has one.
    pub fn as_str(&self) -> &str
        ensures value { result.now ≡ self.now }
        ensures valid { IsIdent self.now }
    {
        self.text.as_str()
    }

    /// A copy, which is equal to the identifier.
    pub fn try_clone(&self, alloc: Global) -> Result<IdentBuf, NoMemory>
        ensures { IfOk result (λ copy. copy ≡ self.now) }
    {
        Ok(IdentBuf {
            text: self.text.try_clone(alloc)?,
        })
    }
}

impl PartialEq for IdentBuf {
    ghost eq = { pointwise nat_eq };

    ghost laws = { partial_equiv_from_equiv nat_list_eq_equiv };

    fn eq(&self, other: &IdentBuf) -> bool {
        self.as_str() == other.as_str()
    }
}

impl Eq for IdentBuf {
    ghost laws = { nat_list_eq_equiv };
}

impl PartialOrd for IdentBuf {
    ghost partial_cmp = { λ first second. Some (slice_cmp nat_cmp first second) };

    ghost laws = { texts_po };

    fn partial_cmp(&self, other: &IdentBuf) -> Option<Ordering> {
        Some(self.cmp(other))
    }
}

impl Ord for IdentBuf {
    ghost cmp = { slice_cmp nat_cmp };

    ghost total = { nat_list_cmp_total };

    ghost matches_partial_cmp = { λ first second. refl };

    ghost matches_eq = { texts_ties };

    fn cmp(&self, other: &IdentBuf) -> Ordering {
        self.as_str().cmp(other.as_str())
    }
}

impl fmt::Display for IdentBuf {
    ghost output = { λ ident. Some ident };

    fn fmt<W: fmt::Write>(&self, f: &mut fmt::Formatter<W>) -> fmt::Result {
        f.write_str(self.as_str())
    }
}

// In the order of their bytes.
const RESERVED_WORDS: [&str; 51] = [
    "Self", "abstract", "as", "async", "await", "become", "box", "break", "const", "continue",
    "crate", "do", "dyn", "else", "enum", "extern", "false", "final", "fn", "for", "if", "impl",
    "in", "let", "loop", "macro", "match", "mod", "move", "mut", "override", "priv", "pub", "ref",
    "return", "self", "static", "struct", "super", "trait", "true", "try", "type", "typeof",
    "unsafe", "unsized", "use", "virtual", "where", "while", "yield",
];

// Whether the table has the text. It is searched by halves.
fn has_word(table: &[&str], s: &str) -> bool
    requires { IsTrue (rises (λ a b. is_lt (slice_cmp nat_cmp a.now b.now)) table.now) }
    ensures { IsTrue result ↔ Contains (map (λ word. word.now) table.now) s.now }
{
    table.binary_search(&s).is_ok()
}

fn is_reserved(s: &str) -> bool
    ensures { IsTrue result ↔ Contains reserved_words s.now }
{
    has_word(&RESERVED_WORDS, s)
}

fn is_path_word(s: &str) -> bool
    ensures { IsTrue result ↔ Contains path_words s.now }
{
    matches!(s, "Self" | "crate" | "self" | "super")
}

fn may_start(c: char) -> bool
    ensures { IsTrue result ↔ MayStart c }
{
    c == '_' || is_xid_start(c)
}

fn has_shape(s: &str) -> bool
    ensures { IsTrue result ↔ HasShape (chars s.now) }
{
    let mut chars = s.chars();
    match chars.next() {
        Some(first) => may_start(first) && chars.all(is_xid_continue),
        None => false,
    }
}

fn is_plain(s: &str) -> bool
    ensures { IsTrue result ↔ IsPlain s.now }
{
    has_shape(s) && s != "_" && !is_reserved(s)
}

fn may_be_raw(name: &str) -> bool
    ensures { IsTrue result ↔ MayBeRaw name.now }
{
    is_plain(name) || (is_reserved(name) && !is_path_word(name))
}

/// Whether the text is an identifier of Rust: a plain one, or `r#` before a plain one or before a keyword that begins no path.
#[tactic(auto, unfolding(crate::specs::Ident::IsIdent))]
pub fn is_ident(s: &str) -> bool
    ensures { IsTrue result ↔ IsIdent s.now }
{
    match s.strip_prefix("r#") {
        Some(name) => may_be_raw(name),
        None => is_plain(s),
    }
}

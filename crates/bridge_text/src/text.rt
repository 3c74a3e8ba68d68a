//! Owned text.

ghost use Rattle.std.specs.Prelude.{◌≡◌, ◌++◌, IfOk, Some, nat_eq, refl};
ghost use Rattle.std.specs.Cmp.{partial_equiv_from_equiv};
ghost use Rattle.std.specs.Cmp.Lexicographic.{pointwise, slice_cmp, nat_list_eq_equiv, nat_list_cmp_total, texts_ties, texts_po};
ghost use Rattle.std.specs.Ordering.{nat_cmp};

use arrayvec::ArrayString;
use std::alloc::{AllocError, Global};
use std::cmp::Ordering;
use std::fmt;
use std::marker::Model;

/// Want of memory: the one error of a call that only takes memory.
pub type NoMemory = AllocError;

/// Where the bytes of a text lie: in the value itself if there are 16 at most, as in most names, so that they take no memory of their own.
#[derive(Drop)]
enum Kept {
    Short(ArrayString<16>),
    Long(String),
}

/// A text that contracts see as its bytes, so that equal texts are equal values.
pub struct Text {
    kept: Kept,
}

/// By hand, so that where a text is let go the proof has one call, and not the ways that it may be kept in.
impl Drop for Text {
    fn drop(self) {
        let Text { kept: _ } = self;
    }
}

impl Model for Text {
    ghost use Rattle.std.specs.Prelude.{List, ℕ};
    ghost use Rattle.bridge_text.specs.inside.Kept.{kept_bytes};

    ghost Value = { List ℕ };

    ghost view = { λ it. kept_bytes it.kept };
}

impl Text {
    /// A copy of the text.
    pub fn new(alloc: Global, s: &str) -> Result<Text, NoMemory>
        ensures { IfOk result (λ t. t ≡ s.now) }
    {
        let kept = match ArrayString::from(s) {
            Ok(short) => Kept::Short(short),
            Err(_) => Kept::Long(String::from_str(alloc, s)?),
        };
        Ok(Text { kept })
    }

    /// The three texts one after another, as one.
    pub(crate) fn joined(
        alloc: Global,
        front: &str,
        middle: &str,
        back: &str,
    ) -> Result<Text, NoMemory>
        ensures { IfOk result (λ t. t ≡ front.now ++ middle.now ++ back.now) }
    {
        let mut text = String::from_str(alloc, front)?;
        text.push_str(middle)?;
        text.push_str(back)?;
        Ok(Text::from(text))
    }

    /// The text, lent.
    pub fn as_str(&self) -> &str
        ensures { result.now ≡ self.now }
    {
        match &self.kept {
            Kept::Short(text) => text.as_str(),
            Kept::Long(text) => text.as_str(),
        }
    }

    /// A copy, which is equal to the text.
    pub fn try_clone(&self, alloc: Global) -> Result<Text, NoMemory>
        ensures { IfOk result (λ copy. copy ≡ self.now) }
    {
        Text::new(alloc, self.as_str())
    }
}

/// The string's bytes as a text: those of a long one are moved, and not copied.
impl From<String> for Text {
    ghost use Rattle.std.specs.Prelude.{◌≡◌, string_bytes};

    ghost from_gives = { λ string text. text ≡ string_bytes string };

    fn from(string: String) -> Text {
        let kept = match ArrayString::from(string.as_str()) {
            Ok(short) => Kept::Short(short),
            Err(_) => Kept::Long(string),
        };
        Text { kept }
    }
}

impl PartialEq for Text {
    ghost eq = { pointwise nat_eq };

    ghost laws = { partial_equiv_from_equiv nat_list_eq_equiv };

    fn eq(&self, other: &Text) -> bool {
        self.as_str() == other.as_str()
    }
}

impl Eq for Text {
    ghost laws = { nat_list_eq_equiv };
}

impl PartialOrd for Text {
    ghost partial_cmp = { λ first second. Some (slice_cmp nat_cmp first second) };

    ghost laws = { texts_po };

    fn partial_cmp(&self, other: &Text) -> Option<Ordering> {
        Some(self.cmp(other))
    }
}

impl Ord for Text {
    ghost cmp = { slice_cmp nat_cmp };

    ghost total = { nat_list_cmp_total };

    ghost matches_partial_cmp = { λ first second. refl };

    ghost matches_eq = { texts_ties };

    fn cmp(&self, other: &Text) -> Ordering {
        self.as_str().cmp(other.as_str())
    }
}

impl fmt::Display for Text {
    ghost output = { λ text. Some text };

    fn fmt<W: fmt::Write>(&self, f: &mut fmt::Formatter<W>) -> fmt::Result {
        f.write_str(self.as_str())
    }
}

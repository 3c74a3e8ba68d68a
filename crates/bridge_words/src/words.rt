//! The words of the form, each of which stands for one value.

ghost use Rattle.std.specs.Prelude.{◌≡◌};
ghost use Rattle.serde_json.specs.View.{view};
ghost use Rattle.bridge_form.specs.Form.{find_word, one_word};
ghost use Rattle.bridge_form.specs.Given.{Gives};

use bridge_decl::{DocType, PrimitiveType, RustLinkDisplay, StringEncoding};
use bridge_form::{Read, ReadFault, text};
use serde_json::Value;
use std::alloc::Global;

/// Values for which words stand.
pub trait Word: Copy + 'static {
    ghost use Rattle.std.specs.Prelude.{List, ℕ};
    ghost use Rattle.bridge_words.specs.Tables.{all_written};

    /// The words, each with its value.
    ghost words: { List (List ℕ × Self) };

    /// The words, each with its value.
    fn words() -> &'static [(&'static str, Self)]
        ensures { all_written result.now ≡ words };
}

/// The words of values of a type, with their values.
macro_rules! words {
    ($values:ident { $($value:ident $word:literal),* $(,)? }) => {
        &[$(($word, $values::$value)),*]
    };
}

/// The value for which a word stands.
#[tactic(auto, using(crate::proofs::WordLemmas::found_here, crate::proofs::WordLemmas::none_next))]
pub fn find_word<W: Word>(name: &str) -> Option<W>
    ensures { result ≡ find_word W.words name.now }
{
    for (word, value) in W::words() {
        if *word == name {
            return Some(*value);
        }
    }
    None
}

/// The value whose word the JSON value is.
pub fn one_word<W: Word>(alloc: Global, value: &Value) -> Read<W>
    ensures { Gives result ((one_word W.words).read (view value.now)) }
{
    match find_word(text(alloc, value)?) {
        Some(word) => Ok(word),
        None => Err(ReadFault::wrong_form(alloc)),
    }
}

#[tactic(auto, unfolding(crate::specs::Words::primitive_words))]
impl Word for PrimitiveType {
    ghost use Rattle.bridge_words.specs.Words.{primitive_words};

    ghost words = { primitive_words };

    fn words() -> &'static [(&'static str, PrimitiveType)] {
        words!(PrimitiveType {
            i8 "i8", u8 "u8", i16 "i16", u16 "u16", i32 "i32", u32 "u32", i64 "i64", u64 "u64",
            isize "isize", usize "usize", i128 "i128", u128 "u128", f32 "f32", f64 "f64",
            bool "bool", char "char", byte "byte",
        })
    }
}

#[tactic(auto, unfolding(crate::specs::Words::encoding_words))]
impl Word for StringEncoding {
    ghost use Rattle.bridge_words.specs.Words.{encoding_words};

    ghost words = { encoding_words };

    fn words() -> &'static [(&'static str, StringEncoding)] {
        words!(StringEncoding {
            Utf8 "utf8", UnvalidatedUtf8 "unvalidated_utf8", UnvalidatedUtf16 "unvalidated_utf16",
        })
    }
}

#[tactic(auto, unfolding(crate::specs::Words::doc_words))]
impl Word for DocType {
    ghost use Rattle.bridge_words.specs.Words.{doc_words};

    ghost words = { doc_words };

    fn words() -> &'static [(&'static str, DocType)] {
        words!(DocType {
            Struct "Struct", StructField "StructField", Enum "Enum", EnumVariant "EnumVariant",
            EnumVariantField "EnumVariantField", Trait "Trait", FnInStruct "FnInStruct",
            FnInTypedef "FnInTypedef", FnInEnum "FnInEnum", FnInTrait "FnInTrait",
            DefaultFnInTrait "DefaultFnInTrait", Fn "Fn", Mod "Mod", Constant "Constant",
            AssociatedConstantInEnum "AssociatedConstantInEnum",
            AssociatedConstantInTrait "AssociatedConstantInTrait",
            AssociatedConstantInStruct "AssociatedConstantInStruct", Macro "Macro",
            AssociatedTypeInEnum "AssociatedTypeInEnum",
            AssociatedTypeInTrait "AssociatedTypeInTrait",
            AssociatedTypeInStruct "AssociatedTypeInStruct", Typedef "Typedef",
        })
    }
}

#[tactic(auto, unfolding(crate::specs::Words::display_words))]
impl Word for RustLinkDisplay {
    ghost use Rattle.bridge_words.specs.Words.{display_words};

    ghost words = { display_words };

    fn words() -> &'static [(&'static str, RustLinkDisplay)] {
        words!(RustLinkDisplay {
            Normal "normal", Compact "compact", Hidden "hidden",
        })
    }
}

/// A kind of items.
#[derive(Clone, Copy)]
pub enum ItemKind {
    Struct,
    OutStruct,
    Opaque,
    Enum,
    Trait,
    Function,
}

#[tactic(auto, unfolding(crate::specs::Words::item_kind_words))]
impl Word for ItemKind {
    ghost use Rattle.bridge_words.specs.Words.{item_kind_words};

    ghost words = { item_kind_words };

    fn words() -> &'static [(&'static str, ItemKind)] {
        words!(ItemKind {
            Struct "struct", OutStruct "out_struct", Opaque "opaque", Enum "enum", Trait "trait",
            Function "function",
        })
    }
}

//! The words of the JSON form: texts each of which stands for one value.
//!
//! A primitive type is written by its name, and so are the encoding of a text, the kind of a documented path, how a link is shown, and the
//! kind of an item:
//!
//! ```json
//! {"kind": "out_struct"}
//! ```
//!
//! Each kind of words is a table of texts and values (`Word::words`), and stands once here and once in the definitions (`specs/Words`). So
//! `one_word` has `ItemKind::OutStruct` for `"out_struct"`, and the wrong form for `"outstruct"` and for 7; `find_word` asks for a text alone.
#![tactic(auto)]

mod words;

pub use words::{ItemKind, Word, find_word, one_word};

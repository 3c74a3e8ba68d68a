//! Whether what is told piece by piece is a word.
//!
//! A user names a callable or a leaf as a page prints it: `Page::open`, `mark.page`. To find it, each of many names is compared with the
//! word. No name is built for that: its pieces are taken off the front of the word, one after another.
//!
//! | piece of the name | left of the word `mark.page` |
//! |---|---|
//! | | `mark.page` |
//! | `mark` | `.page` |
//! | `.` | `page` |
//! | `page` | nothing: it is this name |
//! | `line` | in place of `page`: it is another |
//!
//! A [`Comparing`] keeps what is left. A name whose pieces are at hand gives them by [`Comparing::take`]; of a value that shows its name by
//! `Display` [`is_shown_as`] tells whether that is the word.
#![tactic(auto)]

mod comparing;
mod shown;

pub use comparing::Comparing;
pub use shown::is_shown_as;

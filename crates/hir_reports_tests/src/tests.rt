//! Tests, one module a subject.

mod store;
mod texts;

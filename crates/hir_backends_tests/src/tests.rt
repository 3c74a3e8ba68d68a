//! Tests, one module a subject.

mod conditions;
mod docs;
mod lines;
mod links;
mod support;
mod urls;
mod validator;

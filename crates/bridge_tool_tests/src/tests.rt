//! Tests, one module a subject.

mod declarations;
mod examples;
mod explanations;
mod generating;
mod inputs;
mod links;
mod program;
mod validation;

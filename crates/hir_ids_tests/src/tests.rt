//! Worked examples.

mod idents;
mod ids;
mod owners;
mod primitives;

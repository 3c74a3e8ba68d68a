//! Contexts in a notation: what structs hold, and how many lifetimes all have.

mod asked;
mod definitions;
mod fitting;
mod made;
mod nesting;
mod paths;

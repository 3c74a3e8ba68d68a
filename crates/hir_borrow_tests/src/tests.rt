//! Contexts in a notation: what structs hold, what a method takes, and what may be borrowed.

mod calls;
mod comparing;
mod deep;
mod fields;
mod made;
mod rows;
mod signatures;
mod slices;
mod telling;

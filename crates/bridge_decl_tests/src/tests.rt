mod clones;
mod idents;
mod index;
mod rename;
mod text;

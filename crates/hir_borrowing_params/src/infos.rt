//! What is told of inputs and of fields.

use hir_life::{Lifetime, LifetimeEnv};
use std::collections::{BTreeMap, BTreeSet};

/// What is told of an input.
pub enum ParamBorrowInfo<'tcx> {
    /// Nothing of it may be borrowed by what is returned.
    NotBorrowed,
    /// A slice from which nothing may be borrowed: it has to be there for the call alone.
    TemporarySlice,
    /// A slice from which something may be borrowed.
    BorrowedSlice,
    /// A struct from which something may be borrowed.
    Struct(StructBorrowInfo<'tcx>),
    /// An opaque from which something may be borrowed.
    BorrowedOpaque,
}

/// By hand, so that where one is let go the proof has one call.
impl Drop for ParamBorrowInfo<'_> {
    fn drop(self) {
        match self {
            ParamBorrowInfo::NotBorrowed
            | ParamBorrowInfo::TemporarySlice
            | ParamBorrowInfo::BorrowedSlice
            | ParamBorrowInfo::Struct(_)
            | ParamBorrowInfo::BorrowedOpaque => (),
        }
    }
}

/// What is told of a struct that is an input, or a field of a struct.
pub struct StructBorrowInfo<'tcx> {
    /// Its own lifetimes.
    pub env: &'tcx LifetimeEnv,
    /// For each of its lifetimes that counts those of the method, or of the struct around it, that
    /// may borrow through it.
    pub borrowed_struct_lifetime_map: BTreeMap<Lifetime, BTreeSet<Lifetime>>,
}

/// By hand, so that where one is let go the proof has one call.
impl Drop for StructBorrowInfo<'_> {
    fn drop(self) {
        let StructBorrowInfo {
            env: _,
            borrowed_struct_lifetime_map: _,
        } = self;
    }
}

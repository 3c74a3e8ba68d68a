//! Copies of declarations: those of the inputs in which every object and every form of a value stands.

use super::accepted::{ACCEPTED, ACCEPTED_PARTS};
use bridge_ast::{Module, name_of};
use bridge_read::read_input;
use std::alloc::Global;
use std::test::*;

/// Whether two modules have as many parts, and items of the same names.
fn has_same_names(one: &Module, other: &Module) -> bool {
    if one.items.len() != other.items.len() || one.aliases.len() != other.aliases.len() {
        return false;
    }
    for (item, copy) in one.items.as_slice().iter().zip(other.items.as_slice()) {
        if name_of(item).as_str() != name_of(copy).as_str() {
            return false;
        }
    }
    true
}

/// Whether the module is copied.
fn is_copied(alloc: Global, module: &Module) -> bool {
    match module.try_clone(alloc) {
        Ok(copy) => {
            let is_same = has_same_names(module, &copy);
            drop(copy);
            is_same
        }
        Err(_) => false,
    }
}

/// Whether each module is.
fn are_copied(alloc: Global, modules: &[Module]) -> bool {
    for module in modules {
        if !is_copied(alloc, module) {
            return false;
        }
    }
    true
}

/// Whether the input is read, and each of its modules is copied.
fn is_read_and_copied(alloc: Global, text: &str) -> bool {
    match read_input(alloc, text.as_bytes()) {
        Ok(input) => {
            let is_so = are_copied(alloc, input.env.modules());
            drop(input);
            is_so
        }
        Err(_) => false,
    }
}

/// The number of the first input of which a module isn't copied.
fn first_uncopied(alloc: Global, rows: &[&str]) -> Option<usize> {
    for (row, text) in rows.iter().enumerate() {
        if !is_read_and_copied(alloc, text) {
            return Some(row);
        }
    }
    None
}

#[test]
fn declarations_of_every_kind_are_copied(rt: HostRuntime) {
    assert_eq!(rt; first_uncopied(rt.alloc(), &ACCEPTED), None);
    assert_eq!(rt; first_uncopied(rt.alloc(), &ACCEPTED_PARTS), None);
}

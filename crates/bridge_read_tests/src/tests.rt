//! Inputs, read whole: what is read, and which fault is told where.

mod accepted;
mod bridge;
mod clones;
mod faulty;
mod faulty_attrs;
mod faulty_parts;
mod not_json;
mod parts;
mod unfit;

use accepted::{ACCEPTED, ACCEPTED_PARTS};
use bridge_read::{Input, InputFault, read_input};
use faulty::{FAULTY_INPUTS, FAULTY_ITEMS, FAULTY_MODULES, FAULTY_OTHER_ITEMS, FAULTY_SETTINGS};
use faulty_attrs::{FAULTY_CONDITIONS, FAULTY_DOCS, FAULTY_LITERALS, FAULTY_MARKS};
use faulty_parts::{FAULTY_METHODS, FAULTY_TYPES, FAULTY_WORDS};
use not_json::{NOT_JSON, NOT_UTF8};
use std::alloc::Global;
use unfit::{UNFIT_LIFETIMES, UNFIT_NAMES};

/// Whether it is the fault of that kind at that pointer.
fn is_fault(answer: &Result<Input, InputFault>, kind: &str, pointer: &str) -> bool {
    match answer {
        Err(
            InputFault::NotDeclarations {
                kind: told,
                pointer: at,
            },
        ) => told.text() == kind && at.as_str() == pointer,
        _ => false,
    }
}

/// Whether the bytes are answered with a fault of that kind at that pointer.
fn is_told(alloc: Global, bytes: &[u8], kind: &str, pointer: &str) -> bool {
    let answer = read_input(alloc, bytes);
    let is_so = is_fault(&answer, kind, pointer);
    drop(answer);
    is_so
}

/// Whether the text is read.
fn is_read(alloc: Global, text: &str) -> bool {
    let answer = read_input(alloc, text.as_bytes());
    let is_read = answer.is_ok();
    drop(answer);
    is_read
}

/// What a row of faults says, `kind at "pointer": input`, in this order.
fn parts_of<'r>(row: &'r str) -> Option<(&'r str, &'r str, &'r str)> {
    let (kind, rest) = row.split_once(" at \"")?;
    let (pointer, text) = rest.split_once("\": ")?;
    Some((kind, pointer, text))
}

/// The number of the first row whose fault isn't told so.
fn first_untold(alloc: Global, rows: &[&str]) -> Option<usize> {
    for (row, text) in rows.iter().enumerate() {
        let (kind, pointer, input) = match parts_of(text) {
            Some(parts) => parts,
            None => return Some(row),
        };
        if !is_told(alloc, input.as_bytes(), kind, pointer) {
            return Some(row);
        }
    }
    None
}

/// The number of the first row that isn't read.
fn first_unread(alloc: Global, rows: &[&str]) -> Option<usize> {
    for (row, text) in rows.iter().enumerate() {
        if !is_read(alloc, text) {
            return Some(row);
        }
    }
    None
}

#[test]
fn inputs_of_the_form_are_read(rt: HostRuntime) {
    assert_eq!(rt; first_unread(rt.alloc(), &ACCEPTED), None);
}

#[test]
fn parts_of_the_form_are_read(rt: HostRuntime) {
    assert_eq!(rt; first_unread(rt.alloc(), &ACCEPTED_PARTS), None);
}

#[test]
fn faults_of_the_input_are_told(rt: HostRuntime) {
    assert_eq!(rt; first_untold(rt.alloc(), &FAULTY_INPUTS), None);
}

#[test]
fn faults_of_settings_are_told(rt: HostRuntime) {
    assert_eq!(rt; first_untold(rt.alloc(), &FAULTY_SETTINGS), None);
}

#[test]
fn faults_of_modules_are_told(rt: HostRuntime) {
    assert_eq!(rt; first_untold(rt.alloc(), &FAULTY_MODULES), None);
}

#[test]
fn faults_of_items_are_told(rt: HostRuntime) {
    assert_eq!(rt; first_untold(rt.alloc(), &FAULTY_ITEMS), None);
}

#[test]
fn faults_of_other_items_are_told(rt: HostRuntime) {
    assert_eq!(rt; first_untold(rt.alloc(), &FAULTY_OTHER_ITEMS), None);
}

#[test]
fn faults_of_methods_are_told(rt: HostRuntime) {
    assert_eq!(rt; first_untold(rt.alloc(), &FAULTY_METHODS), None);
}

#[test]
fn faults_of_words_are_told(rt: HostRuntime) {
    assert_eq!(rt; first_untold(rt.alloc(), &FAULTY_WORDS), None);
}

#[test]
fn faults_of_types_are_told(rt: HostRuntime) {
    assert_eq!(rt; first_untold(rt.alloc(), &FAULTY_TYPES), None);
}

#[test]
fn faults_of_marks_are_told(rt: HostRuntime) {
    assert_eq!(rt; first_untold(rt.alloc(), &FAULTY_MARKS), None);
}

#[test]
fn faults_of_conditions_are_told(rt: HostRuntime) {
    assert_eq!(rt; first_untold(rt.alloc(), &FAULTY_CONDITIONS), None);
}

#[test]
fn faults_of_literals_are_told(rt: HostRuntime) {
    assert_eq!(rt; first_untold(rt.alloc(), &FAULTY_LITERALS), None);
}

#[test]
fn faults_of_documentation_are_told(rt: HostRuntime) {
    assert_eq!(rt; first_untold(rt.alloc(), &FAULTY_DOCS), None);
}

#[test]
fn names_that_are_taken_are_told(rt: HostRuntime) {
    assert_eq!(rt; first_untold(rt.alloc(), &UNFIT_NAMES), None);
}

#[test]
fn lifetimes_that_do_not_fit_are_told(rt: HostRuntime) {
    assert_eq!(rt; first_untold(rt.alloc(), &UNFIT_LIFETIMES), None);
}

#[test]
fn what_is_no_json_is_told(rt: HostRuntime) {
    for (row, text) in NOT_JSON.iter().enumerate() {
        assert!(rt;
            is_told(rt.alloc(), text.as_bytes(), "not JSON", ""),
            "in row {row}"
        );
    }
    for (row, bytes) in NOT_UTF8.iter().enumerate() {
        assert!(rt; is_told(rt.alloc(), bytes, "not JSON", ""), "in row {row}");
    }
}

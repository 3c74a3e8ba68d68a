//! What a row of the table is compared with.

use super::{backend, catalog};
use crate::tests::notation::parse;
use bridge_decl::NoMemory;
use bridge_grid::{TypeFault, TypeFaults, test_callback_param, test_param, test_return, test_type};
use bridge_rules::{Catalog, Position};
use hir_backends::BackendAttrSupport;
use hir_config::LoweringConfig;
use hir_number::NumberedType;
use std::alloc::Global;

/// The positions, in the order of the table.
const POSITIONS: [Position; 6] = [
    Position::Field,
    Position::Param,
    Position::CallbackReturn,
    Position::CallbackParam,
    Position::OutField,
    Position::Return,
];

fn word(fault: TypeFault) -> &'static str {
    match fault {
        TypeFault::Broken(rule) => rule.name(),
        TypeFault::Denied(flag) => flag.text(),
    }
}

/// The names of rules and flags, with `+` between each two, or `ok`.
pub fn words(alloc: Global, faults: &TypeFaults) -> Result<String, NoMemory> {
    let mut text = String::new(alloc);
    for fault in faults.as_slice() {
        if !text.is_empty() {
            text.push_str("+")?;
        }
        text.push_str(word(*fault))?;
    }
    if text.is_empty() {
        text.push_str("ok")?;
    }
    Ok(text)
}

fn put_run(text: &mut String, cell: &str, times: u8) -> Result<(), NoMemory> {
    if times == 0 {
        return Ok(());
    }
    if !text.is_empty() {
        text.push_str(" ")?;
    }
    text.push_str(cell)?;
    text.push_str(match times {
        2 => "*2",
        3 => "*3",
        4 => "*4",
        5 => "*5",
        6 => "*6",
        _ => "",
    })
}

/// Cells as a text: equal ones that follow one another stand once, with their number after a `*`.
pub fn row(alloc: Global, cells: &[String]) -> Result<String, NoMemory> {
    let mut text = String::new(alloc);
    let mut last = "";
    let mut times: u8 = 0;
    for cell in cells {
        if cell.as_str() == last {
            times = times.saturating_add(1);
        } else {
            put_run(&mut text, last, times)?;
            last = cell.as_str();
            times = 1;
        }
    }
    put_run(&mut text, last, times)?;
    Ok(text)
}

/// What a type breaks at a position; callbacks may take references.
fn faults_at(
    alloc: Global,
    support: &BackendAttrSupport,
    catalog: &Catalog,
    at: Position,
    ty: &NumberedType,
) -> Result<TypeFaults, NoMemory> {
    let config = LoweringConfig {
        unsafe_references_in_callbacks: true,
    };
    match at {
        Position::Field | Position::OutField => test_type(alloc, support, catalog, at, ty),
        Position::Param => test_param(alloc, support, config, catalog, ty),
        Position::CallbackParam => test_callback_param(alloc, support, config, catalog, ty),
        Position::CallbackReturn | Position::Return => {
            test_return(alloc, support, catalog, at, ty)
        }
    }
}

/// What a type breaks at each of the positions.
pub fn cells(
    alloc: Global,
    is_able: bool,
    positions: &[Position],
    ty: &NumberedType,
) -> Result<String, NoMemory> {
    let support = backend(is_able);
    let catalog = catalog(alloc)?;
    let mut cells = Vec::new(alloc);
    for at in positions {
        let faults = faults_at(alloc, &support, &catalog, *at, ty)?;
        cells.push(words(alloc, &faults)?)?;
    }
    row(alloc, cells.as_slice())
}

/// The row of the table of the type that a text writes, for a backend without features or with all.
pub fn row_of(alloc: Global, is_able: bool, text: &str) -> Result<String, NoMemory> {
    let ty = parse(alloc, text)?;
    cells(alloc, is_able, &POSITIONS, &ty)
}

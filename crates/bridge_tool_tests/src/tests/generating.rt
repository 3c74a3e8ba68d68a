//! Declarations of any size, lowered and summed up: of each eight functions the first may return two leaves, the next three, and the last nine.

use super::program::{runs_to, words_of};
use bridge_ast::Env;
use bridge_generate::generated;
use bridge_summary::print_summary;
use bridge_tool::{
    BridgeReport, Input, MemSink, MemSource, PlainSink, lower_and_borrow, read_input, run,
};
use std::alloc::{AllocError, Global};

// No declaration, and a backend with functions outside of types.
const FUNCTIONS: &str = r#"{"root":{},"backend":{"supports":["free_functions"]}}"#;

/// Whether this is the summary of what is reported.
fn is_summary(alloc: Global, report: &BridgeReport, text: &str) -> bool {
    let mut sink = PlainSink::new(alloc);
    let printed = print_summary(&mut sink, report.callables.as_slice());
    printed.is_ok() && sink.bytes() == text.as_bytes()
}

/// Whether the declarations break no rule under the settings of an input, and this is their summary.
fn sum_up_under(alloc: Global, env: &Env, settings: &Input, text: &str) -> bool {
    match lower_and_borrow(alloc, env, settings.config, &settings.validator) {
        Ok(report) => {
            let is_so = is_summary(alloc, &report, text);
            drop(report);
            is_so
        }
        Err(refused) => {
            drop(refused);
            false
        }
    }
}

/// The same where functions outside of types are supported.
fn sum_up_to(alloc: Global, env: &Env, text: &str) -> bool {
    match read_input(alloc, FUNCTIONS.as_bytes()) {
        Ok(settings) => {
            let is_so = sum_up_under(alloc, env, &settings, text);
            drop(settings);
            is_so
        }
        Err(fault) => {
            drop(fault);
            false
        }
    }
}

#[test]
fn eight_generated_break_no_rule(rt: HostRuntime) -> Result<(), AllocError> {
    let env = generated(rt.alloc(), 8)?;
    let is_so = sum_up_to(rt.alloc(), &env, "callables 8\nlisted 44\nok\n");
    drop(env);
    assert!(rt; is_so);
    Ok(())
}

#[test]
fn ten_thousand_generated_break_no_rule(rt: HostRuntime) -> Result<(), AllocError> {
    let env = generated(rt.alloc(), 10000)?;
    let is_so = sum_up_to(rt.alloc(), &env, "callables 10000\nlisted 55000\nok\n");
    drop(env);
    assert!(rt; is_so);
    Ok(())
}

// How many structs and functions are made, and their summary.
const SUMMARIES: [(&str, &str); 5] = [
    ("1", "callables 1\nlisted 2\nok\n"),
    ("7", "callables 7\nlisted 35\nok\n"),
    ("8", "callables 8\nlisted 44\nok\n"),
    ("9", "callables 9\nlisted 46\nok\n"),
    ("10000", "callables 10000\nlisted 55000\nok\n"),
];

#[test]
fn made_declarations_are_summed_up(rt: HostRuntime) -> Result<(), AllocError> {
    for (count, text) in &SUMMARIES {
        assert!(rt;
            runs_to(rt.alloc(), &["gen", *count], "", 0, text)?,
            "{count}"
        );
    }
    Ok(())
}

// Whatever the input is, it isn't read.
#[test]
fn nothing_is_read_where_declarations_are_made(rt: HostRuntime) -> Result<(), AllocError> {
    for (count, text) in &SUMMARIES {
        assert!(rt;
            runs_to(rt.alloc(), &["gen", *count], "{", 0, text)?,
            "{count}"
        );
    }
    Ok(())
}

// Words after `gen` that are no number from 1 to 10,000.
const NO_COUNTS: [&str; 14] = [
    "",
    "0",
    "00",
    "08",
    "+8",
    "-8",
    "8 ",
    " 8",
    "8.0",
    "eight",
    "10001",
    "4294967304",
    "18446744073709551624",
    "340282366920938463463374607431768211464",
];

#[test]
fn counts_are_from_1_to_10000(rt: HostRuntime) -> Result<(), AllocError> {
    for count in &NO_COUNTS {
        assert!(rt;
            runs_to(rt.alloc(), &["gen", *count], FUNCTIONS, 6, "")?,
            "{count}"
        );
    }
    Ok(())
}

// Words that are no command, since the number lacks, one is too many, or one is another.
const NO_COMMANDS: [&[&str]; 5] = [
    &["gen"],
    &["Gen", "8"],
    &["gen", "8", "8"],
    &["8", "gen"],
    &["check", "8"],
];

#[test]
fn gen_needs_its_words(rt: HostRuntime) -> Result<(), AllocError> {
    for (row, words) in NO_COMMANDS.iter().enumerate() {
        assert!(rt;
            runs_to(rt.alloc(), words, FUNCTIONS, 6, "")?,
            "in row {row}"
        );
    }
    Ok(())
}

// The status of `gen 8`, and the bytes of the summary that were taken, where all reads fail and a write does.
fn over_failing(alloc: Global, write: usize) -> Result<Option<(u8, usize)>, AllocError> {
    let words = words_of(alloc, &["gen", "8"])?;
    let mut source = MemSource::new(alloc, FUNCTIONS.as_bytes(), 1, &[0])?;
    let mut sink = MemSink::new(alloc, 10, &[write])?;
    let end = run(alloc, &words, &mut source, &mut sink);
    let is_begun = b"callables 8\nlisted 44\nok\n".starts_with(sink.bytes());
    let taken = sink.bytes().len();
    drop(sink);
    drop(source);
    drop(words);
    Ok(if is_begun { Some((end, taken)) } else { None })
}

// The writes that fail, with the status and the bytes taken. The summary has 25 bytes: in pieces of 10, three writes.
const FAILING: [(usize, u8, usize); 4] = [(3, 0, 25), (0, 4, 0), (1, 4, 10), (2, 4, 20)];

#[test]
fn no_read_fails_where_nothing_is_read(rt: HostRuntime) -> Result<(), AllocError> {
    for (write, status, taken) in &FAILING {
        let end = over_failing(rt.alloc(), *write)?;
        assert_eq!(rt; end, Some((*status, *taken)), "write {write}");
    }
    Ok(())
}

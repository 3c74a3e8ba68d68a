//! Runs of the whole program in memory.

use super::inputs::{INPUTS, NOT_JSON, PICK, PICK_PAGE};
use bridge_tool::{MemSink, MemSource, PlainSink, PlainSource, run};
use std::alloc::{AllocError, Global};

/// The words of a command line.
pub fn words_of(alloc: Global, texts: &[&str]) -> Result<Vec<String>, AllocError> {
    let mut words = Vec::new(alloc);
    for text in texts {
        words.push(String::from_str(alloc, text)?)?;
    }
    Ok(words)
}

/// Whether the run on the input ends with the status and prints the text.
pub fn runs_to(
    alloc: Global,
    texts: &[&str],
    input: &str,
    status: u8,
    text: &str,
) -> Result<bool, AllocError> {
    let words = words_of(alloc, texts)?;
    let mut source = PlainSource::new(input.as_bytes());
    let mut sink = PlainSink::new(alloc);
    let end = run(alloc, &words, &mut source, &mut sink);
    let is_so = end == status && sink.bytes() == text.as_bytes();
    drop(sink);
    drop(words);
    Ok(is_so)
}

#[test]
fn inputs_have_their_answers(rt: HostRuntime) -> Result<(), AllocError> {
    for (input, status, text) in &INPUTS {
        assert!(rt; runs_to(rt.alloc(), &[], input, *status, text)?, "{input}");
    }
    Ok(())
}

// Words with their status and text.
const WORDS: [(&[&str], u8, &str); 5] = [
    (&["check"], 0, PICK_PAGE),
    (&["chek"], 6, ""),
    (&["Check"], 6, ""),
    (&[""], 6, ""),
    (&["check", "check"], 6, ""),
];

#[test]
fn words_are_compared_exactly(rt: HostRuntime) -> Result<(), AllocError> {
    for (row, (words, status, text)) in WORDS.iter().enumerate() {
        assert!(rt;
            runs_to(rt.alloc(), words, PICK, *status, text)?,
            "in row {row}"
        );
    }
    Ok(())
}

// The status, and how many bytes of the page were taken, over pieces of a length with a call of each kind that fails.
fn over_failing(
    alloc: Global,
    piece: usize,
    read: usize,
    write: usize,
) -> Result<Option<(u8, usize)>, AllocError> {
    let mut source = MemSource::new(alloc, PICK.as_bytes(), piece.max(1), &[read])?;
    let mut sink = MemSink::new(alloc, piece.max(1), &[write])?;
    let end = run(alloc, &[], &mut source, &mut sink);
    let is_begun = PICK_PAGE.as_bytes().starts_with(sink.bytes());
    let taken = sink.bytes().len();
    drop(sink);
    drop(source);
    Ok(if is_begun { Some((end, taken)) } else { None })
}

// Lengths of pieces, the read and the write that fail, the status, and the bytes taken. The input has 392 bytes and its page 77: in
// pieces of 16, 25 reads and one that finds the end, and 5 writes.
const FAILING: [(usize, usize, usize, u8, usize); 17] = [
    (1, 999, 999, 0, 77),
    (2, 999, 999, 0, 77),
    (3, 999, 999, 0, 77),
    (16, 999, 999, 0, 77),
    (64, 999, 999, 0, 77),
    (1000, 999, 999, 0, 77),
    (16, 0, 999, 3, 0),
    (16, 7, 999, 3, 0),
    (16, 25, 999, 3, 0),
    (16, 26, 999, 0, 77),
    (16, 999, 0, 4, 0),
    (16, 999, 1, 4, 16),
    (16, 999, 2, 4, 32),
    (16, 999, 3, 4, 48),
    (16, 999, 4, 4, 64),
    (16, 999, 5, 0, 77),
    (16, 0, 0, 3, 0),
];

#[test]
fn failing_calls_have_their_status(rt: HostRuntime) -> Result<(), AllocError> {
    for (row, (piece, read, write, status, taken)) in FAILING.iter().enumerate() {
        let end = over_failing(rt.alloc(), *piece, *read, *write)?;
        assert_eq!(rt; end, Some((*status, *taken)), "in row {row}");
    }
    Ok(())
}

// The status of so many spaces, where it prints the text.
fn run_on_spaces(alloc: Global, count: usize, text: &str) -> Result<Option<u8>, AllocError> {
    let spaces = vec![in alloc; b' '; count]?;
    let mut source = PlainSource::new(&spaces);
    let mut sink = PlainSink::new(alloc);
    let end = run(alloc, &[], &mut source, &mut sink);
    let is_so = sink.bytes() == text.as_bytes();
    drop(sink);
    drop(spaces);
    Ok(if is_so { Some(end) } else { None })
}

#[test]
fn two_to_the_26_bytes_are_read_and_no_more(rt: HostRuntime) -> Result<(), AllocError> {
    let most = 1 << 26;
    assert!(rt; run_on_spaces(rt.alloc(), most, NOT_JSON)? == Some(2));
    assert!(rt; run_on_spaces(rt.alloc(), most + 1, "")? == Some(7));
    Ok(())
}

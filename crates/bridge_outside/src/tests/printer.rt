use crate::printer::{
    Printer, finish, print_line, put, put_line, put_number, put_separator, put_text,
};
use crate::sink::{MemSink, PlainSink, SinkFault, StdSink};
use std::alloc::{AllocError, Global};
use std::test::Fail;

// Three times what the printer holds back, each in two writes.
fn long_text(alloc: Global) -> Result<Vec<u8>, AllocError> {
    let mut text = Vec::new(alloc);
    for i in 0..3072_u32 {
        text.push((i % 251) as u8)?;
    }
    Ok(text)
}

// Prints the text in pieces, where the write of that number fails: how it ends, and how many bytes came, if they begin the text.
fn print_failing(
    alloc: Global,
    text: &[u8],
    failing: usize,
) -> Result<Option<(Result<(), SinkFault>, usize)>, AllocError> {
    let mut sink = MemSink::new(alloc, 512, &[failing])?;
    let mut out = Printer::new();
    for piece in text.chunks(64) {
        put(&mut sink, &mut out, piece);
    }
    let end = finish(&mut sink, &mut out);
    if !text.starts_with(sink.bytes()) {
        return Ok(None);
    }
    Ok(Some((end, sink.bytes().len())))
}

#[test]
fn prints_up_to_a_failing_write(rt: HostRuntime) -> Result<(), Fail> {
    let text = long_text(rt.alloc())?;
    for failing in 0..6 {
        assert_eq!(rt;
            print_failing(rt.alloc(), &text, failing)?,
            Some((Err(SinkFault::Failed), 512 * failing))
        );
    }
    assert_eq!(rt; print_failing(rt.alloc(), &text, 6)?, Some((Ok(()), 3072)));
    Ok(())
}

#[test]
fn prints_a_piece_that_is_longer_than_what_is_held_back(rt: HostRuntime) -> Result<(), Fail> {
    let text = long_text(rt.alloc())?;
    let mut sink = PlainSink::new(rt.alloc());
    let mut out = Printer::new();
    put_text(&mut sink, &mut out, "..");
    put(&mut sink, &mut out, &text);
    assert_eq!(rt; finish(&mut sink, &mut out), Ok(()));
    assert_eq!(rt; sink.bytes().strip_prefix(b".."), Some(text.as_slice()));
    Ok(())
}

fn put_list(sink: &mut MemSink, out: &mut Printer, numbers: &[usize]) {
    for (place, number) in numbers.iter().enumerate() {
        put_separator(sink, out, ", ", place);
        put_number(sink, out, *number);
    }
}

// Whether a line and a list are printed in writes of so many bytes.
fn prints_in(alloc: Global, piece: usize) -> Result<bool, AllocError> {
    let mut sink = MemSink::new(alloc, piece.max(1), &[])?;
    let mut out = Printer::new();
    put_line(&mut sink, &mut out, "ok");
    put_number(&mut sink, &mut out, 0);
    put_text(&mut sink, &mut out, ": ");
    put_list(&mut sink, &mut out, &[7, 18446744073709551615]);
    let end = finish(&mut sink, &mut out);
    Ok(end == Ok(()) && sink.bytes() == b"ok\n0: 7, 18446744073709551615".as_slice())
}

#[test]
fn prints_lines_and_lists(rt: HostRuntime) -> Result<(), Fail> {
    for piece in [1, 2, 3, 64] {
        assert!(rt; prints_in(rt.alloc(), piece)?, "writes of {piece}");
    }
    Ok(())
}

#[test]
fn prints_a_line_to_a_writer_of_std(rt: HostRuntime) -> Result<(), Fail> {
    let mut written = Vec::new(rt.alloc());
    assert_eq!(rt; print_line(&mut StdSink::new(&mut written), "a.b"), Ok(()));
    assert_eq!(rt; written.as_slice(), b"a.b\n".as_slice());
    Ok(())
}

#[test]
fn prints_up_to_the_end_of_a_full_writer(rt: HostRuntime) -> Result<(), Fail> {
    let mut room = [b'.'; 4];
    let mut full = StdSink::new(&mut room[..]);
    assert_eq!(rt; print_line(&mut full, "a.b.c"), Err(SinkFault::Failed));
    assert_eq!(rt; room, *b"a.b.");
    Ok(())
}

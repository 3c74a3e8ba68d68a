use super::TEXT;
use crate::bytes::{ReadFault, read_all};
use crate::source::{MemSource, StdSource};
use std::alloc::{AllocError, Global};
use std::test::Fail;

// Whether the text is read whole, in pieces of that length, where the read of that number fails. A fault is told.
fn reads_text(
    alloc: Global,
    piece: usize,
    fail: usize,
) -> Result<Result<bool, ReadFault>, AllocError> {
    let mut source = MemSource::new(alloc, TEXT, piece.max(1), &[fail])?;
    match read_all(alloc, &mut source) {
        Ok(bytes) => Ok(Ok(bytes.as_slice() == TEXT)),
        Err(fault) => Ok(Err(fault)),
    }
}

#[test]
fn reads_pieces_up_to_a_failing_read(rt: HostRuntime) -> Result<(), Fail> {
    // In pieces of 3 the 13 bytes are five reads, and the sixth finds the end.
    let rows = [
        (1, 99, Ok(true)),
        (2, 99, Ok(true)),
        (3, 99, Ok(true)),
        (13, 99, Ok(true)),
        (64, 99, Ok(true)),
        (3, 0, Err(ReadFault::Failed)),
        (3, 2, Err(ReadFault::Failed)),
        (3, 4, Err(ReadFault::Failed)),
        (3, 5, Err(ReadFault::Failed)),
        (3, 6, Ok(true)),
    ];
    for (piece, fail, want) in rows {
        assert_eq!(rt;
            reads_text(rt.alloc(), piece, fail)?,
            want,
            "pieces of {piece}, {fail} fails"
        );
    }
    Ok(())
}

#[test]
fn reads_all_of_a_reader_of_std(rt: HostRuntime) -> Result<(), Fail> {
    let read = read_all(rt.alloc(), &mut StdSource::new(TEXT));
    assert_eq!(rt; read?.as_slice(), TEXT);
    Ok(())
}

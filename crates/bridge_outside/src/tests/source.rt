use super::Broken;
use crate::source::{Failed, MemSource, Source, StdSource};
use std::test::Fail;

#[test]
fn reads_on_after_a_failure(rt: HostRuntime) -> Result<(), Fail> {
    let mut source = MemSource::new(rt.alloc(), b"abc", 2, &[1])?;
    let mut buf = [b'.'; 4];
    let reads = [
        (Ok(2), *b"ab.."),
        (Err(Failed), *b"ab.."),
        (Ok(1), *b"cb.."),
        (Ok(0), *b"cb.."),
    ];
    for (want, held) in reads {
        assert_eq!(rt; source.read(&mut buf), want);
        assert_eq!(rt; buf, held);
    }
    Ok(())
}

#[test]
fn a_read_of_std_that_fails_is_told(rt: HostRuntime) -> Result<(), Fail> {
    let mut broken = StdSource::new(Broken { writes: false });
    assert_eq!(rt; broken.read(&mut [b'.'; 4]), Err(Failed));
    Ok(())
}

use super::{Broken, TEXT};
use crate::sink::{Sink, SinkFault, StdSink};
use std::test::Fail;

#[test]
fn a_write_or_a_flush_of_std_that_fails_is_told(rt: HostRuntime) -> Result<(), Fail> {
    for writes in [false, true] {
        let mut broken = StdSink::new(Broken { writes });
        assert_eq!(rt; broken.write(TEXT), Err(SinkFault::Failed));
    }
    Ok(())
}

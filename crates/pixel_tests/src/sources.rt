//! Sources and sinks: what they tell, and their faults.

use io_edge::{Failed, MemSink, MemSource, Sink, Source, StdSink, StdSource};
use std::test::*;

#[test]
fn standard_reader(rt: HostRuntime) {
    let mut source = StdSource::new(b"abc".as_slice());
    let mut buf = [0u8; 2];
    for count in [2, 1, 0] {
        assert_eq!(rt; source.read(&mut buf), Ok(count));
    }
    assert_eq!(rt; buf, *b"cb");
}

// Room for two bytes: the third is refused.
#[test]
fn standard_writer(rt: HostRuntime) {
    let mut room = [0u8; 2];
    let mut sink = StdSink::new(room.as_mut_slice());
    for told in [Ok(2), Err(Failed)] {
        assert_eq!(rt; sink.write(b"abc"), told);
    }
}

#[test]
fn source_in_memory(rt: HostRuntime) -> Result<(), Fail> {
    let alloc = rt.alloc();
    let mut source = MemSource::new(b"abc".to_vec(alloc)?, 2, vec![in alloc; 2]?);
    let mut buf = [0u8; 4];
    for told in [Ok(2), Err(Failed), Ok(1), Ok(0)] {
        assert_eq!(rt; source.read(&mut buf), told);
    }
    assert_eq!(rt; source.faults(), 1);
    Ok(())
}

#[test]
fn sink_in_memory(rt: HostRuntime) -> Result<(), Fail> {
    let alloc = rt.alloc();
    let mut sink = MemSink::new(vec![in alloc; 0; 3]?, 2, vec![in alloc; 2]?);
    for told in [Ok(2), Err(Failed), Ok(1), Err(Failed)] {
        assert_eq!(rt; sink.write(b"abc"), told);
    }
    assert_eq!(rt; sink.faults(), 2);
    assert_eq!(rt; sink.bytes(), b"aba".as_slice());
    Ok(())
}

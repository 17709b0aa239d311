//! The standard streams over a slice and a vector, and a file of the disk.
use gate_io::{DiskFiles, Fetched, Files, Got, Put, Sink, Source, StdSink, StdSource};
use std::test::*;

#[test]
fn reads_and_writes(rt: HostRuntime) -> Result<(), Fail> {
    let mut input = StdSource::new(b"ab".as_slice());
    let mut into = [0; 4];
    assert_eq!(rt; input.read(&mut into), Got::Bytes(2));
    assert_eq!(rt; into, [b'a', b'b', 0, 0]);
    assert_eq!(rt; input.read(&mut into), Got::End);
    let mut output = StdSink::new(Vec::new(rt.alloc()));
    assert_eq!(rt; output.write(b"ab"), Put::Took(2));
    Ok(())
}

/// A file that the system itself keeps, so that nothing has to be written first.
#[test]
fn reads_a_file(rt: HostRuntime) -> Result<(), Fail> {
    let alloc = rt.alloc();
    let mut files = DiskFiles::new(&rt);
    match files.fetch(alloc, b"/proc/self/status") {
        Fetched::Found(text) => assert!(rt; text.as_slice().starts_with(b"Name:")),
        _ => assert!(rt; false),
    }
    assert!(rt;
        matches!(
            files.fetch(alloc, b"/proc/thrift_gate\xff"),
            Fetched::Absent
        )
    );
    assert!(rt; matches!(files.fetch(alloc, b"/proc"), Fetched::Failed));
    Ok(())
}

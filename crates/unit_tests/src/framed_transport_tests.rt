//! A frame that is written, read and let go.
use framed_transport::{FrameBuf, Next, begin, close};
use gate_io::Out;
use std::test::*;

#[test]
fn there_and_back(rt: HostRuntime) -> Result<(), Fail> {
    let mut out = Out::open(rt.alloc(), 16).ok().ok_or("memory")?;
    let at = begin(&mut out);
    out.push(b"ab");
    close(&mut out, at);
    assert_eq!(rt; out.bytes(), b"\0\0\0\x02ab".as_slice());
    let mut frames = FrameBuf::open(rt.alloc(), 8).ok().ok_or("memory")?;
    assert_eq!(rt; frames.feed(out.bytes()), 6);
    let Next::Frame(frame) = frames.frame() else {
        return Err("a frame stands there".into());
    };
    assert_eq!(rt; frame, b"ab".as_slice());
    frames.drop_frame();
    assert_eq!(rt; frames.held(), 0);
    Ok(())
}

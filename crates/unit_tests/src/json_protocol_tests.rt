//! Messages that are read, and the places of faults.
use json_protocol::JsonRead;
use protocol_traits::{Fault, Hint, Reason, WireRead};
use std::test::Fail;

/// A message with so many events.
fn read(frame: &[u8], hint: Hint, events: u32) -> Result<(), Fault> {
    let mut room = [0; 64];
    if frame.len() > 64 {
        return Err(Fault {
            place: 0,
            reason: Reason::Trailing,
        });
    }
    let mut reader = JsonRead::over(frame, &mut room);
    reader.head()?;
    for _ in 0..events {
        reader.next(hint)?;
    }
    reader.finish()
}

fn at(place: usize, reason: Reason) -> Result<(), Fault> {
    Err(Fault { place, reason })
}

#[test]
fn headers(rt: HostRuntime) -> Result<(), Fail> {
    assert_eq!(rt;
        read(b" [1 , \"p\\u0069ng\",1,1,{ } ] ", Hint::Unknown, 1),
        Ok(())
    );
    assert_eq!(rt;
        read(b"[1,\"\\uD83D\",1,1,{}]", Hint::Unknown, 1),
        at(4, Reason::BadString)
    );
    assert_eq!(rt;
        read(b"[1,\"ping\",1,01,{}]", Hint::Unknown, 1),
        at(12, Reason::BadNumber)
    );
    assert_eq!(rt;
        read(b"[1,\"ping\",1,1,{}] ]", Hint::Unknown, 1),
        at(18, Reason::Trailing)
    );
    Ok(())
}

#[test]
fn bodies(rt: HostRuntime) -> Result<(), Fail> {
    let list = b"[1,\"a\",1,1,{\"1\":{\"lst\":[\"i32\",2147483647,1]}}]";
    assert_eq!(rt; read(list, Hint::Unknown, 9), at(42, Reason::BadToken));
    let map = b"[1,\"a\",1,1,{\"1\":{\"map\":[\"tf\",\"dbl\",1,{\"1\":-1e5}]}}]";
    assert_eq!(rt; read(map, Hint::Unknown, 6), Ok(()));
    let none = b"[1,\"a\",1,1,{\"1\":{\"map\":[\"i8\",\"i8\",0,{}]},2}]";
    assert_eq!(rt; read(none, Hint::Unknown, 3), at(41, Reason::BadId));
    let blob = b"[1,\"f\",1,1,{\"1\":{\"str\":\"QUJ\"}}]";
    assert_eq!(rt; read(blob, Hint::Blob, 3), at(23, Reason::BadBase64));
    assert_eq!(rt; read(blob, Hint::Text, 3), Ok(()));
    Ok(())
}

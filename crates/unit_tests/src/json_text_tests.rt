//! Vectors of RFC 4648, section 10, and numbers and strings of RFC 8259.
use gate_io::Out;
use json_text::{Scan, read_blob, read_int, read_number, read_text, write_blob, write_text};
use std::test::Fail;

#[test]
fn numbers_and_integers(rt: HostRuntime) -> Result<(), Fail> {
    assert_eq!(rt; read_number(b"[-0.5e+10]", 1), Scan::Whole(8, 9));
    assert_eq!(rt; read_number(b"1.", 0), Scan::Short);
    assert_eq!(rt; read_number(b"01", 0), Scan::Bad(0));
    assert_eq!(rt;
        read_int(b"-9223372036854775808,", 0, i64::MIN, i64::MAX),
        Scan::Whole(i64::MIN, 20)
    );
    assert_eq!(rt; read_int(b"-", 0, 0, 1), Scan::Bad(0));
    Ok(())
}

#[test]
fn strings_are_read(rt: HostRuntime) -> Result<(), Fail> {
    let mut room = [0; 32];
    assert_eq!(rt;
        read_text(b"\"a\\u00e9\\uD83D\\uDE00\"", 0, &mut room),
        Scan::Whole(7, 21)
    );
    assert_eq!(rt; &room[..7], b"a\xc3\xa9\xf0\x9f\x98\x80".as_slice());
    assert_eq!(rt;
        read_blob(b"\"Zm9vYg==\"", 0, &mut room),
        Scan::Whole(4, 10)
    );
    assert_eq!(rt; &room[..4], b"foob".as_slice());
    assert_eq!(rt; read_blob(b"\"Zm9vYh\"", 0, &mut room), Scan::Bad(0));
    Ok(())
}

#[test]
fn words_are_written(rt: HostRuntime) -> Result<(), Fail> {
    let Ok(mut out) = Out::open(rt.alloc(), 64) else {
        panic!(rt; "no memory");
    };
    write_text(b"a\"\x01", &mut out);
    write_blob(b"fooba", &mut out);
    assert_eq!(rt; out.bytes(), b"\"a\\\"\\u0001\"\"Zm9vYmE\"".as_slice());
    Ok(())
}

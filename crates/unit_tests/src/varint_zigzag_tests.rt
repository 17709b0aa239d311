//! Numbers as the Compact protocol writes them: padded, widest, cut off, too wide.
use gate_io::Out;
use std::test::*;
use varint_zigzag::{
    VarFault, read_u16, read_u32, read_u64, unzigzag32, unzigzag64, write_u32, zigzag32, zigzag64,
};

#[test]
fn reads_padded_and_short(rt: HostRuntime) {
    assert_eq!(rt; read_u16(&[0x81, 0x80, 0x00, 7]), Ok((1, 3)));
    let widest = [0xff, 0xff, 0xff, 0xff, 0x0f];
    assert_eq!(rt; read_u32(&widest), Ok((u32::MAX, 5)));
    assert_eq!(rt;
        read_u32(&[0xff, 0xff, 0xff, 0xff, 0x1f]),
        Err(VarFault::Bad)
    );
    assert_eq!(rt; read_u32(&widest[..4]), Err(VarFault::Short));
    assert_eq!(rt; read_u64(&[0xff; 9]), Err(VarFault::Short));
}

#[test]
#[tactic(auto, unfolding(varint_zigzag::specs::Varint::shortest))]
fn writes_and_folds(rt: HostRuntime) -> Result<(), Fail> {
    let mut out = Out::open(rt.alloc(), 20).ok().ok_or("there is memory")?;
    write_u32(300, &mut out);
    assert_eq!(rt; out.bytes(), [0xac, 2].as_slice());
    for (signed, folded) in [(0, 0), (-1, 1), (1, 2), (i32::MIN, u32::MAX)] {
        assert_eq!(rt; zigzag32(signed), folded);
        assert_eq!(rt; unzigzag32(folded), signed);
    }
    assert_eq!(rt; unzigzag64(zigzag64(i64::MIN)), i64::MIN);
    Ok(())
}

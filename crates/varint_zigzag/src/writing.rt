//! The shortest bytes of a number.
ghost use Rattle.std.specs.Prelude.{◌≡◌, ◌+◌, ◌≤◌, ◌<◌, ◌++◌, length};
ghost use Rattle.varint_zigzag.specs.Varint.{shortest};

use gate_io::Out;

/// Appends the shortest bytes of a number, one to five (the varints of the Compact protocol specification).
#[inline(always)]
pub fn write_u32(v: u32, out: &mut Out)
    requires { length out.old.bytes + length (shortest v) ≤ out.old.room }
    ensures { out.new ≡ record out.old { bytes = out.old.bytes ++ shortest v } }
{
    write_u64(u64::from(v), out);
}

/// Appends the shortest bytes of a number, one to ten (the varints of the Compact protocol specification).
#[inline(always)]
pub fn write_u64(v: u64, out: &mut Out)
    requires { length out.old.bytes + length (shortest v) ≤ out.old.room }
    ensures { out.new ≡ record out.old { bytes = out.old.bytes ++ shortest v } }
{
    if v < 128 {
        out.push_byte(v as u8);
    } else {
        write_groups(v, out);
    }
}

// Builds the bytes before it appends them, all at once.
fn write_groups(v: u64, out: &mut Out)
    requires { length out.old.bytes + length (shortest v) ≤ out.old.room }
    ensures { out.new ≡ record out.old { bytes = out.old.bytes ++ shortest v } }
{
    let mut bytes = [0; 10];
    let mut count = 0;
    let mut rest = v;
    while rest >= 128 {
        bytes[count] = (rest % 128) as u8 + 128;
        count += 1;
        rest /= 128;
    }
    bytes[count] = rest as u8;
    out.push(&bytes[..count + 1]);
}

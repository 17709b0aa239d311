//! Numbers in a line.
ghost use Rattle.std.specs.Prelude.{◌≡◌, ◌+◌, ◌≤◌, ◌++◌, length};

use gate_io::Out;
use itoa::{Buffer, Integer};

/// The most bytes that a number takes, with its sign: 39 digits and one more for the greatest of 128 bits.
pub const NUMBER_ROOM: usize = 40;

/// Appends a number in decimal digits, for which there must be room.
pub fn push_number<I: Integer>(line: &mut Out, number: I)
    requires { length line.old.bytes + NUMBER_ROOM ≤ line.old.room }
    ensures text { line.new ≡ record line.old { bytes = line.old.bytes ++ I.text number } }
    ensures short { length line.new.bytes ≤ length line.old.bytes + NUMBER_ROOM }
{
    let mut digits = Buffer::new();
    line.push(digits.format(number).as_bytes());
}

//! The name of a frame, as it is told.
ghost use Rattle.std.specs.Prelude.{◌≡◌, ◌+◌, ◌*◌, ◌≤◌, ◌<◌, ◌++◌, length, flat_map};
ghost use Rattle.message_show.specs.Texts.{byte_text, quoted, upper_digit};
ghost use Rattle.refusal_lines.specs.Lines.{name_text};

use crate::header::NAME_BYTES;
use gate_io::Out;

/// The room for a name: four bytes for each that is told, two quotes and two dots.
pub(crate) const NAME_ROOM: usize = 4 * NAME_BYTES + 4;

/// Appends a name, or the front of a longer one and two dots.
#[tactic(auto, unfolding(crate::specs::Lines::name_text))]
pub(crate) fn push_name(line: &mut Out, front: &[u8], is_longer: bool)
    requires short { length front.now ≤ NAME_BYTES }
    requires room { length line.old.bytes + NAME_ROOM ≤ line.old.room }
    ensures text { line.new ≡ record line.old { bytes = line.old.bytes ++ name_text front.now is_longer } }
    ensures short { length line.new.bytes ≤ length line.old.bytes + NAME_ROOM }
{
    push_quoted(line, front);
    if is_longer {
        line.push(b"..");
    }
}

/// Appends bytes between quotes, as a shown message has a string.
#[tactic(auto, unfolding(message_show::specs::Texts::quoted))]
fn push_quoted(line: &mut Out, bytes: &[u8])
    requires { length line.old.bytes + (4 * length bytes.now + 2) ≤ line.old.room }
    ensures text { line.new ≡ record line.old { bytes = line.old.bytes ++ quoted bytes.now } }
    ensures short { length line.new.bytes ≤ length line.old.bytes + (4 * length bytes.now + 2) }
{
    line.push(b"\"");
    push_printed(line, bytes);
    line.push(b"\"");
}

/// Appends each byte as it is printed.
fn push_printed(line: &mut Out, bytes: &[u8])
    requires { length line.old.bytes + 4 * length bytes.now ≤ line.old.room }
    ensures text { line.new ≡ record line.old { bytes = line.old.bytes ++ flat_map byte_text bytes.now } }
    ensures short { length line.new.bytes ≤ length line.old.bytes + 4 * length bytes.now }
{
    for byte in bytes {
        push_printed_byte(line, *byte);
    }
}

/// Appends a byte as it is printed. `show`, which prints many, looks each up in a table; these are few.
#[tactic(auto, unfolding(message_show::specs::Texts::byte_text, message_show::specs::Texts::upper_byte))]
fn push_printed_byte(line: &mut Out, byte: u8)
    requires { length line.old.bytes + 4 ≤ line.old.room }
    ensures text { line.new ≡ record line.old { bytes = line.old.bytes ++ byte_text byte } }
    ensures short { length line.new.bytes ≤ length line.old.bytes + 4 }
{
    match byte {
        b'"' | b'\\' => line.push(&[b'\\', byte]),
        b' '..=b'~' => line.push_byte(byte),
        _ => line.push(&[b'\\', b'x', upper_digit(byte / 16), upper_digit(byte % 16)]),
    }
}

/// A digit, A to F for 10 to 15.
#[tactic(auto, unfolding(message_show::specs::Texts::upper_digit))]
fn upper_digit(n: u8) -> u8
    requires { n < 16 }
    ensures { result ≡ upper_digit n }
{
    if n < 10 { n + b'0' } else { n + 55 }
}

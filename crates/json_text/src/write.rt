//! What is written, in its plain spelling.
ghost use Rattle.std.specs.Prelude.{◌≡◌, ◌+◌, ◌≤◌, ◌<◌, ◌++◌, ◌∷◌, [], length, take, drop};
ghost use Rattle.std.specs.Fmt.{signed_decimal};
ghost use Rattle.std.specs.Char.{digit_char};
ghost use Rattle.json_text.specs.Plain.{byte_spelling, text_spelling};

use crate::run::plain_end;
use gate_io::Out;
use itoa::Buffer;

pub fn write_int(value: i64, out: &mut Out)
    requires { length out.old.bytes + length (signed_decimal value) ≤ out.old.room }
    ensures { out.new ≡ record out.old { bytes = out.old.bytes ++ signed_decimal value } }
{
    let mut buffer = Buffer::new();
    out.push(buffer.format(value).as_bytes());
}

pub(crate) fn hex(digit: u8) -> u8
    requires { digit < 16 }
    ensures { result ≡ digit_char digit }
{
    if digit < 10 {
        b'0' + digit
    } else {
        b'a' + digit - 10
    }
}

#[tactic(auto, unfolding(crate::specs::Plain::byte_spelling))]
fn write_byte(byte: u8, out: &mut Out)
    requires { length out.old.bytes + length (byte_spelling byte) ≤ out.old.room }
    ensures { out.new ≡ record out.old { bytes = out.old.bytes ++ byte_spelling byte } }
{
    match byte {
        b'"' => out.push(b"\\\""),
        b'\\' => out.push(b"\\\\"),
        8 => out.push(b"\\b"),
        12 => out.push(b"\\f"),
        b'\n' => out.push(b"\\n"),
        b'\r' => out.push(b"\\r"),
        b'\t' => out.push(b"\\t"),
        0..32 => out.push(&[b'\\', b'u', b'0', b'0', hex(byte / 16), hex(byte % 16)]),
        _ => out.push(&[byte]),
    }
}

/// Appends the text as a JSON string. The text is UTF-8; that is what makes it one.
pub fn write_text(text: &[u8], out: &mut Out)
    requires { length out.old.bytes + length (text_spelling text.now) ≤ out.old.room }
    ensures { out.new ≡ record out.old { bytes = out.old.bytes ++ text_spelling text.now } }
{
    out.push(b"\"");
    let mut from = 0;
    'runs: loop {
        let stop = plain_end(text, from);
        out.push(&text[from..stop]);
        if stop == text.len() {
            break 'runs;
        }
        write_byte(text[stop], out);
        from = stop + 1;
    }
    out.push(b"\"");
}

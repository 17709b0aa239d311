//! Base64 strings, as they are written.
ghost use Rattle.std.specs.Prelude.{◌≡◌, ◌+◌, ◌*◌, ◌/◌, ◌≤◌, ◌++◌, length, take};
ghost use Rattle.json_text.specs.Blob.{symbols_of, blob_spelling};

use base64::engine::general_purpose::STANDARD_NO_PAD;
use cell_writes::lay;
use gate_io::Out;

/// The symbols of some bytes, at the front of the buffer.
#[tactic(auto, unfolding(crate::specs::Blob::symbols_of))]
fn encode(bytes: &[u8], buffer: &mut [u8]) -> usize
    requires { (4 * length bytes.now + 2) / 3 ≤ length buffer.old }
    ensures symbols { take result buffer.new ≡ symbols_of bytes.now }
    ensures bound { result ≤ length buffer.new }
    ensures kept { length buffer.new ≡ length buffer.old }
{
    match STANDARD_NO_PAD.encode_slice(bytes, buffer) {
        Ok(size) => size,
        Err(_) => 0,
    }
}

/// Appends the bytes as a base64 string without padding.
pub fn write_blob(bytes: &[u8], out: &mut Out)
    requires { length out.old.bytes + length (blob_spelling bytes.now) ≤ out.old.room }
    ensures { out.new ≡ record out.old { bytes = out.old.bytes ++ blob_spelling bytes.now } }
{
    out.push(b"\"");
    let mut buffer = [0; 1024];
    let mut from = 0;
    'pieces: while from < bytes.len() {
        let stop = bytes.len().min(from + 768);
        let size = encode(&bytes[from..stop], &mut buffer);
        out.push(&buffer[..size]);
        from = stop;
    }
    out.push(b"\"");
}

/// Lays the bytes as a base64 string without padding into the cells from a place on, and gives the place behind it.
pub fn lay_blob(cells: &mut [u8], into: usize, bytes: &[u8]) -> usize
    requires { into + length (blob_spelling bytes.now) ≤ length cells.old }
    ensures laid { take result cells.new ≡ take into cells.old ++ blob_spelling bytes.now }
    ensures place { result ≡ into + length (blob_spelling bytes.now) }
{
    let to = lay(cells, into, b"\"");
    let behind = to + encode(bytes, &mut cells[to..]);
    lay(cells, behind, b"\"")
}

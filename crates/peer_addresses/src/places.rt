//! Where a byte stands in a word.
ghost use Rattle.std.specs.Prelude.{◌≡◌};
ghost use Rattle.peer_addresses.specs.Places.{place};

/// The place of the first byte of this value, or the length where there is none.
pub fn place(mark: u8, word: &[u8]) -> usize
    ensures { result ≡ place mark word.now }
{
    for (i, byte) in word.iter().enumerate() {
        if *byte == mark {
            return i;
        }
    }
    word.len()
}

//! Whether a varint that was read stands by its shortest bytes.
ghost use Rattle.std.specs.Prelude.{◌≡◌, ◌+◌, ◌≤◌, ◌<◌, length, true};
ghost use Rattle.kept_forms.specs.Shortest.{IsTight};

/// Whether a varint between two places has no more bytes than it needs.
#[inline(always)]
pub fn is_tight(frame: &[u8], begin: usize, behind: usize) -> bool
    requires within { behind ≤ length frame.now }
    requires order { begin < behind }
    ensures { result ≡ true → IsTight frame.now begin behind }
{
    behind - begin == 1 || frame[behind - 1] != 0
}

//! Whether a head may be whole.
ghost use Rattle.std.specs.Prelude.{◌≡◌};
ghost use Rattle.http_front.specs.Looking.{looked, sees};

/// How far the end of a head was looked for.
#[derive(Clone, Copy)]
pub(crate) enum Look {
    /// Nothing but line ends came.
    Before,
    /// The last byte stands inside a line.
    Line,
    /// The last byte ended a line.
    Ended,
    /// A line ended, and a CR came.
    Return,
    /// An empty line came: the head may be whole.
    Whole,
}

/// Goes on with bytes that were not looked at.
pub(crate) fn look_on(look: Look, bytes: &[u8]) -> Look
    ensures { result ≡ looked look bytes.now }
{
    let mut look = look;
    'bytes: for byte in bytes {
        look = see(look, *byte);
    }
    look
}

#[inline(always)]
fn see(look: Look, byte: u8) -> Look
    ensures { result ≡ sees look byte }
{
    match look {
        Look::Before if byte == b'\n' || byte == b'\r' => Look::Before,
        Look::Ended | Look::Return if byte == b'\n' => Look::Whole,
        Look::Ended if byte == b'\r' => Look::Return,
        Look::Line if byte == b'\n' => Look::Ended,
        Look::Whole => Look::Whole,
        Look::Before | Look::Line | Look::Ended | Look::Return => Look::Line,
    }
}

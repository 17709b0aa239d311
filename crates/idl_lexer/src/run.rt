//! Kinds of bytes, and how far runs of them go.
ghost use Rattle.std.specs.Prelude.{◌≡◌, ◌≤◌, length, false, IfSome, not, ◌&&◌, ◌==◌};
ghost use Rattle.idl_lexer.specs.Bytes.{is_digit, is_letter, is_hex, is_inner, is_blank, is_sign, is_mark, is_in, run, literal_end, comment_end};

/// A digit.
pub(crate) fn is_digit(b: u8) -> bool
    ensures { result ≡ is_digit b }
{
    b'0' <= b && b <= b'9'
}

/// A letter, or `_`.
pub(crate) fn is_letter(b: u8) -> bool
    ensures { result ≡ is_letter b }
{
    (b'A' <= b && b <= b'Z') || (b'a' <= b && b <= b'z') || b == b'_'
}

/// A hexadecimal digit of either case.
pub(crate) fn is_hex(b: u8) -> bool
    ensures { result ≡ is_hex b }
{
    is_digit(b) || (b'A' <= b && b <= b'F') || (b'a' <= b && b <= b'f')
}

/// What a word goes on with.
pub(crate) fn is_inner(b: u8) -> bool
    ensures { result ≡ is_inner b }
{
    is_letter(b) || is_digit(b) || b == b'.'
}

/// A space, a tab, LF or CR.
pub(crate) fn is_blank(b: u8) -> bool
    ensures { result ≡ is_blank b }
{
    b == b' ' || b == b'\t' || b == b'\n' || b == b'\r'
}

/// A sign of a number.
pub(crate) fn is_sign(b: u8) -> bool
    ensures { result ≡ is_sign b }
{
    b == b'+' || b == b'-'
}

/// A mark.
pub(crate) fn is_mark(b: u8) -> bool
    ensures { result ≡ is_mark b }
{
    matches!(
        b,
        b'{' | b'}'
            | b'('
            | b')'
            | b'['
            | b']'
            | b'<'
            | b'>'
            | b','
            | b';'
            | b':'
            | b'='
            | b'*'
            | b'&'
    )
}

/// What a run is of.
#[derive(Clone, Copy)]
pub(crate) enum Class {
    Digit,
    Hex,
    /// What a word goes on with.
    Inner,
    Blank,
    /// All but the line's end.
    Line,
}

fn is_in(class: Class, b: u8) -> bool
    ensures { result ≡ is_in class b }
{
    match class {
        Class::Digit => is_digit(b),
        Class::Hex => is_hex(b),
        Class::Inner => is_inner(b),
        Class::Blank => is_blank(b),
        Class::Line => b != b'\n',
    }
}

/// How many bytes at the front are of a class.
pub(crate) fn run(class: Class, bytes: &[u8]) -> usize
    ensures value { result ≡ run class bytes.now }
    ensures within { result ≤ length bytes.now }
{
    for (i, b) in bytes.iter().enumerate() {
        if !is_in(class, *b) {
            return i;
        }
    }
    bytes.len()
}

fn closes(escaped: bool, quote: u8, b: u8) -> bool
    ensures { result ≡ (not escaped && b == quote) }
{
    !escaped && b == quote
}

fn escapes(escaped: bool, b: u8) -> bool
    ensures { result ≡ (not escaped && b == 92) }
{
    !escaped && b == b'\\'
}

/// Up to the closing quote and with it.
pub(crate) fn literal_end(quote: u8, bytes: &[u8]) -> Option<usize>
    ensures value { result ≡ literal_end false quote bytes.now }
    ensures within { IfSome result (λ n. n ≤ length bytes.now) }
{
    let mut escaped = false;
    for (i, b) in bytes.iter().enumerate() {
        if closes(escaped, quote, *b) {
            return Some(i + 1);
        }
        escaped = escapes(escaped, *b);
    }
    None
}

/// Up to a star and a slash and with them.
pub(crate) fn comment_end(bytes: &[u8]) -> Option<usize>
    ensures value { result ≡ comment_end false bytes.now }
    ensures within { IfSome result (λ n. n ≤ length bytes.now) }
{
    let mut starred = false;
    for (i, b) in bytes.iter().enumerate() {
        if starred && *b == b'/' {
            return Some(i + 1);
        }
        starred = *b == b'*';
    }
    None
}

//! Tokens, and what may be wrong with a text.
use std::alloc::AllocFailed;

/// What a token is.
#[derive(Clone, Copy, Debug, PartialEq, Eq)]
pub enum TokenForm {
    /// A letter or `_`, then letters, digits, `.` and `_`.
    Word,
    /// An optional sign and digits, or an optional sign, `0x` and hexadecimal digits.
    Int(i64),
    /// A number with a point or an exponent. It is kept as text.
    Double,
    /// Bytes in `"` or `'`, with both quotes. A backslash takes the next byte with it.
    Literal,
    /// One of `{ } ( ) [ ] < > , ; : = * &`.
    Mark(u8),
}

/// A token, and the bytes of the text that it stands on.
#[derive(Clone, Copy)]
pub struct Token {
    pub form: TokenForm,
    pub from: usize,
    pub len: usize,
}

/// Why no token was read.
#[derive(Clone, Copy, Debug, PartialEq, Eq)]
pub enum LexReason {
    /// The byte begins no token.
    BadByte,
    UnclosedComment,
    UnclosedLiteral,
    /// The longest token is a whole number outside the 64 bits of an `Int`.
    BigNumber,
}

/// The first fault of a text, and its offset.
#[derive(Clone, Copy, Debug, PartialEq, Eq)]
pub struct LexFault {
    pub offset: usize,
    pub reason: LexReason,
}

/// Why a text has no tokens.
#[derive(Clone, Copy, Debug, PartialEq, Eq)]
pub enum LexError {
    Fault(LexFault),
    OutOfMemory,
}

impl<T: Drop> From<AllocFailed<T>> for LexError {
    ghost use Rattle.std.specs.Prelude.{◌≡◌};
    ghost use Rattle.idl_lexer.specs.declared.token.LexError.TheVariants.{OutOfMemory};

    ghost from_gives = { λ _ e. e ≡ OutOfMemory };

    fn from(_failed: AllocFailed<T>) -> LexError {
        LexError::OutOfMemory
    }
}

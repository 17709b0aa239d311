//! One piece at the front of a text.
ghost use Rattle.std.specs.Prelude.{◌≡◌, ◌<◌, ◌+◌, ◌^◌, length, slice_index, IfSome};
ghost use Rattle.idl_lexer.specs.Pieces.{piece_at, slash_at, closed, IsWithin};

use crate::number::number_at;
use crate::run::{Class, comment_end, is_blank, is_letter, is_mark, literal_end, run};
use crate::token::{LexReason, TokenForm};

/// A token, or blanks or a comment.
#[derive(Clone, Copy)]
pub(crate) enum Piece {
    Blank,
    Token(TokenForm),
}

fn closed(
    piece: Piece,
    reason: LexReason,
    front: usize,
    rest: Option<usize>,
) -> Result<(Piece, usize), LexReason>
    requires { IfSome rest (λ n. front + n < 2 ^ 64) }
    ensures { result ≡ closed piece reason front rest }
{
    match rest {
        Some(n) => Ok((piece, front + n)),
        None => Err(reason),
    }
}

// What begins with a slash.
#[tactic(auto, unfolding(crate::specs::Pieces::slash_at))]
fn slash_at(bytes: &[u8]) -> Result<(Piece, usize), LexReason>
    requires { slice_index bytes.now 0 ≡ 47 }
    ensures value { result ≡ slash_at bytes.now }
    ensures within { IsWithin (length bytes.now) result }
{
    if bytes.len() > 1 && bytes[1] == b'/' {
        Ok((Piece::Blank, run(Class::Line, bytes)))
    } else if bytes.len() > 1 && bytes[1] == b'*' {
        closed(
            Piece::Blank,
            LexReason::UnclosedComment,
            2,
            comment_end(&bytes[2..]),
        )
    } else {
        Err(LexReason::BadByte)
    }
}

/// The piece at the front of some bytes, at least one.
#[tactic(auto, unfolding(crate::specs::Pieces::piece_at))]
pub(crate) fn piece_at(bytes: &[u8]) -> Result<(Piece, usize), LexReason>
    requires { 0 < length bytes.now }
    ensures value { result ≡ piece_at bytes.now }
    ensures within { IsWithin (length bytes.now) result }
{
    let first = bytes[0];
    if is_blank(first) {
        Ok((Piece::Blank, run(Class::Blank, bytes)))
    } else if is_letter(first) {
        Ok((Piece::Token(TokenForm::Word), run(Class::Inner, bytes)))
    } else if is_mark(first) {
        Ok((Piece::Token(TokenForm::Mark(first)), 1))
    } else if first == b'#' {
        Ok((Piece::Blank, run(Class::Line, bytes)))
    } else if first == b'/' {
        slash_at(bytes)
    } else if first == b'"' || first == b'\'' {
        closed(
            Piece::Token(TokenForm::Literal),
            LexReason::UnclosedLiteral,
            1,
            literal_end(first, &bytes[1..]),
        )
    } else {
        number_at(bytes)
    }
}

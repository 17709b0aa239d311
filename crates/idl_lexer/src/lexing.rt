//! All tokens of a text.
ghost use Rattle.std.specs.Prelude.{◌≡◌, ◌++◌, length, IfOk, OnOk, IfErr};
ghost use Rattle.idl_lexer.specs.Tokens.{kept, tokens_of, Gives, Spans};

use crate::piece::{Piece, piece_at};
use crate::token::{LexError, LexFault, LexReason, Token};
use std::alloc::Global;

/// The tokens of a text in order, or its first fault. Between tokens stand blanks, the comments `#` and `//` to the
/// line's end, and `/* */`, which does not nest.
pub fn lex(alloc: Global, text: &[u8]) -> Result<Vec<Token>, LexError>
    ensures exact { Gives result (tokens_of text.now) }
    ensures spans { IfOk result (λ tokens. Spans 0 (length text.now) tokens.items) }
{
    let mut tokens = Vec::new(alloc);
    let mut at = 0;
    while at < text.len() {
        match piece_at(&text[at..]) {
            Ok((piece, len)) => {
                keep(&mut tokens, piece, at, len)?;
                at += len;
            }
            Err(reason) => return Err(fault_at(at, reason)),
        }
    }
    Ok(tokens)
}

fn fault_at(offset: usize, reason: LexReason) -> LexError
    ensures { result ≡ LexError.Fault (record { offset = offset; reason = reason }) }
{
    LexError::Fault(LexFault { offset, reason })
}

// Keeps a piece that is a token.
fn keep(tokens: &mut Vec<Token>, piece: Piece, from: usize, len: usize) -> Result<(), LexError>
    ensures kept { OnOk result (tokens.new.items ≡ tokens.old.items ++ kept piece from len) }
    ensures memory { IfErr result (λ e. e ≡ LexError.OutOfMemory) }
{
    if let Piece::Token(form) = piece {
        tokens.push(Token { form, from, len })?;
    }
    Ok(())
}

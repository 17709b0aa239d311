//! Marks, separators and names.
ghost use Rattle.std.specs.Prelude.{◌≤◌, ◌==◌, ◌≡◌, length, count_by};
ghost use Rattle.idl_parser.specs.Lexemes.{mark_at, sep_len, IsWithin};

use crate::fault::Fault;
use crate::tokens::Tokens;

/// One token, this mark.
#[tactic(auto, unfolding(crate::specs::Lexemes::mark_at))]
pub(crate) fn mark_at(tokens: &Tokens<'_>, mark: u8) -> Result<((), usize), Fault>
    ensures within { IsWithin (length tokens.now.list) result }
    ensures exact { result ≡ mark_at mark tokens.now.edge tokens.now.list }
{
    if tokens.stands(mark) {
        Ok(((), 1))
    } else {
        Err(Fault::Syntax(tokens.at()))
    }
}

/// A comma or a semicolon is taken where one stands.
#[tactic(auto, unfolding(crate::specs::Lexemes::sep_len))]
pub(crate) fn sep_len(tokens: &Tokens<'_>) -> usize
    ensures value { result ≡ sep_len tokens.now.list }
    ensures within { result ≤ length tokens.now.list }
{
    if tokens.stands(b',') {
        1
    } else if tokens.stands(b';') {
        1
    } else {
        0
    }
}

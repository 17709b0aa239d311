//! Tokens as the grammar sees them: a list of lexemes, each with its offset and its word.
ghost use Rattle.std.specs.Prelude.{◌≡◌, ◌≤◌, ◌<◌, ◌+◌, ◌^◌, ℕ, List, length, true};
ghost use Rattle.idl_parser.specs.Lexemes.{lexeme_of, offset_of, word_of, tokens_in, is_left, stands, stands_by, rest_of};
ghost use Rattle.idl_parser.specs.Seeing.{IsInside, seen_all, form_lexeme, form_word, bytes_of, between};

use crate::words::{Keyword, keyword_of};
use idl_lexer::{Token, TokenForm};
use std::marker::Model;

/// What a token says to the grammar.
#[derive(Clone, Copy)]
pub(crate) enum Lexeme {
    Keyword(Keyword),
    /// A word that is no keyword.
    Name,
    Int(i64),
    Double,
    Literal,
    Mark(u8),
    /// No token is left.
    End,
}

/// The tokens that are left of a text.
#[derive(Drop)]
pub(crate) struct Tokens<'t> {
    text: &'t [u8],
    list: &'t [Token],
}

impl<'t> Model for Tokens<'t> {
    ghost use Rattle.idl_parser.specs.Seen.{Input};

    ghost Value = { Input };

    ghost use Rattle.std.specs.Prelude.{length};
    ghost use Rattle.idl_parser.specs.Seeing.{IsInside, seen_all};

    ghost view = { λ t. record { list = seen_all t.text.now t.list.now; edge = length t.text.now } };

    ghost invariant = { λ t. IsInside (length t.text.now) t.list.now };
}

impl<'t> Tokens<'t> {
    /// The tokens of a text.
    pub(crate) fn of(text: &'t [u8], list: &'t [Token]) -> Tokens<'t>
        requires { IsInside (length text.now) list.now }
        ensures { result ≡ record { list = seen_all text.now list.now; edge = length text.now } }
    {
        Tokens { text, list }
    }

    /// Those behind n tokens.
    pub(crate) fn rest(&self, n: usize) -> Tokens<'t>
        requires { n ≤ length self.now.list }
        ensures value { result ≡ rest_of n self.now }
        ensures room { n + length result.list ≡ length self.now.list }
        ensures small { length self.now.list < 2 ^ 64 }
    {
        Tokens {
            text: self.text,
            list: &self.list[n..],
        }
    }

    /// Whether a token is left.
    pub(crate) fn is_left(&self) -> bool
        ensures { result ≡ is_left self.now.list }
    {
        match self.list {
            [_, ..] => true,
            [] => false,
        }
    }

    /// The lexeme at the front.
    pub(crate) fn lexeme(&self) -> Lexeme
        ensures value { result ≡ lexeme_of self.now.list }
        ensures room { tokens_in result ≤ length self.now.list }
    {
        match self.list {
            [token, ..] => form_lexeme(token.form, bytes_of(self.text, token)),
            [] => Lexeme::End,
        }
    }

    /// The bytes of the token at the front, those of a literal without its quotes.
    pub(crate) fn word(&self) -> &'t [u8]
        ensures { result.now ≡ word_of self.now.list }
    {
        match self.list {
            [token, ..] => form_word(token.form, bytes_of(self.text, token)),
            [] => &[],
        }
    }

    /// Where the next token begins, or the text ends.
    pub(crate) fn at(&self) -> usize
        ensures { result ≡ offset_of self.now.edge self.now.list }
    {
        match self.list {
            [token, ..] => token.from,
            [] => self.text.len(),
        }
    }

    /// Whether this mark is at the front.
    #[tactic(auto, unfolding(crate::specs::Lexemes::stands))]
    pub(crate) fn stands(&self, mark: u8) -> bool
        ensures value { result ≡ stands mark self.now.list }
        ensures room { result ≡ true → 0 < length self.now.list }
    {
        match self.list {
            [token, ..] => is_mark(token.form, mark),
            [] => false,
        }
    }
}

fn is_mark(form: TokenForm, mark: u8) -> bool
    ensures { (word : List ℕ) → result ≡ stands_by mark (form_lexeme form word) }
{
    match form {
        TokenForm::Word => false,
        TokenForm::Int(_) => false,
        TokenForm::Double => false,
        TokenForm::Literal => false,
        TokenForm::Mark(found) => found == mark,
    }
}

// The bytes of a token of this text.
fn bytes_of<'t>(text: &'t [u8], token: &Token) -> &'t [u8]
    requires { token.now.from + token.now.len ≤ length text.now }
    ensures { result.now ≡ bytes_of text.now token.now }
{
    &text[token.from..token.from + token.len]
}

fn form_lexeme(form: TokenForm, word: &[u8]) -> Lexeme
    ensures { result ≡ form_lexeme form word.now }
{
    match form {
        TokenForm::Word => match keyword_of(word) {
            Some(keyword) => Lexeme::Keyword(keyword),
            None => Lexeme::Name,
        },
        TokenForm::Int(value) => Lexeme::Int(value),
        TokenForm::Double => Lexeme::Double,
        TokenForm::Literal => Lexeme::Literal,
        TokenForm::Mark(mark) => Lexeme::Mark(mark),
    }
}

fn form_word(form: TokenForm, bytes: &[u8]) -> &[u8]
    ensures { result.now ≡ form_word form bytes.now }
{
    match form {
        TokenForm::Literal => between(bytes),
        _ => bytes,
    }
}

// What stands between the quotes of a literal.
fn between(bytes: &[u8]) -> &[u8]
    ensures { result.now ≡ between bytes.now }
{
    if bytes.len() < 2 {
        return &[];
    }
    &bytes[1..bytes.len() - 1]
}

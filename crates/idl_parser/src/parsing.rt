//! The document of a whole text.
ghost use Rattle.std.specs.Prelude.{◌≡◌, ◌≤◌, length, IfOk};
ghost use Rattle.idl_parser.specs.Documents.{document_at, parsed, told, Parses};
ghost use Rattle.idl_document.specs.Trees.{document_tree};
ghost use Rattle.idl_parser.specs.Lexemes.{Gives, IsUpTo};

use crate::definitions::definitions;
use crate::fault::{Fault, ParseError, Stop};
use crate::headers::headers;
use crate::tokens::Tokens;
use idl_document::Document;
use idl_lexer::{LexError, lex};
use std::alloc::Global;

/// The document of a text, after the Apache Thrift IDL grammar, or its first fault.
#[tactic(auto, unfolding(crate::specs::Documents::parsed))]
pub fn parse(alloc: Global, text: &[u8]) -> Result<Document, ParseError>
    ensures exact { Parses result (parsed text.now) }
    ensures few { IfOk result (λ document. length document.definitions ≤ length text.now) }
{
    let tokens = match lex(alloc, text) {
        Ok(tokens) => tokens,
        Err(LexError::Fault(fault)) => return Err(ParseError::Lex(fault)),
        Err(LexError::OutOfMemory) => return Err(ParseError::OutOfMemory),
    };
    match document_at(alloc, &Tokens::of(text, tokens.as_slice())) {
        Ok((document, _)) => Ok(document),
        Err(stop) => Err(told(stop)),
    }
}

// A fault is told as what it is, and want of memory as nothing else.
fn told(stop: Stop) -> ParseError
    ensures { result ≡ told stop }
{
    match stop {
        Stop::Fault(Fault::Syntax(at)) => ParseError::Syntax(at),
        Stop::Fault(Fault::Nested(at)) => ParseError::Nested(at),
        Stop::OutOfMemory => ParseError::OutOfMemory,
    }
}

#[tactic(auto, unfolding(crate::specs::Documents::document_at))]
fn document_at(alloc: Global, tokens: &Tokens<'_>) -> Result<(Document, usize), Stop>
    ensures within { IsUpTo (length tokens.now.list) result }
    ensures exact { Gives document_tree result (document_at tokens.now.edge tokens.now.list) }
{
    let (includes, n) = headers(alloc, tokens)?;
    let (definitions, used) = definitions(alloc, &tokens.rest(n))?;
    let document = Document {
        includes,
        definitions,
    };
    Ok((document, n + used))
}

//! The keywords of the IDL.
ghost use Rattle.std.specs.Prelude.{◌≡◌};
ghost use Rattle.idl_parser.specs.Words.{is, keyword_of, base_of, integer_of, other_base_of, type_word_of, member_word_of, header_word_of, definition_word_of};

use idl_document::BaseWord;

/// A word that is never a name.
#[derive(Clone, Copy)]
pub(crate) enum Keyword {
    Base(BaseWord),
    Map,
    Set,
    List,
    CppType,
    Void,
    Oneway,
    Throws,
    Extends,
    Required,
    Optional,
    Include,
    CppInclude,
    Namespace,
    Const,
    Typedef,
    Enum,
    Struct,
    Union,
    Exception,
    Service,
}

// Whether a word is this one.
fn is(word: &[u8], other: &[u8]) -> bool
    ensures { result ≡ is word.now other.now }
{
    word == other
}

/// The keyword that a word is.
#[tactic(auto, unfolding(crate::specs::Words::keyword_of))]
pub(crate) fn keyword_of(word: &[u8]) -> Option<Keyword>
    ensures { result ≡ keyword_of word.now }
{
    if let Some(base) = base_of(word) {
        return Some(Keyword::Base(base));
    }
    if let Some(keyword) = type_word_of(word) {
        return Some(keyword);
    }
    if let Some(keyword) = member_word_of(word) {
        return Some(keyword);
    }
    if let Some(keyword) = header_word_of(word) {
        return Some(keyword);
    }
    definition_word_of(word)
}

// The words of types that have no parts.
#[tactic(auto, unfolding(crate::specs::Words::base_of))]
fn base_of(word: &[u8]) -> Option<BaseWord>
    ensures { result ≡ base_of word.now }
{
    if let Some(integer) = integer_of(word) {
        return Some(integer);
    }
    other_base_of(word)
}

// The words of whole numbers.
#[tactic(auto, unfolding(crate::specs::Words::integer_of))]
fn integer_of(word: &[u8]) -> Option<BaseWord>
    ensures { result ≡ integer_of word.now }
{
    if is(word, b"i8") {
        Some(BaseWord::I8)
    } else if is(word, b"byte") {
        Some(BaseWord::I8)
    } else if is(word, b"i16") {
        Some(BaseWord::I16)
    } else if is(word, b"i32") {
        Some(BaseWord::I32)
    } else if is(word, b"i64") {
        Some(BaseWord::I64)
    } else {
        None
    }
}

// The words of all other types without parts.
#[tactic(auto, unfolding(crate::specs::Words::other_base_of))]
fn other_base_of(word: &[u8]) -> Option<BaseWord>
    ensures { result ≡ other_base_of word.now }
{
    if is(word, b"bool") {
        Some(BaseWord::Bool)
    } else if is(word, b"double") {
        Some(BaseWord::Double)
    } else if is(word, b"string") {
        Some(BaseWord::Text)
    } else if is(word, b"binary") {
        Some(BaseWord::Blob)
    } else if is(word, b"uuid") {
        Some(BaseWord::Uuid)
    } else {
        None
    }
}

// The words of types that have parts, and of no type.
#[tactic(auto, unfolding(crate::specs::Words::type_word_of))]
fn type_word_of(word: &[u8]) -> Option<Keyword>
    ensures { result ≡ type_word_of word.now }
{
    if is(word, b"map") {
        Some(Keyword::Map)
    } else if is(word, b"set") {
        Some(Keyword::Set)
    } else if is(word, b"list") {
        Some(Keyword::List)
    } else if is(word, b"cpp_type") {
        Some(Keyword::CppType)
    } else if is(word, b"void") {
        Some(Keyword::Void)
    } else {
        None
    }
}

// The words beside fields, methods and services.
#[tactic(auto, unfolding(crate::specs::Words::member_word_of))]
fn member_word_of(word: &[u8]) -> Option<Keyword>
    ensures { result ≡ member_word_of word.now }
{
    if is(word, b"oneway") {
        Some(Keyword::Oneway)
    } else if is(word, b"throws") {
        Some(Keyword::Throws)
    } else if is(word, b"extends") {
        Some(Keyword::Extends)
    } else if is(word, b"required") {
        Some(Keyword::Required)
    } else if is(word, b"optional") {
        Some(Keyword::Optional)
    } else {
        None
    }
}

// The words that open a header.
#[tactic(auto, unfolding(crate::specs::Words::header_word_of))]
fn header_word_of(word: &[u8]) -> Option<Keyword>
    ensures { result ≡ header_word_of word.now }
{
    if is(word, b"include") {
        Some(Keyword::Include)
    } else if is(word, b"cpp_include") {
        Some(Keyword::CppInclude)
    } else if is(word, b"namespace") {
        Some(Keyword::Namespace)
    } else {
        None
    }
}

// The words that open a declaration.
#[tactic(auto, unfolding(crate::specs::Words::definition_word_of))]
fn definition_word_of(word: &[u8]) -> Option<Keyword>
    ensures { result ≡ definition_word_of word.now }
{
    if is(word, b"const") {
        Some(Keyword::Const)
    } else if is(word, b"typedef") {
        Some(Keyword::Typedef)
    } else if is(word, b"enum") {
        Some(Keyword::Enum)
    } else if is(word, b"struct") {
        Some(Keyword::Struct)
    } else if is(word, b"union") {
        Some(Keyword::Union)
    } else if is(word, b"exception") {
        Some(Keyword::Exception)
    } else if is(word, b"service") {
        Some(Keyword::Service)
    } else {
        None
    }
}

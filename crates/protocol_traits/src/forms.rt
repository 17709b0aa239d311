//! What a quick reader finds and a quick writer is told: the words of the forms.
use thrift_value::Kind;

/// What stands next in a struct: a field whose value has this kind, the end, or what the quick way leaves alone.
#[derive(Clone, Copy)]
pub enum Lead {
    Bool,
    I8,
    I16,
    I32,
    I64,
    Double,
    Str,
    Struct,
    Map,
    Set,
    List,
    Uuid,
    /// The end of the struct.
    Stop,
    /// A fault, or a spelling that the quick way doesn't read.
    Bad,
}

/// Where a value stands. It is a constant at nearly every call.
#[derive(Clone, Copy)]
pub enum Stand {
    /// The value of a field that was announced.
    Field,
    /// An element of a list or set.
    Element,
    /// The first key of a map.
    FirstKey,
    /// A later key of a map.
    Key,
    /// The value of a pair whose key was read.
    Value,
}

/// What was read or written of the innermost open level.
#[derive(Clone, Copy)]
pub enum Opening {
    /// Of the body: nothing at all.
    Body,
    /// Its beginning and no more.
    New,
    /// More than that, or it was outer to a level that is closed.
    Old,
}

/// A container with parts.
#[derive(Clone, Copy)]
pub enum Container {
    Map,
    Set,
    List,
}

/// Where a text lies in a frame as it is meant, and the place behind its spelling.
#[derive(Clone, Copy)]
pub struct Span {
    pub begin: usize,
    pub end: usize,
    pub behind: usize,
}

/// How many bytes a string means that was decoded, and the place behind its spelling.
#[derive(Clone, Copy)]
pub struct Decoded {
    pub size: usize,
    pub behind: usize,
}

/// The beginning of a map: the kinds of keys and values, how many pairs follow, and the place behind. The kinds of a
/// map without pairs mean nothing.
#[derive(Clone, Copy)]
pub struct Pairs {
    pub key: Kind,
    pub value: Kind,
    pub size: u32,
    pub behind: usize,
}

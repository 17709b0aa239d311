//! The kinds of values and the types of messages.

/// The kind of a value, as the Binary and Compact protocol specifications of Apache Thrift know it.
///
/// An enum of the IDL travels as `I32`, a union or an exception as `Struct`, `string` and `binary` both as `Str`.
#[derive(Clone, Copy)]
pub enum Kind {
    Bool,
    I8,
    I16,
    I32,
    I64,
    Double,
    Str,
    Struct,
    Map,
    Set,
    List,
    Uuid,
}

/// The type of a message, by the Thrift remote procedure call specification.
#[derive(Clone, Copy, Debug, PartialEq, Eq)]
pub enum MessageType {
    /// Asks for an answer. Its body holds the arguments.
    Call,
    /// Answers a call. Its body holds the result or a declared exception.
    Reply,
    /// Answers a call that failed. Its body is a TApplicationException.
    Exception,
    /// A call that gets no answer.
    Oneway,
}

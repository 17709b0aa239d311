//! The protocols, the header of a message, and what is known of a position in it.
use thrift_value::{Kind, MessageType};

/// The protocols of the gateway.
#[derive(Clone, Copy)]
pub enum Proto {
    /// Apache Thrift's Binary protocol.
    Binary,
    /// Apache Thrift's Compact protocol.
    Compact,
    /// TJSON, after Apache Thrift's TJSONProtocol.
    Json,
}

/// How a string is read where it stands: a JSON string is text or base64, and only its declared type says which.
#[derive(Clone, Copy)]
pub enum Hint {
    /// The position's type is `string`.
    Text,
    /// The position's type is `binary`.
    Blob,
    /// Nothing is declared for the position.
    Unknown,
}

/// What is known of the position of an event: how a string there is spelled, and the kinds that an empty map is
/// written with.
#[derive(Clone, Copy)]
pub struct Mark {
    pub hint: Hint,
    pub key: Kind,
    pub value: Kind,
}

/// A message's header, by the Thrift remote procedure call specification.
#[derive(Clone, Copy)]
pub struct Head<'a> {
    /// The method's name: any bytes.
    pub name: &'a [u8],
    pub mtype: MessageType,
    /// The sequence number, by which a client knows an answer.
    pub seq: i32,
}

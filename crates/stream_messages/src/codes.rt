//! The codes of kinds and message types in both protocols, by the specifications of Apache Thrift.
ghost use Rattle.std.specs.Prelude.{◌≡◌};
ghost use Rattle.binary_protocol.specs.Codes.{kind_of_code, type_of_code};
ghost use Rattle.compact_protocol.specs.Codes.{kind_of};

use thrift_value::{Kind, MessageType};

/// The kind that has this code in the Binary protocol.
#[inline(always)]
pub fn binary_kind(code: u8) -> Option<Kind>
    ensures { result ≡ kind_of_code code }
{
    match code {
        2 => Some(Kind::Bool),
        3 => Some(Kind::I8),
        4 => Some(Kind::Double),
        6 => Some(Kind::I16),
        8 => Some(Kind::I32),
        10 => Some(Kind::I64),
        11 => Some(Kind::Str),
        12 => Some(Kind::Struct),
        13 => Some(Kind::Map),
        14 => Some(Kind::Set),
        15 => Some(Kind::List),
        16 => Some(Kind::Uuid),
        _ => None,
    }
}

/// The kind that has this code in the Compact protocol, where two codes mean bool.
#[inline(always)]
pub fn compact_kind(code: u8) -> Option<Kind>
    ensures { result ≡ kind_of code }
{
    match code {
        1 | 2 => Some(Kind::Bool),
        3 => Some(Kind::I8),
        4 => Some(Kind::I16),
        5 => Some(Kind::I32),
        6 => Some(Kind::I64),
        7 => Some(Kind::Double),
        8 => Some(Kind::Str),
        9 => Some(Kind::List),
        10 => Some(Kind::Set),
        11 => Some(Kind::Map),
        12 => Some(Kind::Struct),
        13 => Some(Kind::Uuid),
        _ => None,
    }
}

/// The message type that has this code, the same in both protocols.
#[inline(always)]
pub fn message_type(code: u8) -> Option<MessageType>
    ensures { result ≡ type_of_code code }
{
    match code {
        1 => Some(MessageType::Call),
        2 => Some(MessageType::Reply),
        3 => Some(MessageType::Exception),
        4 => Some(MessageType::Oneway),
        _ => None,
    }
}

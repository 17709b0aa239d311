//! The codes of kinds and message types, by the Binary protocol specification of Apache Thrift.
ghost use Rattle.std.specs.Prelude.{◌≡◌};
ghost use Rattle.binary_protocol.specs.Codes.{code_of_kind, code_of_type, kind_of_code, type_of_code};

use thrift_value::{Kind, MessageType};

/// The kind that has this code.
#[inline(always)]
pub fn kind_of_code(code: u8) -> Option<Kind>
    ensures { result ≡ kind_of_code code }
{
    match code {
        2 => Some(Kind::Bool),
        3 => Some(Kind::I8),
        4 => Some(Kind::Double),
        6 => Some(Kind::I16),
        8 => Some(Kind::I32),
        10 => Some(Kind::I64),
        11 => Some(Kind::Str),
        12 => Some(Kind::Struct),
        13 => Some(Kind::Map),
        14 => Some(Kind::Set),
        15 => Some(Kind::List),
        16 => Some(Kind::Uuid),
        _ => None,
    }
}

/// The code of a kind.
#[inline(always)]
pub fn code_of_kind(kind: Kind) -> u8
    ensures { result ≡ code_of_kind kind }
{
    match kind {
        Kind::Bool => 2,
        Kind::I8 => 3,
        Kind::I16 => 6,
        Kind::I32 => 8,
        Kind::I64 => 10,
        Kind::Double => 4,
        Kind::Str => 11,
        Kind::Struct => 12,
        Kind::Map => 13,
        Kind::Set => 14,
        Kind::List => 15,
        Kind::Uuid => 16,
    }
}

/// The message type that has this code.
#[inline(always)]
pub fn type_of_code(code: u8) -> Option<MessageType>
    ensures { result ≡ type_of_code code }
{
    match code {
        1 => Some(MessageType::Call),
        2 => Some(MessageType::Reply),
        3 => Some(MessageType::Exception),
        4 => Some(MessageType::Oneway),
        _ => None,
    }
}

/// The code of a message type.
#[inline(always)]
pub fn code_of_type(mtype: MessageType) -> u8
    ensures { result ≡ code_of_type mtype }
{
    match mtype {
        MessageType::Call => 1,
        MessageType::Reply => 2,
        MessageType::Exception => 3,
        MessageType::Oneway => 4,
    }
}

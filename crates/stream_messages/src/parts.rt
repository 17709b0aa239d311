//! What the next byte of a message may be part of.
ghost use Rattle.std.specs.Prelude.{◌≡◌};
ghost use Rattle.stream_messages.specs.Parts.{any_or_end};

use thrift_value::Kind;

/// What the next byte is part of.
#[derive(Clone, Copy)]
pub enum Part {
    /// The first byte of an item of the body, the one that the innermost open level calls for.
    Item,
    /// So many bytes of any value, one or more, with which the item or the header ends.
    Any(u32),
    /// A part of the Binary protocol.
    Binary(BinaryPart),
    /// A part of the Compact protocol.
    Compact(CompactPart),
}

/// Parts of a header and of items in the Binary protocol.
#[derive(Clone, Copy)]
pub enum BinaryPart {
    /// The first byte of the header: of a version, or of the length of an old header's name.
    Start,
    /// The second byte of the version.
    Version,
    /// The byte between version and type, which has no meaning.
    Unused,
    /// The message type of a header with a version.
    StrictType,
    /// So many bytes of an old header's name, one or more.
    OldName(u32),
    /// The message type of an old header.
    OldType,
    /// So many bytes of a size or length, one to four, behind bytes that make this number.
    Size(BinarySized, u8, u32),
    /// The first byte of the id of a field of this kind.
    Id(Kind),
    /// The second byte of the id of a field of this kind, behind this first one.
    IdEnd(Kind, u8),
    /// The kind of a map's values, behind that of its keys, which is None for a byte 0.
    ValueKind(Option<Kind>),
    /// So many bytes, one to four, of the size of a map that has no pairs, since a kind is missing.
    NoPairs(u8),
}

/// What has the size or length that is being read in the Binary protocol.
#[derive(Clone, Copy)]
pub enum BinarySized {
    /// The name in a header with a version.
    StrictName,
    /// The name in an old header.
    OldName,
    /// A string.
    Text,
    /// A set with elements of this kind.
    Set(Kind),
    /// A list with elements of this kind.
    List(Kind),
    /// A map with keys and values of these kinds.
    Map(Kind, Kind),
}

/// Parts of a header and of items in the Compact protocol.
#[derive(Clone, Copy)]
pub enum CompactPart {
    /// The first byte of the header.
    Start,
    /// The version and the message type.
    Version,
    /// At most so many bytes of a varint that has no more than so many bits left, and whose number isn't needed.
    Passed(CompactPassed, u8, u8),
    /// A varint that has no more than so many bits left. The next byte counts so often, and those before it make this number.
    Number(CompactSized, u8, u32, u32),
    /// The kinds of a map with so many pairs.
    Kinds(u32),
}

/// Whose varint is passed over in the Compact protocol.
#[derive(Clone, Copy)]
pub enum CompactPassed {
    /// The sequence number of a header.
    Sequence,
    /// A number in the body.
    Value,
}

/// Whose number is being read in the Compact protocol.
#[derive(Clone, Copy)]
pub enum CompactSized {
    /// The length of the name in a header.
    Name,
    /// The length of a string.
    Text,
    /// The size of a set with elements of this kind.
    Set(Kind),
    /// The size of a list with elements of this kind.
    List(Kind),
    /// The size of a map.
    Map,
    /// The id of a field of this kind.
    Id(Kind),
}

/// What a byte leads to.
#[derive(Clone, Copy)]
pub enum Next {
    /// The next byte is part of this.
    Part(Part),
    /// The header or an item of the body ended with the byte.
    Ended,
    /// No message goes on with the byte.
    Bad,
}

/// So many bytes of any value, and then the end.
#[inline(always)]
pub fn any_or_end(bytes: u32) -> Next
    ensures { result ≡ any_or_end bytes }
{
    if bytes == 0 {
        return Next::Ended;
    }
    Next::Part(Part::Any(bytes))
}

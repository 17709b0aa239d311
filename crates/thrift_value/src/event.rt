//! The pieces of a message's body, in the order in which every protocol spells them.

use crate::Kind;

/// One piece of a body.
///
/// A body is its fields and one last `Stop`; a field is `Field` and its value. A nested struct is `StructBegin`, its
/// fields and `Stop`. A container is its begin event, its values (keys and values in turn for a map) and `End`.
/// The empty map stands alone, since a Compact spelling of it tells no kinds.
#[derive(Clone, Copy)]
pub enum Event<'a> {
    /// A field's id and the kind of the value that follows.
    Field(i16, Kind),
    /// The end of a struct's fields.
    Stop,
    Bool(bool),
    I8(i8),
    I16(i16),
    I32(i32),
    I64(i64),
    /// Eight bytes, big endian. They are never computed with.
    Double([u8; 8]),
    /// The bytes of a string or a binary.
    Str(&'a [u8]),
    /// The text of a JSON number, or of a word that stands for one: a double whose bytes are not computed.
    NumberText(&'a [u8]),
    /// A JSON string at a place where nothing says whether it is text or base64.
    UnknownText(&'a [u8]),
    StructBegin,
    EmptyMap,
    /// The kinds of keys and values, and how many pairs follow: at least one.
    MapBegin(Kind, Kind, u32),
    /// The kind of the elements, and how many follow.
    SetBegin(Kind, u32),
    /// The kind of the elements, and how many follow.
    ListBegin(Kind, u32),
    /// The end of a map with pairs, of a set or of a list.
    End,
    /// Sixteen bytes in order.
    Uuid([u8; 16]),
}

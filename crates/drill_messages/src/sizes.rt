//! How many messages and parts of them there may be, and the room that each takes in the protocol that spells it longest, in bytes.

/// The most messages.
pub const MOST_MESSAGES: u64 = 1_000_000;

/// The most items in a message.
pub const MOST_ITEMS: usize = 7;

/// The most letters of a name.
pub const MOST_LETTERS: usize = 11;

/// The most bytes of a field `raw`.
pub const MOST_RAW: usize = 15;

/// The most numbers in a list `marks`.
pub const MOST_MARKS: usize = 5;

/// The most pairs in a map `flags`.
pub const MOST_FLAGS: usize = 3;

/// A field `id`.
pub const ID_ROOM: usize = 41;

/// A field `name`.
pub const NAME_ROOM: usize = 88;

/// A field `raw`.
pub const RAW_ROOM: usize = 112;

/// The numbers of a field `marks`, with the end of their list.
pub const NUMBERS_ROOM: usize = 77;

/// A field `marks`.
pub const MARKS_ROOM: usize = 113;

/// The pairs of a field `flags`, with the end of their map.
pub const PAIRS_ROOM: usize = 50;

/// A field `flags`.
pub const FLAGS_ROOM: usize = 92;

/// An item.
pub const ITEM_ROOM: usize = 452;

/// The items of a message.
pub const ITEMS_ROOM: usize = 3_164;

/// A message.
pub const MESSAGE_ROOM: usize = 3_244;

/// A message in its frame.
pub const FRAME_ROOM: usize = 3_248;

/// All messages.
pub const TOTAL_ROOM: u64 = 3_244_000_000;

/// So many bytes are gathered for one write.
pub const STREAM_ROOM: usize = 65_536;

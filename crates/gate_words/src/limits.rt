//! The bounds of the numbers that words give, and what stands where they give none.

/// The least frame limit, in bytes.
pub const LEAST_LIMIT: u32 = 1_024;

/// The greatest frame limit, in bytes.
pub const GREATEST_LIMIT: u32 = 16_384_000;

/// The frame limit where the words give none, in bytes.
pub const DEFAULT_LIMIT: u32 = 262_144;

/// The most sessions at a time.
pub const MOST_SESSIONS: u32 = 1_024;

/// The sessions at a time where the words give no number.
pub const DEFAULT_SESSIONS: u32 = 32;

/// The most threads that serve.
pub const MOST_THREADS: u32 = 64;

/// The threads that serve where the words give no number.
pub const DEFAULT_THREADS: u32 = 1;

/// The most calls of a session that are open at a time.
pub const MOST_CALLS: u32 = 65_536;

/// The calls of a session that may be open at a time where the words give no number.
pub const DEFAULT_CALLS: u32 = 1_024;

/// The most connections in all.
pub const MOST_ACCEPTED: u64 = (1 << 63) - 1;

/// The most events, and as many where the words give no number.
pub const MOST_EVENTS: u64 = (1 << 63) - 1;

/// The most messages of a drill.
pub const MOST_MESSAGES: u64 = 1_000_000;

/// The most bytes that all sessions together may hold.
pub const MOST_HELD: u64 = 1 << 32;

/// The frames of the limit that a session may hold at a time, in its buffers and on the way through them.
pub const HELD_FRAMES: u64 = 52;

/// The bytes that each open call of a session takes.
pub const CALL_BYTES: u64 = 16;

/// The bytes of a session besides.
pub const SESSION_BYTES: u64 = 4_096;

/// The frames of the limit that a session holds besides where a side sends no frames: one for each side.
pub const UNFRAMED_FRAMES: u64 = 2;

/// The most bytes of the head of an HTTP request.
pub const HEAD_BYTES: u64 = 8_192;

/// The most targets of a router.
pub const MOST_TARGETS: usize = 16;

/// The frames of the limit that a router's session may hold for each of its ports.
pub const HELD_BY_PORT: u64 = 25;

/// The bytes that a router's session holds besides for each of its ports.
pub const BUFFER_BYTES: u64 = 512;

/// The frames of the limit that a router's session may hold on the way from one port to another.
pub const HELD_BY_ROUTER: u64 = 26;

/// The bytes that each open call of a router's session takes.
pub const ROUTED_CALL_BYTES: u64 = 32;

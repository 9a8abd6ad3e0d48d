// The sizes of a message, and the largest size that a message can ask for.

// The ten bytes that every message starts with.
pub const HEADER_BYTES: usize = 10;

// The longest string after them.
pub const STRING_BYTES: usize = 256;

// The longest message, and so the room that every output buffer needs.
pub const MESSAGE_BYTES: usize = 266;

// The largest size of a process that CREATE asks for.
pub(crate) const LARGEST_SIZE: u16 = 4096;

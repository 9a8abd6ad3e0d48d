// The widths and places of the byte form, in bytes. Each number stands here once, and the others follow from it.

// An entry.
pub(crate) const ENTRY_COUNT: usize = 8;

pub(crate) const ENTRY_BYTES: usize = 8;

pub(crate) const ENTRIES_BYTES: usize = ENTRY_BYTES * ENTRY_COUNT;

// The head of a process.
pub(crate) const THERE_AT: usize = 0;

pub(crate) const HOST_AT: usize = 1;

pub(crate) const RUN_AT: usize = 2;

pub(crate) const SIZE_AT: usize = 3;

pub(crate) const NUMBER_AT: usize = 5;

pub(crate) const OWED_AT: usize = 6;

pub(crate) const WATCHER_AT: usize = 7;

pub(crate) const WAITS_AT: usize = 8;

pub(crate) const TICKS_AT: usize = 9;

pub(crate) const ID_AT: usize = 10;

pub(crate) const HEAD_BYTES: usize = 14;

// A process.
pub(crate) const VECTOR_AT: usize = HEAD_BYTES;

pub(crate) const VECTOR_BYTES: usize = 18;

pub(crate) const ENTRIES_AT: usize = VECTOR_AT + VECTOR_BYTES;

pub(crate) const PROCESS_BYTES: usize = ENTRIES_AT + ENTRIES_BYTES;

// A state.
pub(crate) const PROCESS_COUNT: usize = 8;

pub(crate) const START_BYTES: usize = 2;

pub(crate) const STARTS_AT: usize = PROCESS_BYTES * PROCESS_COUNT;

pub(crate) const DOOR_AT: usize = STARTS_AT + START_BYTES * PROCESS_COUNT;

pub const STATE_BYTES: usize = DOOR_AT + 1;

// The index of the first byte of each process's record, as its low and its high byte. Byte p of a table is found by an addition alone; an element of two
// bytes or more would be found by p times its size.
pub(crate) const RECORD_AT_LOW: [u8; 8] = [
    0,
    (PROCESS_BYTES % 256) as u8,
    (2 * PROCESS_BYTES % 256) as u8,
    (3 * PROCESS_BYTES % 256) as u8,
    (4 * PROCESS_BYTES % 256) as u8,
    (5 * PROCESS_BYTES % 256) as u8,
    (6 * PROCESS_BYTES % 256) as u8,
    (7 * PROCESS_BYTES % 256) as u8,
];

pub(crate) const RECORD_AT_HIGH: [u8; 8] = [
    0,
    (PROCESS_BYTES / 256) as u8,
    (2 * PROCESS_BYTES / 256) as u8,
    (3 * PROCESS_BYTES / 256) as u8,
    (4 * PROCESS_BYTES / 256) as u8,
    (5 * PROCESS_BYTES / 256) as u8,
    (6 * PROCESS_BYTES / 256) as u8,
    (7 * PROCESS_BYTES / 256) as u8,
];

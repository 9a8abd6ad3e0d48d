// The numbers that a message carries in CMD. They are numbers, and no enum: a header has any CMD, known or not, and the rules and their
// theorems (rule_of, asked_tests, Isolation) speak of every number.

// The op codes of the requests.
pub const NOP: u8 = 0;

pub const DEBUG: u8 = 1;

pub const END_DEBUG: u8 = 2;

pub const STOP: u8 = 3;

pub const DEPOSIT: u8 = 4;

pub const RESUME: u8 = 5;

pub const EXAMINE: u8 = 6;

pub const DEPOSIT_VECTOR: u8 = 7;

pub const BREAK: u8 = 8;

pub const UNBREAK: u8 = 9;

pub const SINGLE_STEP: u8 = 10;

pub const PROCEED: u8 = 11;

pub const CREATE: u8 = 12;

pub const DESTROY: u8 = 13;

pub const WATCH: u8 = 14;

pub const END_WATCH: u8 = 15;

pub const STATUS: u8 = 16;

// A notice has the kind of its report added to this.
pub const NOTICE: u8 = 64;

// A CAN'T has the op code that it refuses added to this.
pub const CANT: u8 = 128;

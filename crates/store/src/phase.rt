// The phases by their numbers in document 01, "Calls".
// Stays: numbers, since the phase is matched by its number, with ranges for those that are none.

// No call is under way.
pub const IDLE: u32 = 0;

// A producer's; 1 is out of range, since *start enqueue* takes the position (document 02, U8).
pub const LOAD: u32 = 2;

pub const LOOK: u32 = 3;

pub const CLAIM: u32 = 4;

pub const LINK: u32 = 5;

pub const SHIFT: u32 = 6;

pub const BACK: u32 = 7;

pub const WRITE: u32 = 8;

pub const SET: u32 = 9;

pub const CLAIM_AHEAD: u32 = 10;

pub const LINK_AHEAD: u32 = 11;

pub const LAST_PRODUCER: u32 = 11;

// The consumer's.
pub const FRONT: u32 = 1;

pub const READ_TAIL: u32 = 2;

pub const SCAN: u32 = 3;

pub const READ_ENTRY: u32 = 4;

pub const RESCAN: u32 = 5;

pub const READ_ITEM: u32 = 6;

pub const MARK: u32 = 7;

pub const RETIRE: u32 = 8;

pub const LAST_CONSUMER: u32 = 8;

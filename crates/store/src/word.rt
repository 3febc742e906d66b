// The words of a store by their place in the contents, a thread, a record, an entry or the drain area.

// Contents, words 0 to 5: the sizes, and the first words of the threads and of the records.
pub const ENTRIES: u32 = 0;

pub const RECORDS: u32 = 1;

pub const PRODUCERS: u32 = 2;

pub const STARTS_ALLOWED: u32 = 3;

pub const FIRST_THREAD: u32 = 4;

pub const FIRST_RECORD: u32 = 5;

// Contents, words 6 to 10.
pub const TAIL: u32 = 6;

pub const TAIL_RECORD: u32 = 7;

pub const HEAD_RECORD: u32 = 8;

pub const HEAD_POSITION: u32 = 9;

pub const STARTS: u32 = 10;

// Word 11, the record claimed last, and word 12, whether the scan has read as handled all that it has read of the cursor's record.
pub const LAST_CLAIMED: u32 = 11;

pub const ALL_HANDLED: u32 = 12;

// A thread's phase, and the accepted steps of its call.
pub const PHASE: u32 = 0;

pub const STEPS: u32 = 7;

// A producer's words.
pub const CALL: u32 = 1;

pub const VALUE: u32 = 2;

pub const POSITION: u32 = 3;

pub const HELD: u32 = 4;

pub const CLAIMED: u32 = 5;

pub const BACKED: u32 = 6;

// The consumer's words.
pub const CURSOR_RECORD: u32 = 1;

pub const CURSOR_POSITION: u32 = 2;

pub const FOUND_RECORD: u32 = 3;

pub const FOUND_POSITION: u32 = 4;

pub const ITEM_CALL: u32 = 5;

pub const ITEM_VALUE: u32 = 6;

// In phases 6 to 8, where the cursor is not in use: whether a drain came there through the scan.
pub const SCANNED: u32 = 2;

// A record's words before its entries.
pub const PLACE: u32 = 0;

pub const NEXT: u32 = 1;

pub const PREV: u32 = 2;

pub const USE: u32 = 3;

// An entry's words.
pub const STATE: u32 = 0;

pub const ENTRY_CALL: u32 = 1;

pub const ENTRY_VALUE: u32 = 2;

// The drain area's words before its pairs, and the first word of those.
pub const LIMIT: u32 = 0;

pub const COUNT: u32 = 1;

pub const PAIRS: u32 = 2;

// The sizes of a store and their limits (document 01, "Store").

// The most entries in a record (B), records (N), producers (P) and enqueue starts allowed (M).
pub const MOST_ENTRIES: u32 = 64;

pub const MOST_RECORDS: u32 = 64;

pub const MOST_PRODUCERS: u32 = 16;

pub const MOST_STARTS: u32 = 1000000;

// The largest place that a record may have.
pub const MOST_PLACE: u32 = 500002;

// The most accepted steps of a call that a thread's word can hold (document 02, U3).
pub const MOST_STEPS: u32 = 100000000;

// The words of the contents and of a thread. Every thread's words begin after the contents: the consumer's first.
pub const CONTENT_WORDS: u32 = 16;

pub const THREAD_WORDS: u32 = 8;

// The most items that one drain may hand over (document 02, U5), and the words of the drain area behind the records: limit, count, and a pair
// for each.
pub const MOST_DRAINED: u32 = 64;

pub const DRAIN_WORDS: u32 = 130;

// A record's words at the most, place, next, prev and use and three for each entry, and a store's.
pub const MOST_RECORD_WORDS: usize = 196;

pub const MOST_WORDS: usize = 12826;

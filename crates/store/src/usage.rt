// What a record's use may be.
// Stays: numbers, as the words of the lent store are; admission compares them while they may be out of range, and no `match` goes over them.
pub const FREE: u32 = 0;

pub const CLAIMED: u32 = 1;

pub const LINKED: u32 = 2;

pub const RETIRED: u32 = 3;

// What an entry's state may be.
// Stays: numbers, as the words of the lent store are; admission compares them while they may be out of range, and no `match` goes over them.
pub const EMPTY: u32 = 0;

pub const SET: u32 = 1;

pub const HANDLED: u32 = 2;

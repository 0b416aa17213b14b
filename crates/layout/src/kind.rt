// What an entry is, by the lowest bits of its first number. A number that is none of these is no entry's, as 2 is no longer.
// Kept: numbers and no enum, since `emission::single` (docs/CONTRACTS.md) takes any below 16, and `meet` would need a table back beside its match.
pub const BEGIN: u64 = 0;

pub const MATCH: u64 = 1;

pub const OPENS: u64 = 3;

pub const CLOSE: u64 = 4;

pub const RULE: u64 = 5;

pub const ENTER: u64 = 6;

pub const APPLIES: u64 = 7;

pub const CONCLUDE: u64 = 8;

pub const OBLIGE: u64 = 9;

pub const LEAVE: u64 = 10;

pub const FINISH: u64 = 11;

pub const SUM: u64 = 12;

pub const COMPARE: u64 = 13;

// So many kinds that field could tell.
pub const KINDS: u64 = 16;

// Which piece of a comparison of two values a `SUM` is, by the lowest bits of its field.
pub const LOADS: u64 = 0;

pub const ASKS: u64 = 1;

pub const WORKS: u64 = 2;

pub const TESTS: u64 = 3;

// So many pieces it has.
pub const PIECES: u64 = 4;

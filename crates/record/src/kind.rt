// The kinds of records, by byte 0.
// Kept: numbers and no enum, since definitions read byte 0 alone, whatever the choice; fields::Kind says both.
pub const SET: usize = 1;

pub const POLICY: usize = 2;

pub const RULE: usize = 3;

pub const SECTION: usize = 4;

pub const CONJUNCTION: usize = 5;

pub const MATCH: usize = 6;

pub const CONDITION: usize = 7;

pub const OBLIGATION: usize = 8;

pub const VALUE: usize = 10;

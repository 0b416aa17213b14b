// Choices, by byte 1: of conditions of conditions, of comparisons, and of values that are no operators.
// Kept: numbers and no enum, since definitions read byte 1 alone, whatever the kind; fields::Kind says both.
pub const AND: usize = 1;

pub const NOT: usize = 3;

// A comparison's choice is its function's number and this; that of a comparison of two values lies above the other.
pub const COMPARES: usize = 10;

pub const WEIGHS: usize = 20;

pub const LITERAL: usize = 1;

pub const ATTRIBUTE: usize = 2;

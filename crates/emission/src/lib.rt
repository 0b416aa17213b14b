// The numbers that entries are made of, and writing them right before the place where the code behind them starts.
// Kept: `as` between usize and u64, since there is no `From` between them.
// Kept: `out` and `end` are two parameters, since each contract over a struct with a `&mut` in it would also have to say that it is still the same one.
#![tactic(auto)]

pub mod conditions;
pub mod dues;
pub mod targets;
pub mod values;

ghost use Rattle.std.specs.Prelude.{◌≡◌, [], ◌∷◌, ◌+◌, ◌*◌, ◌<◌, set};
ghost use Rattle.meaning.specs.Reading.{effect_of};
ghost use Rattle.layout.specs.Layout.{effect_code, test_word};
ghost use Rattle.emission.specs.Emit.{Wrote};

use layout::{Coded, kind};
use meaning::Test;
use value::Function;

// A key is its issuer times this, and the rest.
pub const ISSUER: u64 = 4294967296;

// So many numbers has a test.
pub const TEST_WORDS: u64 = bool::SIZE * Function::SIZE;

// A store that a slice without the place ignores, so that the length of a programme is found without writing it.
fn put(out: &mut [u64], at: usize, number: u64)
    ensures { out.new ≡ set out.old at number }
{
    if at < out.len() {
        out[at] = number;
    }
}

// A number right before `end`.
pub fn prepend(out: &mut [u64], end: usize, number: u64) -> usize
    requires { 0 < end }
    ensures { Wrote (number ∷ []) end out.old out.new result }
{
    let at = end - 1;
    put(out, at, number);
    at
}

// An entry of one number, made of what it is and of a field.
// Kept: what it is comes as a number, since docs/CONTRACTS.md names this function, and it takes any below 16.
pub fn single(out: &mut [u64], end: usize, op: u64, field: usize) -> usize
    requires { (0 < end) × (op < 16) × (field < 262144) }
    ensures { Wrote ((op + 16 * field) ∷ []) end out.old out.new result }
{
    prepend(out, end, op + kind::KINDS * field as u64)
}

// A test in a number, by function and must-be-present.
pub fn test_word(t: Test) -> u64
    ensures { (result ≡ test_word t) × (result < 16) }
{
    t.function.code() + Function::SIZE * t.must.code()
}

// The number of the effect that a choice names.
pub fn effect_code(choice: usize) -> usize
    ensures { (result ≡ effect_code (effect_of choice)) × (result < 2) }
{
    meaning::effect_of(choice).code() as usize
}

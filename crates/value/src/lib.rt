// Attribute values, and the functions 1 to 5 that compare them.
#![tactic(auto)]

ghost use Rattle.std.specs.Prelude.{◌≡◌};
ghost use Rattle.value.specs.Value.{signed64, finite_of, value_of, greater_of, equal_of, at_least_of, function_of, test_of};

// Equal as the documents say: doubles as IEEE 754 has them, the two zeros too.
#[derive(Clone, Copy, PartialEq)]
pub enum Value {
    Integer(i64),
    Name(u64),
    Double(f64),
}

#[derive(Clone, Copy)]
pub enum Function {
    Equal,
    Greater,
    GreaterOrEqual,
    Less,
    LessOrEqual,
}

// The function of this number.
// Kept: functions and no `From`, here and `value_of`: docs/CONTRACTS.md names both, and a number or a type byte is of no type of its own.
#[tactic(auto, unfolding(crate::specs::Value::function_of))]
pub fn function_of(n: usize) -> Function
    ensures { result ≡ function_of n }
{
    match n {
        1 => Function::Equal,
        2 => Function::Greater,
        3 => Function::GreaterOrEqual,
        4 => Function::Less,
        _ => Function::LessOrEqual,
    }
}

// The bits of a double's fraction lie below this, 2^52; above them are its exponent, of 11 bits, and its sign.
const FRACTION: u64 = 0x10_0000_0000_0000;

const EXPONENTS: u64 = 2048;

// Whether eight bytes, as a number, are those of a finite double: the 11 bits after the sign are not all ones.
// Kept: by its bits, not `f64::from_bits(n).is_finite()`, since `from_bits` asks for bits that are no NaN, and here that is the question.
#[tactic(auto, unfolding(crate::specs::Value::finite_of))]
pub fn finite(n: u64) -> bool
    ensures { result ≡ finite_of n }
{
    n / FRACTION % EXPONENTS != EXPONENTS - 1
}

// Eight bytes as a signed number: the unsigned number, less 2^64 when the top bit is set.
#[tactic(auto, using(crate::proofs::Halves::signed_is))]
pub fn signed(n: u64) -> i64
    ensures { result ≡ signed64 n }
{
    n.cast_signed()
}

// The value that eight bytes of the type kind stand for.
#[tactic(auto, using(crate::proofs::Laws::finite_no_nan), unfolding(crate::specs::Value::value_of))]
pub fn value_of(kind: usize, n: u64) -> Value
    ensures { result ≡ value_of kind n }
{
    match kind {
        1 => Value::Integer(signed(n)),
        2 => Value::Name(n),
        _ if finite(n) => Value::Double(f64::from_bits(n)),
        _ => Value::Name(n),
    }
}

// The first is greater than the second.
fn greater(a: Value, b: Value) -> bool
    ensures { result ≡ greater_of a b }
{
    match (a, b) {
        (Value::Integer(x), Value::Integer(y)) => x > y,
        (Value::Double(x), Value::Double(y)) => x > y,
        _ => false,
    }
}

// The first is greater than the second, or equal to it.
#[tactic(auto, using(crate::proofs::AtLeast::at_least_double))]
fn at_least(a: Value, b: Value) -> bool
    ensures { result ≡ at_least_of a b }
{
    match (a, b) {
        (Value::Integer(x), Value::Integer(y)) => x >= y,
        (Value::Name(x), Value::Name(y)) => x == y,
        (Value::Double(x), Value::Double(y)) => x >= y,
        _ => false,
    }
}

// Function f of the literal and the request's value.
pub fn holds(f: Function, literal: Value, given: Value) -> bool
    ensures { result ≡ test_of f literal given }
{
    match f {
        Function::Equal => literal == given,
        Function::Greater => greater(literal, given),
        Function::GreaterOrEqual => at_least(literal, given),
        Function::Less => greater(given, literal),
        Function::LessOrEqual => at_least(given, literal),
    }
}

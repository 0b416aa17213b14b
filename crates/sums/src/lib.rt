// Operators on values: integer add, subtract, multiply, divide and remainder, and double add, that say where there is no result.
#![tactic(auto)]

ghost use Rattle.std.specs.Prelude.{◌≡◌, T};
ghost use Rattle.value.specs.Value.{value_of};
ghost use Rattle.sums.specs.declared.Operator.TheVariants.{DoubleAdd};
ghost use Rattle.sums.specs.Sums.{whole_of, rem_of, result_of, kind_of, bytes_of, in_bytes, is_number};

use value::Value;

#[derive(Clone, Copy, PartialEq, Eq)]
pub enum Operator {
    Add,
    Subtract,
    Multiply,
    Divide,
    Remainder,
    DoubleAdd,
}

// The standard's status codes: why there is no answer. A missing attribute; a processing error, as a sum that fails.
#[derive(Clone, Copy, PartialEq, Eq)]
pub enum Status {
    Missing,
    Processing,
}

// A value, or why there is none.
pub type Worth = Result<Value, Status>;

// A worth as a word: its eight bytes.
pub type Word = Result<u64, Status>;

// A result that 64 bits hold, or the failure of a sum that they do not.
fn whole(found: Option<i64>) -> Worth
    ensures { result ≡ whole_of found }
{
    Ok(Value::Integer(found.ok_or(Status::Processing)?))
}

// The remainder with the dividend's sign. By -1 it is 0, of the least number too: `checked_rem` would give none there.
fn remainder(x: i64, y: i64) -> Worth
    ensures { result ≡ rem_of x y }
{
    if y == 0 {
        return Err(Status::Processing);
    }
    Ok(Value::Integer(x.wrapping_rem(y)))
}

// The sum of two doubles, by their eight bytes.
#[tactic(auto, using(crate::proofs::Finite::is_double))]
fn plus(first: u64, second: u64) -> Worth
    ensures { result ≡ result_of DoubleAdd (value_of 3 first) (value_of 3 second) }
{
    if !value::finite(first) || !value::finite(second) {
        return Err(Status::Processing);
    }
    let sum = f64::from_bits(first) + f64::from_bits(second);
    if !sum.is_finite() {
        return Err(Status::Processing);
    }
    Ok(Value::Double(sum))
}

// What the operator gives of two values of its type, by their eight bytes.
#[tactic(auto, using(crate::proofs::Checked::fits, crate::proofs::Checked::divides), unfolding(value::specs::Value::value_of))]
fn operate(op: Operator, first: u64, second: u64) -> Worth
    ensures { result ≡ result_of op (value_of (kind_of op) first) (value_of (kind_of op) second) }
{
    let x = value::signed(first);
    let y = value::signed(second);
    match op {
        Operator::Add => whole(x.checked_add(y)),
        Operator::Subtract => whole(x.checked_sub(y)),
        Operator::Multiply => whole(x.checked_mul(y)),
        Operator::Divide => whole(x.checked_div(y)),
        Operator::Remainder => remainder(x, y),
        Operator::DoubleAdd => plus(first, second),
    }
}

// The type of the operator's operands.
pub fn kind(op: Operator) -> usize
    ensures { result ≡ kind_of op }
{
    match op {
        Operator::DoubleAdd => 3,
        _ => 1,
    }
}

// The eight bytes of a value, as a number.
pub fn bytes_of(v: Value) -> u64
    requires { T (is_number v) }
    ensures { result ≡ bytes_of v }
{
    match v {
        Value::Integer(x) => x.cast_unsigned(),
        Value::Name(n) => n,
        Value::Double(x) => x.to_bits(),
    }
}

// The operator on two words: each is taken as the value of the operator's type that its eight bytes stand for.
pub fn work(op: Operator, first: u64, second: u64) -> Word
    ensures { result ≡ in_bytes (result_of op (value_of (kind_of op) first) (value_of (kind_of op) second)) }
{
    Ok(bytes_of(operate(op, first, second)?))
}

// Values in conditions, found on the records themselves. A value is its eight bytes; record i, with the records below it, ends at `stop`.
#![tactic(auto)]

ghost use Rattle.std.specs.Prelude.{◌≡◌, List, ◌+◌, ◌*◌, ◌-◌, ◌<◌, ◌≤◌, length};
ghost use Rattle.record.specs.Bytes.{size};
ghost use Rattle.record.specs.Forest.{forest};
ghost use Rattle.sums.specs.Sums.{in_bytes};
ghost use Rattle.meaning.specs.Policy.{Expr};
ghost use Rattle.meaning.specs.Meaning.{type_of, worth, condition_of};
ghost use Rattle.meaning.specs.Reading.{choice_at, bare_at, key_at, operator_of, expr_at, exprs_in, weighs_at, bags_of};
ghost use Rattle.weigh.specs.Words.{operated_of, weighed_of};
ghost use Rattle.weigh.specs.Two.{second_in};

use meaning::Truth;
use record::choice::{ATTRIBUTE, LITERAL, WEIGHS};
use sums::{Operator, Word};
use value::Function;

// The bit of must-be-present in bytes 4 to 7 of a record.
const MUST: u32 = 0x80_0000;

// The key of record i without its issuer: bytes 4 to 7, without must-be-present.
fn bare_at(book: &[u8], i: usize) -> u32
    requires { (i + 1) * size ≤ length book.now }
    ensures { result ≡ bare_at book.now i }
{
    let word = record::big4(book, i * record::SIZE + 4);
    if record::byte(book, i, 5) < 128 {
        word
    } else {
        word - MUST
    }
}

// The key of record i, of six bytes.
pub fn key_at(book: &[u8], i: usize) -> u64
    requires { (i + 1) * size ≤ length book.now }
    ensures { (result ≡ key_at book.now i) × (result < 281474976710656) }
{
    let issuer = record::big2(book, i * record::SIZE + 16);
    u64::from(bare_at(book, i)) + request::BARES * u64::from(issuer)
}

// The operator that a choice names.
// Kept: choices as numbers: the definitions give each number a meaning, also in a book that is refused; docs/CONTRACTS.md names this function.
pub fn operator_of(choice: usize) -> Operator
    ensures { result ≡ operator_of choice }
{
    match choice {
        3 => Operator::Add,
        4 => Operator::Subtract,
        5 => Operator::Multiply,
        6 => Operator::Divide,
        7 => Operator::Remainder,
        _ => Operator::DoubleAdd,
    }
}

// The type of the value at record i: byte 5 of a literal, the key's of an attribute, the operator's.
// Kept: `as` between usize and u64, since there is no `From` between them.
pub fn type_at(book: &[u8], i: usize) -> usize
    requires { (i + 1) * size ≤ length book.now }
    ensures { ((es : List Expr) → result ≡ type_of (expr_at book.now i es)) × (result < 256) }
{
    match record::byte(book, i, 1) {
        LITERAL => record::byte(book, i, 5),
        ATTRIBUTE => (key_at(book, i) / 65536 % 256) as usize,
        choice => sums::kind(operator_of(choice)),
    }
}

// Where the second record below record i begins; without two, `stop`.
// Kept: no `Option`, since it is where the first record ends, be there a second or not.
pub fn second_in(book: &[u8], i: usize, stop: usize) -> usize
    requires { (i < stop) × (stop * size ≤ length book.now) }
    ensures { (result ≡ second_in book.now i stop) × (i < result) × (result ≤ stop) }
{
    let first = i + 1;
    if first == stop {
        stop
    } else {
        first + record::span_in(book, first, stop - first)
    }
}

// The operator of two operands; lost as the first operand that is.
fn operated(op: Operator, a: Word, b: Word) -> Word
    ensures { result ≡ operated_of op a b }
{
    sums::work(op, a?, b?)
}

// The worth of the value at record i: 1 a literal, 2 an attribute, else an operator, which without two operands is read as a literal. It calls itself on
// its operands, and fewer records are left at each call.
fn worth_at(book: &[u8], request: &[u8], i: usize, stop: usize) -> Word
    requires { (i < stop) × (stop * size ≤ length book.now) }
    ensures { result ≡ in_bytes (worth (bags_of request.now) (expr_at book.now i (exprs_in book.now (forest book.now (i + 1) (stop - i - 1))))) }
{
    let choice = record::byte(book, i, 1);
    if choice == ATTRIBUTE {
        return request::only(request, key_at(book, i));
    }
    let literal = record::big8(book, i * record::SIZE + 8);
    if choice == LITERAL {
        return Ok(literal);
    }
    let second = second_in(book, i, stop);
    if second == stop {
        return Ok(literal);
    }
    let last = second + record::span_in(book, second, stop - second);
    let a = worth_at(book, request, i + 1, second);
    let b = worth_at(book, request, second, last);
    operated(operator_of(choice), a, b)
}

// The function of two values of one type; Unknown as the first that is lost.
fn weighed(f: Function, kind: usize, a: Word, b: Word) -> Truth
    ensures { result ≡ weighed_of f kind a b }
{
    match (a, b) {
        (Ok(x), Ok(y)) => meaning::truth_of(value::holds(
            f,
            value::value_of(kind, x),
            value::value_of(kind, y),
        )),
        (Err(why), _) | (Ok(_), Err(why)) => Truth::Unknown(why),
    }
}

// The comparison at record i of the two values below it, the second of which begins at `second`.
pub fn compared(book: &[u8], request: &[u8], i: usize, second: usize, stop: usize) -> Truth
    requires { (i < stop) × (stop * size ≤ length book.now) × (second ≡ second_in book.now i stop) × (second < stop) × (20 < choice_at book.now i) }
    ensures { result ≡ condition_of (bags_of request.now) (weighs_at book.now i (exprs_in book.now (forest book.now (i + 1) (stop - i - 1)))) }
{
    let f = value::function_of(record::byte(book, i, 1) - WEIGHS);
    let first = i + 1;
    let last = second + record::span_in(book, second, stop - second);
    let a = worth_at(book, request, first, second);
    let b = worth_at(book, request, second, last);
    weighed(f, type_at(book, first), a, b)
}

// The code of values in conditions: literals, attributes and operators, and the two operands that an operator or a comparison has.
ghost use Rattle.std.specs.Prelude.{◌≡◌, [], ◌∷◌, ◌+◌, ◌*◌, ◌-◌, ◌<◌, ◌≤◌, length};
ghost use Rattle.record.specs.Bytes.{size, big_of};
ghost use Rattle.meaning.specs.Reading.{key_at};
ghost use Rattle.weigh.specs.Two.{second_in};
ghost use Rattle.layout.specs.Entry.{loads, asks, further, sum};
ghost use Rattle.emission.specs.Emit.{Emitted, Wrote, expr_code, operands_code};

use crate::prepend;
use layout::{Coded, kind};
use record::choice::{ATTRIBUTE, LITERAL};

// A piece of one number, made of which it is and of a field.
// Kept: which it is comes as a number, since docs/CONTRACTS.md names this function, and it takes any below 4.
pub fn piece(out: &mut [u64], end: usize, which: u64, field: u64) -> usize
    requires { (0 < end) × (which < 4) × (field < 281474976710656) }
    ensures { Wrote ((12 + 16 * (which + 4 * field)) ∷ []) end out.old out.new result }
{
    prepend(
        out,
        end,
        kind::SUM + kind::KINDS * (which + kind::PIECES * field),
    )
}

// The literal at record i, as a value of this type.
fn literal(book: &[u8], i: usize, kind: usize, out: &mut [u64], end: usize) -> usize
    requires { ((i + 1) * size ≤ length book.now) × (kind < 256) × (2 ≤ end) }
    ensures { Emitted (sum (loads kind (big_of book.now (i * size + 8) 8)) ∷ further ∷ []) end out.old out.new result }
{
    let value = prepend(out, end, record::big8(book, i * record::SIZE + 8));
    piece(out, value, kind::LOADS, kind as u64)
}

// The attribute at record i.
fn attribute(book: &[u8], i: usize, out: &mut [u64], end: usize) -> usize
    requires { ((i + 1) * size ≤ length book.now) × (0 < end) }
    ensures { Emitted (sum (asks (key_at book.now i)) ∷ []) end out.old out.new result }
{
    let key = weigh::key_at(book, i);
    piece(out, end, kind::ASKS, key)
}

// The two operands of record i, the second of which begins at `second`.
// Kept: places in place of a node, since docs/CONTRACTS.md names this function, and it asks for no table of elders.
#[cycle(expr_operands)]
pub fn operands(
    book: &[u8],
    i: usize,
    second: usize,
    stop: usize,
    out: &mut [u64],
    end: usize,
) -> usize
    requires { (i < stop) × (stop * size ≤ length book.now) × (second ≡ second_in book.now i stop) × (second < stop) × (length (operands_code book.now i (stop - i)) ≤ end) }
    ensures { Emitted (operands_code book.now i (stop - i)) end out.old out.new result }
{
    let last = second + record::span_in(book, second, stop - second);
    let mid = expr(book, second, last, out, end);
    expr(book, i + 1, second, out, mid)
}

// The value at record i, which ends at `stop`: 1 a literal, 2 an attribute, else an operator; without two operands it counts as a literal.
#[cycle(expr_operands)]
fn expr(book: &[u8], i: usize, stop: usize, out: &mut [u64], end: usize) -> usize
    requires { (i < stop) × (stop * size ≤ length book.now) × (length (expr_code book.now i (stop - i)) ≤ end) }
    ensures { Emitted (expr_code book.now i (stop - i)) end out.old out.new result }
{
    let choice = record::byte(book, i, 1);
    if choice == ATTRIBUTE {
        return attribute(book, i, out, end);
    }
    let kind = weigh::type_at(book, i);
    if choice == LITERAL {
        return literal(book, i, kind, out, end);
    }
    let second = weigh::second_in(book, i, stop);
    if second == stop {
        return literal(book, i, kind, out, end);
    }
    let op = weigh::operator_of(choice);
    let foot = piece(out, end, kind::WORKS, op.code());
    operands(book, i, second, stop, out, foot)
}

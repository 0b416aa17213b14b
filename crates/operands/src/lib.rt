// The operands of a record: whether it has two values for children, of which type, and whether those are what it wants.
#![tactic(auto)]

ghost use Rattle.std.specs.Prelude.{◌≡◌, ◌+◌, ◌*◌, ◌<◌, ◌≤◌, length};
ghost use Rattle.record.specs.Bytes.{size, byte_of};
ghost use Rattle.fields.specs.declared.Kind.TheVariants.{Weighing};
ghost use Rattle.operands.specs.Parent.{end_of};
ghost use Rattle.operands.specs.Operands.{operator_type, type_by, value_type, two_values, comparable_by, operands_ok, operands_at};

use fields::Kind;
use record::{byte, span};

// The type that an operator takes and gives, by its choice.
pub fn operator_type(c: usize) -> usize
    ensures { result ≡ operator_type c }
{
    if c == 8 { 3 } else { 1 }
}

// The type of a value: t where the record states one, an operator's own; 0 for a record that is no value.
// Kept: a number, 0 for none: the definition gives the type byte, which in a refused book is any number.
fn type_by(k: Kind, t: usize, c: usize) -> usize
    ensures { result ≡ type_by k t c }
{
    match k {
        Kind::Literal | Kind::Attribute => t,
        Kind::Operator => operator_type(c),
        _ => 0,
    }
}

// The type of the value that record i is; 0 where it is none.
#[tactic(auto, unfolding(crate::specs::Operands::value_type))]
pub fn value_type(book: &[u8], i: usize) -> usize
    requires { (i + 1) * size ≤ length book.now }
    ensures { result ≡ value_type book.now i }
{
    type_by(
        fields::kind_at(book, i),
        byte(book, i, 5) % 128,
        byte(book, i, 1),
    )
}

// Whether record i, which ends at `end`, has two children, both values of type t. `reach` is the farthest end of the records after i that were met: the
// next is a child of i where none of them covers it.
// Kept: book, i and end apart, here and below: tried as one struct, `operands_ok` took 308 instructions in place of 279.
#[tactic(auto, unfolding(crate::specs::Operands::two_values))]
pub fn two_values(book: &[u8], i: usize, end: usize, t: usize) -> bool
    requires { (end * size ≤ length book.now) × (i < end) × (end ≡ end_of book.now i) }
    ensures { result ≡ two_values book.now i t }
{
    let mut reach = i + 1;
    let mut children = 0;
    let mut operands = 0;
    for j in i + 1..end {
        let child = reach <= j;
        children += usize::from(child);
        operands += usize::from(child && value_type(book, j) == t);
        reach = reach.max(j + span(book, j));
    }
    children == 2 && operands == 2
}

// Whether values of type t may be compared by choice c.
#[tactic(auto, unfolding(crate::specs::Operands::comparable_by))]
pub fn comparable(t: usize, c: usize) -> bool
    ensures { result ≡ comparable_by t c }
{
    if t == 2 { c == 21 } else { 0 < t }
}

// Whether record i, which ends at `end`, has two values that it may compare. Where nothing stands below it, no type is looked up: there may be no next record.
#[tactic(auto, using(crate::proofs::Lookahead::none_below))]
fn compares_two(book: &[u8], i: usize, end: usize) -> bool
    requires { (end * size ≤ length book.now) × (i < end) × (end ≡ end_of book.now i) }
    ensures { result ≡ operands_ok Weighing (byte_of book.now i 1) (value_type book.now (i + 1)) (two_values book.now i) }
{
    if end == i + 1 {
        return false;
    }
    let t = value_type(book, i + 1);
    comparable(t, byte(book, i, 1)) && two_values(book, i, end, t)
}

// Whether record i of kind k, which ends at `end`, has the operands that it wants.
fn operands_of(book: &[u8], i: usize, end: usize, k: Kind) -> bool
    requires { (end * size ≤ length book.now) × (i < end) × (end ≡ end_of book.now i) }
    ensures { result ≡ operands_ok k (byte_of book.now i 1) (value_type book.now (i + 1)) (two_values book.now i) }
{
    match k {
        Kind::Weighing => compares_two(book, i, end),
        Kind::Operator => two_values(book, i, end, operator_type(byte(book, i, 1))),
        _ => true,
    }
}

// The same of record i, whatever its kind.
#[tactic(auto, unfolding(crate::specs::Operands::operands_at))]
pub fn operands_ok(book: &[u8], i: usize, end: usize) -> bool
    requires { (end * size ≤ length book.now) × (i < end) × (end ≡ end_of book.now i) }
    ensures { result ≡ operands_at book.now i }
{
    operands_of(book, i, end, fields::kind_at(book, i))
}

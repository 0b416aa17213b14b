// Whether a record is of a kind, and keeps its field rules.
ghost use Rattle.std.specs.Prelude.{◌≡◌, ◌+◌, ◌*◌, ◌≤◌, length};
ghost use Rattle.record.specs.Bytes.{size, byte_of};
ghost use Rattle.grammar.specs.Row.{is_fit};
ghost use Rattle.grammar.specs.Table.{table_of, in_table};

use fields::Kind;
use record::kind::{CONDITION, CONJUNCTION, MATCH, OBLIGATION, POLICY, RULE, SECTION, SET, VALUE};

// The papers' table by kind: its kind byte, its lowest choice and its highest; `Nothing` has no choice.
// Kept beside `fields::kind_of`: a table by kind, of which one row is left where the kind is known.
#[inline(always)]
fn table_of(kind: Kind) -> (usize, usize, usize)
    ensures { result ≡ table_of kind }
{
    match kind {
        Kind::PolicySet => (SET, 1, 4),
        Kind::Policy => (POLICY, 1, 3),
        Kind::Rule => (RULE, 1, 2),
        Kind::Section => (SECTION, 0, 0),
        Kind::Conjunction => (CONJUNCTION, 0, 0),
        Kind::Match => (MATCH, 1, 5),
        Kind::Logic => (CONDITION, 1, 2),
        Kind::Not => (CONDITION, 3, 3),
        Kind::Comparison => (CONDITION, 11, 15),
        Kind::Weighing => (CONDITION, 21, 25),
        Kind::Obligation => (OBLIGATION, 1, 2),
        Kind::Literal => (VALUE, 1, 1),
        Kind::Attribute => (VALUE, 2, 2),
        Kind::Operator => (VALUE, 3, 8),
        Kind::Nothing => (0, 1, 0),
    }
}

// Whether record i has this kind's byte, and one of its choices.
#[inline(always)]
fn in_table(book: &[u8], i: usize, kind: Kind) -> bool
    requires { (i + 1) * size ≤ length book.now }
    ensures { result ≡ in_table kind (byte_of book.now i 0) (byte_of book.now i 1) }
{
    let (byte, low, high) = table_of(kind);
    record::byte(book, i, 0) == byte && (low..=high).contains(&record::byte(book, i, 1))
}

// Whether record i is of this kind, and keeps its field rules. Where the kind is known, the compiler keeps no more of the table than its row.
#[inline(always)]
pub fn is_fit(book: &[u8], i: usize, kind: Kind) -> bool
    requires { (i + 1) * size ≤ length book.now }
    ensures { result ≡ is_fit book.now i kind }
{
    in_table(book, i, kind) && fields::rules(book, i, kind)
}

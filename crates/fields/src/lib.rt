// The field rules of records and of a request's entries.
#![tactic(auto)]

ghost use Rattle.std.specs.Prelude.{◌≡◌, ◌+◌, ◌*◌, ◌≤◌, length};
ghost use Rattle.record.specs.Bytes.{size};
ghost use Rattle.fields.specs.First.{first_from};
ghost use Rattle.fields.specs.Fields.{kind_of, kind_at, category_ok, type_of, type_at, finite, value_ok, function_ok, zeros, plain_ok, section_ok, compares_ok, obligation_ok, literal_ok, attribute_ok, rules_of, field_ok, obligations_of};
ghost use Rattle.fields.specs.Entries.{entry_ok};

use record::choice::COMPARES;
use record::kind::{CONDITION, CONJUNCTION, MATCH, OBLIGATION, POLICY, RULE, SECTION, SET, VALUE};
use record::{SIZE, big2, big4, big8, byte, span};

#[derive(Clone, Copy, PartialEq, Eq)]
pub enum Kind {
    PolicySet,
    Policy,
    Rule,
    Section,
    Conjunction,
    Match,
    Logic,
    Not,
    Comparison,
    Weighing,
    Obligation,
    Literal,
    Attribute,
    Operator,
    Nothing,
}

#[derive(Clone, Copy, PartialEq, Eq)]
pub enum Sort {
    Integer,
    Name,
    Double,
    Other,
}

// What a record of kind k and choice c is.
#[tactic(auto, unfolding(crate::specs::Fields::kind_of))]
pub fn kind_of(k: usize, c: usize) -> Kind
    ensures { result ≡ kind_of k c }
{
    match (k, c) {
        (SET, 1..=4) => Kind::PolicySet,
        (POLICY, 1..=3) => Kind::Policy,
        (RULE, 1..=2) => Kind::Rule,
        (SECTION, 0) => Kind::Section,
        (CONJUNCTION, 0) => Kind::Conjunction,
        (MATCH, 1..=5) => Kind::Match,
        (CONDITION, 1..=2) => Kind::Logic,
        (CONDITION, 3) => Kind::Not,
        (CONDITION, 11..=15) => Kind::Comparison,
        (CONDITION, 21..=25) => Kind::Weighing,
        (OBLIGATION, 1..=2) => Kind::Obligation,
        (VALUE, 1) => Kind::Literal,
        (VALUE, 2) => Kind::Attribute,
        (VALUE, 3..=8) => Kind::Operator,
        _ => Kind::Nothing,
    }
}

// What record i is.
#[tactic(auto, unfolding(crate::specs::Fields::kind_at))]
pub fn kind_at(book: &[u8], i: usize) -> Kind
    requires { (i + 1) * size ≤ length book.now }
    ensures { result ≡ kind_at book.now i }
{
    kind_of(byte(book, i, 0), byte(book, i, 1))
}

fn category_ok(c: usize) -> bool
    ensures { result ≡ category_ok c }
{
    matches!(c, 1..=4)
}

#[tactic(auto, unfolding(crate::specs::Fields::type_of))]
pub fn type_of(t: usize) -> Sort
    ensures { result ≡ type_of t }
{
    match t {
        1 => Sort::Integer,
        2 => Sort::Name,
        3 => Sort::Double,
        _ => Sort::Other,
    }
}

// The type of record i.
#[tactic(auto, unfolding(crate::specs::Fields::type_at))]
pub fn type_at(book: &[u8], i: usize) -> Sort
    requires { (i + 1) * size ≤ length book.now }
    ensures { result ≡ type_at book.now i }
{
    type_of(byte(book, i, 5) % 128)
}

// Whether the value of record i, as a double, is finite.
#[tactic(auto, unfolding(crate::specs::Fields::finite))]
fn is_finite(book: &[u8], i: usize) -> bool
    requires { (i + 1) * size ≤ length book.now }
    ensures { result ≡ finite book.now i }
{
    value::finite(big8(book, i * SIZE + 8))
}

fn value_ok(t: Sort, fin: bool) -> bool
    ensures { result ≡ value_ok t fin }
{
    match t {
        Sort::Integer | Sort::Name => true,
        Sort::Double => fin,
        Sort::Other => false,
    }
}

fn function_ok(t: Sort, f: usize) -> bool
    ensures { result ≡ function_ok t f }
{
    t != Sort::Name || f == 1
}

// Whether the bytes of record i from its issuer on are zero.
#[tactic(auto, using(crate::proofs::Laws::zeros_big))]
fn no_issuer(book: &[u8], i: usize) -> bool
    requires { (i + 1) * size ≤ length book.now }
    ensures { result ≡ zeros book.now i 16 size }
{
    big4(book, i * SIZE + 16) == 0
}

// Whether the bytes of record i from 8 on are zero.
#[tactic(auto, using(crate::proofs::Laws::from_8))]
fn back_zero(book: &[u8], i: usize) -> bool
    requires { (i + 1) * size ≤ length book.now }
    ensures { result ≡ zeros book.now i 8 size }
{
    big8(book, i * SIZE + 8) == 0 && no_issuer(book, i)
}

// Whether the bytes of record i behind its issuer are zero.
#[tactic(auto, using(crate::proofs::Laws::zeros_big))]
fn end_zero(book: &[u8], i: usize) -> bool
    requires { (i + 1) * size ≤ length book.now }
    ensures { result ≡ zeros book.now i 18 size }
{
    big2(book, i * SIZE + 18) == 0
}

// A record that uses no byte but kind, choice and span, the span being at least s.
#[tactic(auto, using(crate::proofs::Laws::from_4), unfolding(crate::specs::Fields::plain_ok))]
pub fn plain_ok(book: &[u8], i: usize, s: usize) -> bool
    requires { (i + 1) * size ≤ length book.now }
    ensures { result ≡ plain_ok book.now i s }
{
    s <= span(book, i) && big4(book, i * SIZE + 4) == 0 && back_zero(book, i)
}

// A section.
#[tactic(auto, using(crate::proofs::Laws::from_5), unfolding(crate::specs::Fields::section_ok))]
pub fn section_ok(book: &[u8], i: usize) -> bool
    requires { (i + 1) * size ≤ length book.now }
    ensures { result ≡ section_ok book.now i }
{
    2 <= span(book, i)
        && category_ok(byte(book, i, 4))
        && byte(book, i, 5) == 0
        && big2(book, i * SIZE + 6) == 0
        && back_zero(book, i)
}

// A match or comparison by function f.
#[tactic(auto, unfolding(crate::specs::Fields::compares_ok))]
pub fn compares_ok(book: &[u8], i: usize, f: usize) -> bool
    requires { (i + 1) * size ≤ length book.now }
    ensures { result ≡ compares_ok book.now i f }
{
    let t = type_at(book, i);
    span(book, i) == 1
        && category_ok(byte(book, i, 4))
        && value_ok(t, is_finite(book, i))
        && function_ok(t, f)
        && end_zero(book, i)
}

// An obligation.
#[tactic(auto, using(crate::proofs::Laws::zeros_big), unfolding(crate::specs::Fields::obligation_ok))]
pub fn obligation_ok(book: &[u8], i: usize) -> bool
    requires { (i + 1) * size ≤ length book.now }
    ensures { result ≡ obligation_ok book.now i }
{
    span(book, i) == 1 && big2(book, i * SIZE + 4) == 0 && back_zero(book, i)
}

// A literal.
#[tactic(auto, using(crate::proofs::Laws::zeros_one, crate::proofs::Laws::zeros_big), unfolding(crate::specs::Fields::literal_ok))]
pub fn literal_ok(book: &[u8], i: usize) -> bool
    requires { (i + 1) * size ≤ length book.now }
    ensures { result ≡ literal_ok book.now i }
{
    span(book, i) == 1
        && byte(book, i, 4) == 0
        && value_ok(type_of(byte(book, i, 5)), is_finite(book, i))
        && big2(book, i * SIZE + 6) == 0
        && no_issuer(book, i)
}

// An attribute.
#[tactic(auto, using(crate::proofs::Laws::zeros_big), unfolding(crate::specs::Fields::attribute_ok))]
pub fn attribute_ok(book: &[u8], i: usize) -> bool
    requires { (i + 1) * size ≤ length book.now }
    ensures { result ≡ attribute_ok book.now i }
{
    span(book, i) == 1
        && category_ok(byte(book, i, 4))
        && value_ok(type_at(book, i), true)
        && big8(book, i * SIZE + 8) == 0
        && end_zero(book, i)
}

pub fn rules(book: &[u8], i: usize, k: Kind) -> bool
    requires { (i + 1) * size ≤ length book.now }
    ensures { result ≡ rules_of book.now i k }
{
    match k {
        Kind::PolicySet
        | Kind::Policy
        | Kind::Rule
        | Kind::Logic
        | Kind::Weighing
        | Kind::Operator => plain_ok(book, i, 1),
        Kind::Conjunction | Kind::Not => plain_ok(book, i, 2),
        Kind::Section => section_ok(book, i),
        Kind::Match => compares_ok(book, i, byte(book, i, 1)),
        Kind::Comparison => compares_ok(book, i, byte(book, i, 1).saturating_sub(COMPARES)),
        Kind::Obligation => obligation_ok(book, i),
        Kind::Literal => literal_ok(book, i),
        Kind::Attribute => attribute_ok(book, i),
        Kind::Nothing => false,
    }
}

// The field rules of record i.
#[tactic(auto, unfolding(crate::specs::Fields::field_ok))]
pub fn field_ok(book: &[u8], i: usize) -> bool
    requires { (i + 1) * size ≤ length book.now }
    ensures { result ≡ field_ok book.now i }
{
    rules(book, i, kind_at(book, i))
}

// The records before the first that breaks a field rule, and how many of them are obligations.
#[derive(Clone, Copy)]
pub struct Kept {
    pub records: usize,
    pub obligations: usize,
}

// How many of n records keep the field rules before one breaks them.
#[tactic(auto, using(crate::proofs::First::search_steps, crate::proofs::Laws::obligations_none, crate::proofs::Laws::obligations_more))]
pub fn first_field(book: &[u8], n: usize) -> Kept
    requires { n * size ≤ length book.now }
    ensures { (result.records ≡ first_from (field_ok book.now) 0 n) × (result.records ≤ n) × (result.obligations ≡ obligations_of book.now result.records) }
{
    let mut obligations = 0;
    for records in 0..n {
        if !field_ok(book, records) {
            return Kept {
                records,
                obligations,
            };
        }
        obligations += usize::from(byte(book, records, 0) == OBLIGATION);
    }
    Kept {
        records: n,
        obligations,
    }
}

// The field rules of entry i.
#[tactic(auto, using(crate::proofs::Laws::zeros_big), unfolding(crate::specs::Entries::entry_ok))]
fn entry_ok(request: &[u8], i: usize) -> bool
    requires { (i + 1) * size ≤ length request.now }
    ensures { result ≡ entry_ok request.now i }
{
    category_ok(byte(request, i, 0))
        && value_ok(type_of(byte(request, i, 1)), is_finite(request, i))
        && big4(request, i * SIZE + 4) == 0
        && end_zero(request, i)
}

// The first of n entries that breaks a field rule; n where none does.
// Kept: no `Option`, here and above, since n is what `first_from` gives there, and docs/CONTRACTS.md names `first_entry` and `first_field`.
#[tactic(auto, using(crate::proofs::First::search_steps))]
pub fn first_entry(request: &[u8], n: usize) -> usize
    requires { n * size ≤ length request.now }
    ensures { (result ≡ first_from (entry_ok request.now) 0 n) × (result ≤ n) }
{
    for i in 0..n {
        if !entry_ok(request, i) {
            return i;
        }
    }
    n
}

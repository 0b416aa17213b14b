// What is wrong with a refused record: the field rule that it breaks, or how it breaks the place rule that the refusal's number says.
ghost use Rattle.std.specs.Prelude.{◌≡◌, ◌+◌, ◌*◌, ◌≤◌, length, Option};
ghost use Rattle.record.specs.Bytes.{size};
ghost use Rattle.fields.specs.declared.Kind.TheVariants.{Match, Literal};
ghost use Rattle.show.specs.Fault.{kind_fault, plain_fault, category_fault, section_fault, value_fault, compares_fault, literal_value_fault, literal_fault, attribute_value_fault, attribute_fault, field_fault, condition_fault, child_fault, obligation_fault, operands_fault, has_operands, place_fault, fault_of};

use crate::fault::Fault;
use crate::nesting::parent;
use fields::{Kind, Sort};
use record::kind::{CONDITION, CONJUNCTION, POLICY, RULE, SET};

// The fault of kind k and its choice, which are in no row of the table.
#[tactic(auto, unfolding(crate::specs::Fault::kind_fault))]
fn kind_fault(k: usize) -> Fault
    ensures { result ≡ kind_fault k }
{
    match k {
        1..=8 | 10 => Fault::NoChoice,
        _ => Fault::NoKind,
    }
}

// .. of a record that uses no byte but kind, choice and span, the span being at least s.
#[tactic(auto, unfolding(crate::specs::Fault::plain_fault))]
fn plain_fault(span: usize, s: usize) -> Fault
    ensures { result ≡ plain_fault span s }
{
    if span == 0 {
        return Fault::NoSpan;
    }
    if span < s {
        Fault::NothingBelow
    } else {
        Fault::PlainByte
    }
}

// .. of category c; where there is such a category, another fault.
#[tactic(auto, unfolding(crate::specs::Fault::category_fault))]
fn category_fault(c: usize, other: Option<Fault>) -> Option<Fault>
    ensures { result ≡ category_fault c other }
{
    if (1..=4).contains(&c) {
        return other;
    }
    Some(Fault::NoCategory)
}

// .. of a section.
#[tactic(auto, unfolding(crate::specs::Fault::section_fault))]
fn section_fault(span: usize, category: usize) -> Option<Fault>
    ensures { result ≡ section_fault span category }
{
    let inside = if span < 2 {
        Fault::NothingBelow
    } else {
        Fault::SectionByte
    };
    category_fault(category, Some(inside))
}

// .. of the value of a match or comparison, by its type; an integer has none.
fn value_fault(t: Sort) -> Option<Fault>
    ensures { result ≡ value_fault t }
{
    match t {
        Sort::Integer => None,
        Sort::Name => Some(Fault::NameOrdered),
        Sort::Double => Some(Fault::NotFinite),
        Sort::Other => Some(Fault::NoType),
    }
}

// .. of a match or comparison; `unused` is 0 where the bytes behind its issuer are.
#[tactic(auto, unfolding(crate::specs::Fault::compares_fault))]
fn compares_fault(span: usize, category: usize, t: Sort, unused: usize) -> Option<Fault>
    ensures { result ≡ compares_fault span category t unused }
{
    let inside = match (span, unused) {
        (1, 0) => value_fault(t),
        (1, _) => Some(Fault::TestByte),
        _ => Some(Fault::SomethingBelow),
    };
    category_fault(category, inside)
}

// .. of record i, a match or comparison.
fn test_at(book: &[u8], i: usize) -> Option<Fault>
    requires { (i + 1) * size ≤ length book.now }
    ensures { result ≡ field_fault book.now i Match }
{
    let unused = record::big2(book, i * record::SIZE + 18);
    let t = fields::type_at(book, i);
    let category = record::byte(book, i, 4);
    compares_fault(record::span(book, i), category, t, usize::from(unused))
}

// .. of a literal, by its type: an integer or a name has no other fault.
fn literal_value_fault(t: Sort) -> Option<Fault>
    ensures { result ≡ literal_value_fault t }
{
    match t {
        Sort::Integer | Sort::Name => None,
        Sort::Double => Some(Fault::NotFinite),
        Sort::Other => Some(Fault::LiteralType),
    }
}

// .. of a literal; `unused` is 0 where the bytes that it does not use are.
#[tactic(auto, unfolding(crate::specs::Fault::literal_fault))]
fn literal_fault(span: usize, unused: usize, t: Sort) -> Option<Fault>
    ensures { result ≡ literal_fault span unused t }
{
    match (span, unused) {
        (1, 0) => literal_value_fault(t),
        (1, _) => Some(Fault::LiteralByte),
        _ => Some(Fault::SomethingBelow),
    }
}

// .. of record i, a literal.
fn literal_at(book: &[u8], i: usize) -> Option<Fault>
    requires { (i + 1) * size ≤ length book.now }
    ensures { result ≡ field_fault book.now i Literal }
{
    let rest = usize::from(record::big2(book, i * record::SIZE + 6));
    let issuer = record::big4(book, i * record::SIZE + 16) as usize;
    let unused = record::byte(book, i, 4) + rest + issuer;
    let t = fields::type_of(record::byte(book, i, 5));
    literal_fault(record::span(book, i), unused, t)
}

// .. of an attribute, by its type.
fn attribute_value_fault(t: Sort) -> Fault
    ensures { result ≡ attribute_value_fault t }
{
    match t {
        Sort::Integer | Sort::Name | Sort::Double => Fault::AttributeByte,
        Sort::Other => Fault::NoType,
    }
}

// .. of an attribute.
#[tactic(auto, unfolding(crate::specs::Fault::attribute_fault))]
fn attribute_fault(span: usize, category: usize, t: Sort) -> Option<Fault>
    ensures { result ≡ attribute_fault span category t }
{
    let inside = if span == 1 {
        attribute_value_fault(t)
    } else {
        Fault::SomethingBelow
    };
    category_fault(category, Some(inside))
}

// .. of an obligation.
#[tactic(auto, unfolding(crate::specs::Fault::obligation_fault))]
fn obligation_fault(span: usize) -> Fault
    ensures { result ≡ obligation_fault span }
{
    if span == 1 {
        Fault::ObligationByte
    } else {
        Fault::SomethingBelow
    }
}

// .. of record i of kind k, which breaks a field rule.
fn field_fault(book: &[u8], i: usize, k: Kind) -> Option<Fault>
    requires { (i + 1) * size ≤ length book.now }
    ensures { result ≡ field_fault book.now i k }
{
    let span = record::span(book, i);
    let category = record::byte(book, i, 4);
    let t = fields::type_at(book, i);
    match k {
        Kind::PolicySet
        | Kind::Policy
        | Kind::Rule
        | Kind::Logic
        | Kind::Weighing
        | Kind::Operator => Some(plain_fault(span, 1)),
        Kind::Conjunction | Kind::Not => Some(plain_fault(span, 2)),
        Kind::Section => section_fault(span, category),
        Kind::Match | Kind::Comparison => test_at(book, i),
        Kind::Obligation => Some(obligation_fault(span)),
        Kind::Literal => literal_at(book, i),
        Kind::Attribute => attribute_fault(span, category, t),
        Kind::Nothing => Some(kind_fault(record::byte(book, i, 0))),
    }
}

// .. of a record that may not stand below a parent whose kind is p: the parent takes no such record, or takes it at another place.
#[tactic(auto, unfolding(crate::specs::Fault::condition_fault))]
fn child_fault(p: usize, k: Kind) -> Fault
    ensures { result ≡ child_fault p k }
{
    match (k, p) {
        (Kind::PolicySet | Kind::Policy, SET) | (Kind::Rule, POLICY) => { Fault::AfterObligation }
        (Kind::Section, 0..=RULE) => Fault::LateSection,
        (Kind::Match, CONJUNCTION) => Fault::OtherCategory,
        (Kind::Logic | Kind::Not | Kind::Comparison | Kind::Weighing, RULE) => Fault::SecondInRule,
        (Kind::Logic | Kind::Not | Kind::Comparison | Kind::Weighing, CONDITION) => {
            Fault::SecondInNot
        }
        _ => Fault::NotTaken,
    }
}

// .. of a record of this kind that has not the operands that it wants.
#[tactic(auto, unfolding(crate::specs::Fault::operands_fault))]
fn operands_fault(kind: usize) -> Fault
    ensures { result ≡ operands_fault kind }
{
    if kind == CONDITION {
        Fault::OtherPair
    } else {
        Fault::OtherOperands
    }
}

// Whether record i has the operands that it wants. They are looked for where all that it covers is there.
#[tactic(auto, unfolding(crate::specs::Fault::has_operands, operands::specs::Parent::end_of))]
fn has_operands(book: &[u8], i: usize) -> bool
    requires { (i + 1) * size ≤ length book.now }
    ensures { result ≡ has_operands book.now i }
{
    let s = record::span(book, i);
    let end = i + s;
    s == 0 || book.len() < end * record::SIZE || operands::operands_ok(book, i, end)
}

// The fault of record i, which its parent does not allow at that place, or which has not its operands.
#[tactic(auto, unfolding(crate::specs::Fault::place_fault))]
fn place_fault(book: &[u8], i: usize) -> Fault
    requires { (i + 1) * size ≤ length book.now }
    ensures { result ≡ place_fault book.now i }
{
    if !has_operands(book, i) {
        return operands_fault(record::byte(book, i, 0));
    }
    let p = record::byte(book, parent(book, i), 0);
    child_fault(p, fields::kind_at(book, i))
}

// The fault of record i, by the number that refuses it: 5 is a field rule, 9 is line 1's, 10 is the parent's end, 11 is what the parent allows, or the
// operands, 12 is the depth.
// Kept: the number, by which the definition `fault_of` tells the rules; 5 and 9 to 12.
#[tactic(auto, unfolding(crate::specs::Fault::fault_of))]
pub fn fault_of(book: &[u8], i: usize, number: u8) -> Option<Fault>
    requires { (i + 1) * size ≤ length book.now }
    ensures { result ≡ fault_of book.now i number }
{
    match number {
        5 => field_fault(book, i, fields::kind_at(book, i)),
        9 if POLICY < record::byte(book, i, 0) => Some(Fault::NoTop),
        9 => Some(Fault::NotAll),
        10 => Some(Fault::PastEnd),
        11 => Some(place_fault(book, i)),
        _ => Some(Fault::TooDeep),
    }
}

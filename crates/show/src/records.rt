// A record in words.
// Kept: book and i apart, as the functions of `fields` and `record` that these call have them.
ghost use Rattle.std.specs.Prelude.{◌≡◌, ◌+◌, ◌*◌, ◌≤◌, length};
ghost use Rattle.record.specs.Bytes.{size};
ghost use Rattle.record.specs.Forest.{span_in};
ghost use Rattle.show.specs.Outline.{told_of};
ghost use Rattle.show.specs.Sentence.{sentence_words, between_words};

use crate::lines::Line;
use crate::phrases::phrase;
use fields::{Kind, Sort};

// What record i is told as: its kind, and nothing, so its bytes, where it breaks a field rule.
#[tactic(auto, unfolding(crate::specs::Outline::told_of))]
fn told(book: &[u8], i: usize) -> Kind
    requires { (i + 1) * size ≤ length book.now }
    ensures { result ≡ told_of book.now i }
{
    if fields::field_ok(book, i) {
        fields::kind_at(book, i)
    } else {
        Kind::Nothing
    }
}

// The bytes of record i in hexadecimal digits.
fn bytes(book: &[u8], i: usize, line: Line) -> Line
    requires { (i + 1) * size ≤ length book.now }
{
    let mut l = line;
    for k in 0..record::SIZE {
        let b = record::byte(book, i, k);
        l = l.put(text::letter(b / 16)).put(text::letter(b));
    }
    l
}

// The value of record i, bytes 8 to 15; a name stands in quotation marks.
fn value(book: &[u8], i: usize, l: Line) -> Line
    requires { (i + 1) * size ≤ length book.now }
{
    let from = i * record::SIZE + 8;
    let n = record::big8(book, from);
    match fields::type_at(book, i) {
        Sort::Integer => l.integer(n),
        Sort::Name => l.put(b'"').name(&book[from..from + 8]).put(b'"'),
        Sort::Double => l.double(n),
        Sort::Other => l.put(b'?'),
    }
}

// The issuer that record i asks for, where it asks for one.
fn issuer(book: &[u8], i: usize, l: Line) -> Line
    requires { (i + 1) * size ≤ length book.now }
{
    match record::big2(book, i * record::SIZE + 16) {
        0 => l,
        number => l.words(b" of issuer ").decimal(u64::from(number)),
    }
}

// A literal, which stands by itself at record i.
fn literal(book: &[u8], i: usize, l: Line) -> Line
    requires { (i + 1) * size ≤ length book.now }
{
    let sort = record::byte(book, i, 5);
    value(book, i, l.words(phrase(b"|integer |name |double ", sort)))
}

// An attribute, which stands by itself at record i.
fn attribute(book: &[u8], i: usize, l: Line) -> Line
    requires { (i + 1) * size ≤ length book.now }
{
    let category = record::byte(book, i, 4);
    let number = record::big2(book, i * record::SIZE + 6);
    let named = l
        .words(phrase(b"|subject |resource |action |environment ", category))
        .decimal(u64::from(number));
    issuer(book, i, named)
}

// What stands between two values, by a choice: an operator, or how they are compared.
#[tactic(auto, unfolding(crate::specs::Sentence::between_words))]
fn between(choice: usize) -> &'static str
    ensures { result.now ≡ between_words choice }
{
    match choice {
        3 | 8 => " + ",
        4 => " - ",
        5 => " * ",
        6 => " / ",
        7 => " % ",
        21 => " is equal to ",
        22 => " is greater than ",
        23 => " is greater than or equal to ",
        24 => " is less than ",
        25 => " is less than or equal to ",
        _ => "",
    }
}

// How many of `left` records record i covers: none where none is left.
#[tactic(auto, unfolding(record::specs::Forest::span_in))]
fn covered(book: &[u8], i: usize, left: usize) -> usize
    requires { (i + left) * size ≤ length book.now }
    ensures { (result ≡ span_in book.now i left) × (result ≤ left) }
{
    if left == 0 {
        return 0;
    }
    record::span_in(book, i, left)
}

// The value at record i, which covers s records, or the comparison of two, as a person writes it: in brackets where it is a part of an operator, which
// `inner` says, and a question mark for what is none. It calls itself no deeper than `deep` says, since a refused book may nest without end.
fn expression(book: &[u8], i: usize, s: usize, deep: usize, inner: bool, l: Line) -> Line
    requires { (i + s) * size ≤ length book.now }
{
    if s == 0 {
        return l.put(b'?');
    }
    let kind = told(book, i);
    match kind {
        Kind::Literal => literal(book, i, l),
        Kind::Attribute => attribute(book, i, l),
        Kind::Operator | Kind::Weighing if deep != 0 => {
            let n = covered(book, i + 1, s - 1);
            let next = i + 1 + n;
            let m = covered(book, next, s - 1 - n);
            let within = kind == Kind::Operator;
            let opened = l.repeat(b'(', usize::from(inner));
            let first = expression(book, i + 1, n, deep - 1, within, opened);
            let second = first.words(between(record::byte(book, i, 1)).as_bytes());
            expression(book, next, m, deep - 1, within, second).repeat(b')', usize::from(inner))
        }
        _ => l.put(b'?'),
    }
}

// The value or comparison at record i, with what it covers of the book; it may be longer than a line.
fn whole(book: &[u8], i: usize, l: Line) -> Line
    requires { (i + 1) * size ≤ length book.now }
{
    let s = covered(book, i, book.len() / record::SIZE - i);
    expression(book, i, s, placement::MOST_DEPTH, false, l).shortened()
}

// What a letter of a sentence stands for in record i: a capital for a part of the record, any other byte for itself.
// Kept: letters, since a sentence then stands in `sentence` as it is printed, which a chain of calls for each kind would hide.
fn part(book: &[u8], i: usize, letter: u8, l: Line) -> Line
    requires { (i + 1) * size ≤ length book.now }
{
    let choice = record::byte(book, i, 1);
    let category = record::byte(book, i, 4);
    let sort = record::byte(book, i, 5);
    let number = record::big2(book, i * record::SIZE + 6);
    match letter {
        b'A' => l.words(phrase(
            b"|deny-overrides|permit-overrides|first-applicable|only-one-applicable",
            choice,
        )),
        b'B' => bytes(book, i, l),
        b'C' => l.words(phrase(b"|subject|resource|action|environment", category)),
        b'E' => l.words(phrase(b"|Permit|Deny", choice)),
        b'F' => l.words(phrase(
            b"|equal to|greater than|greater than or equal to|less than|less than or equal to",
            choice % 10,
        )),
        b'I' => issuer(book, i, l),
        b'L' => l.words(phrase(b"|and|or|not", choice)),
        b'M' => l.words(phrase(b"|, must be present", sort / 128)),
        b'N' => l.decimal(u64::from(number)),
        b'T' => l.words(phrase(b"|integer|name|double", sort % 128)),
        b'V' => value(book, i, l),
        b'X' => whole(book, i, l),
        _ => l.put(letter),
    }
}

// The sentence of a kind, with a capital for each part of the record.
fn sentence(kind: Kind) -> &'static str
    ensures { result.now ≡ sentence_words kind }
{
    match kind {
        Kind::PolicySet => "policy set: A",
        Kind::Policy => "policy: A",
        Kind::Rule => "rule: E",
        Kind::Section => "section: C",
        Kind::Conjunction => "conjunction",
        Kind::Match => "match: T V is F C NIM",
        Kind::Logic | Kind::Not => "condition: L",
        Kind::Comparison => "condition: T V is F C NIM",
        Kind::Weighing => "condition: X",
        Kind::Obligation => "obligation N on E",
        Kind::Literal => "value: T V",
        Kind::Attribute => "value: T C NIM",
        Kind::Operator => "value: X",
        Kind::Nothing => "bytes B",
    }
}

// Record i in words, or its bytes where it breaks a field rule.
pub fn record_words(book: &[u8], i: usize, line: Line) -> Line
    requires { (i + 1) * size ≤ length book.now }
{
    let mut l = line;
    for letter in sentence(told(book, i)).as_bytes() {
        l = part(book, i, *letter, l);
    }
    l
}

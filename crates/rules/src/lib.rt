// Targets, conditions and rules, decided on the records themselves. `s` is a record's span; `count` records from `from` on are a record's children.
// Kept: places beside the book in place of a walk, since docs/CONTRACTS.md names `target`, `condition` and `rules`, and the others hand on what these get.
#![tactic(auto)]

ghost use Rattle.std.specs.Prelude.{◌≡◌, ◌+◌, ◌*◌, ◌-◌, ◌^◌, ◌<◌, ◌≤◌, eqb, length};
ghost use Rattle.record.specs.Bytes.{size};
ghost use Rattle.record.specs.Choose.{if};
ghost use Rattle.record.specs.Forest.{forest};
ghost use Rattle.record.specs.Siblings.{forest_left};
ghost use Rattle.meaning.specs.Logic.{is_true, is_false, and_of, or_of};
ghost use Rattle.meaning.specs.Meaning.{conjunction_of, section_of, target_of, comparison_of, condition_of, when_of, rule_of, over_rules, verdict_of, rule_children};
ghost use Rattle.meaning.specs.Reading.{choice_at, test_at, match_at, comparison_at, conjunction_at, section_at, target_in, condition_from, when_in, rule_at, rules_in, rules_by, bags_of};
ghost use Rattle.rules.specs.Parts.{AsksAnywhere, SaysJoined};

use meaning::{Test, Truth, Verdict};
use record::choice::{AND, COMPARES, NOT, WEIGHS};
use record::kind::{CONDITION, RULE, SECTION};
use record::siblings::Siblings;

// Record i as a test by function f.
fn test_at(book: &[u8], i: usize, f: usize) -> Test
    requires { (i + 1) * size ≤ length book.now }
    ensures { result ≡ test_at book.now i f }
{
    Test {
        function: value::function_of(f),
        must: 127 < record::byte(book, i, 5),
        key: weigh::key_at(book, i),
        literal: record::big8(book, i * record::SIZE + 8),
    }
}

// The match at record i.
pub fn match_at(book: &[u8], i: usize) -> Test
    requires { (i + 1) * size ≤ length book.now }
    ensures { result ≡ match_at book.now i }
{
    test_at(book, i, record::byte(book, i, 1))
}

// The comparison at record i.
pub fn comparison_at(book: &[u8], i: usize) -> Test
    requires { (i + 1) * size ≤ length book.now }
    ensures { result ≡ comparison_at book.now i }
{
    test_at(book, i, record::byte(book, i, 1).saturating_sub(COMPARES))
}

// Where the children of record i begin. Without one it stands for its own child.
fn children_at(i: usize, s: usize) -> usize
    requires { (0 < s) × (i + s < 2 ^ 64) }
    ensures { (result ≡ if (eqb s 1) i (i + 1)) × (result < i + s) }
{
    if s == 1 { i } else { i + 1 }
}

// And where `all`, else or: what two parts give.
// Kept: a bool, here and below, since `layout`'s `Op` lies above this crate.
fn joined(all: bool, a: Truth, b: Truth) -> Truth
    ensures { result ≡ if all (and_of a b) (or_of a b) }
{
    if all {
        meaning::and3(a, b)
    } else {
        meaning::or3(a, b)
    }
}

// And where `all`, else or: whether one part settles it.
fn is_sure(all: bool, t: Truth) -> bool
    ensures { result ≡ if all (is_false t) (is_true t) }
{
    matches!((all, t), (true, Truth::False) | (false, Truth::True))
}

// And where `all`, else or, over what `part` says of the records of a walk, up to one that settles it.
fn join<F: Fn(usize, usize) -> Truth>(all: bool, parts: Siblings, part: F) -> Truth
    requires { AsksAnywhere F.Fn part parts.book.now }
    ensures { SaysJoined F.Fn part parts.entry.book.now all (forest_left parts.entry) result }
{
    let mut acc = meaning::truth_of(all);
    for (at, n) in parts {
        let t = part(at, n);
        if is_sure(all, t) {
            return t;
        }
        acc = joined(all, acc, t);
    }
    acc
}

// And over the matches of the conjunction at record i.
fn conjunction(book: &[u8], request: &[u8], i: usize, s: usize) -> Truth
    requires { (0 < s) × ((i + s) * size ≤ length book.now) }
    ensures { result ≡ conjunction_of (bags_of request.now) (conjunction_at book.now i (forest book.now (i + 1) (s - 1))) }
{
    let from = children_at(i, s);
    join(true, Siblings::new(book, from, i + s - from), |at, _| {
        request::matches(request, match_at(book, at))
    })
}

// Or over the conjunctions of the section at record i.
fn section(book: &[u8], request: &[u8], i: usize, s: usize) -> Truth
    requires { (0 < s) × ((i + s) * size ≤ length book.now) }
    ensures { result ≡ section_of (bags_of request.now) (section_at book.now i (forest book.now (i + 1) (s - 1))) }
{
    let from = children_at(i, s);
    join(false, Siblings::new(book, from, i + s - from), |at, n| {
        conjunction(book, request, at, n)
    })
}

// And over the sections that children begin with.
fn sections(book: &[u8], request: &[u8], from: usize, count: usize) -> Truth
    requires { (from + count) * size ≤ length book.now }
    ensures { result ≡ target_of (bags_of request.now) (target_in book.now (forest book.now from count)) }
{
    let mut acc = Truth::True;
    for (i, s) in Siblings::new(book, from, count) {
        if record::byte(book, i, 0) != SECTION {
            return acc;
        }
        acc = meaning::target3(acc, section(book, request, i, s));
        if let Truth::Unknown(_) = acc {
            return acc;
        }
    }
    acc
}

// The target that children begin with. Most rules begin with no section, and that needs no walk.
pub fn target(book: &[u8], request: &[u8], from: usize, count: usize) -> Truth
    requires { (from + count) * size ≤ length book.now }
    ensures { result ≡ target_of (bags_of request.now) (target_in book.now (forest book.now from count)) }
{
    if count == 0 || record::byte(book, from, 0) != SECTION {
        return Truth::True;
    }
    sections(book, request, from, count)
}

// What the request says to the comparison of a literal with an attribute at record i.
fn compared(book: &[u8], request: &[u8], i: usize) -> Truth
    requires { (i + 1) * size ≤ length book.now }
    ensures { result ≡ comparison_of (bags_of request.now) (comparison_at book.now i) }
{
    request::comparison(request, comparison_at(book, i))
}

// The comparison at record i, of a choice above 20, of the two values below it; without two it is one of a literal with an attribute.
fn weighed(book: &[u8], request: &[u8], i: usize, s: usize) -> Truth
    requires { (0 < s) × ((i + s) * size ≤ length book.now) × (20 < choice_at book.now i) }
    ensures { result ≡ condition_of (bags_of request.now) (condition_from book.now i (forest book.now (i + 1) (s - 1))) }
{
    let stop = i + s;
    let second = weigh::second_in(book, i, stop);
    if second == stop {
        return compared(book, request, i);
    }
    weigh::compared(book, request, i, second, stop)
}

// The condition at record i: and, or, not, else a comparison, above 20 one of two values. It calls itself on its parts, and the span falls at each call.
pub fn condition(book: &[u8], request: &[u8], i: usize, s: usize) -> Truth
    requires { (0 < s) × ((i + s) * size ≤ length book.now) }
    ensures { result ≡ condition_of (bags_of request.now) (condition_from book.now i (forest book.now (i + 1) (s - 1))) }
{
    let choice = record::byte(book, i, 1);
    if WEIGHS < choice {
        return weighed(book, request, i, s);
    }
    if choice == 0 || NOT < choice {
        return compared(book, request, i);
    }
    let mut parts = Siblings::new(book, i + 1, s - 1);
    if choice == NOT {
        return match parts.next() {
            Some((at, n)) => meaning::not3(condition(book, request, at, n)),
            None => compared(book, request, i),
        };
    }
    let all = choice == AND;
    // Kept: `join` would take a closure that calls `condition`, and that closure would have to repeat the clauses of `condition`.
    let mut acc = meaning::truth_of(all);
    for (at, n) in parts {
        let t = condition(book, request, at, n);
        if is_sure(all, t) {
            return t;
        }
        acc = joined(all, acc, t);
    }
    acc
}

// The condition among a rule's children; no condition is True.
fn when(book: &[u8], request: &[u8], from: usize, count: usize) -> Truth
    requires { (from + count) * size ≤ length book.now }
    ensures { result ≡ when_of (bags_of request.now) (when_in book.now (forest book.now from count)) }
{
    for (i, s) in Siblings::new(book, from, count) {
        if record::byte(book, i, 0) == CONDITION {
            return condition(book, request, i, s);
        }
    }
    Truth::True
}

// The rule at record i.
fn rule(book: &[u8], request: &[u8], i: usize, s: usize) -> Verdict
    requires { (0 < s) × ((i + s) * size ≤ length book.now) }
    ensures { result ≡ rule_of (bags_of request.now) (rule_at book.now i (forest book.now (i + 1) (s - 1))) }
{
    match target(book, request, i + 1, s - 1) {
        Truth::False => Verdict::NotApplicable,
        Truth::Unknown(why) => Verdict::Indeterminate(why),
        Truth::True => meaning::under(
            when(book, request, i + 1, s - 1),
            meaning::effected(meaning::effect_of(record::byte(book, i, 1))),
        ),
    }
}

// What the rules among these children decide.
// Kept: what the algorithm keeps and the cause in two variables, in place of a `Tally`, for speed (docs/changes/04.md).
pub fn rules(book: &[u8], request: &[u8], from: usize, count: usize, choice: usize) -> Verdict
    requires { (from + count) * size ≤ length book.now }
    ensures { result ≡ verdict_of (over_rules (rules_by choice)) (rule_children (bags_of request.now) (rules_in book.now (forest book.now from count))) }
{
    let a = meaning::over_rules(choice);
    let mut acc = algorithm::begin(a);
    let mut cause = None;
    for (i, s) in Siblings::new(book, from, count) {
        if record::byte(book, i, 0) != RULE {
            continue;
        }
        let e = meaning::effect_of(record::byte(book, i, 1));
        let v = rule(book, request, i, s);
        acc = algorithm::take_in(a, acc, e, meaning::decision_in(v));
        // No algorithm over rules is only-one, so the first cause counts.
        cause = meaning::or_else(cause, meaning::cause_in(v));
        if algorithm::settles(a, acc) {
            return meaning::coded(algorithm::outcome(a, acc), cause);
        }
    }
    meaning::coded(algorithm::outcome(a, acc), cause)
}

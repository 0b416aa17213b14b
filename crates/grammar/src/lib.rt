// Whether a book is sound, in one pass: each record is looked at once, with what may stand below it. A book that is not is judged line by line.
#![tactic(auto)]

mod kept;

ghost use Rattle.std.specs.Prelude.{◌≡◌, IsTrue, IfSome, ℕ, ◌+◌, ◌*◌, ◌<◌, ◌≤◌, length};
ghost use Rattle.record.specs.Bytes.{size};
ghost use Rattle.placement.specs.Place.{most_depth};
ghost use Rattle.grammar.specs.Row.{Row, Sections, Value, Operands, Condition, Rules, Duties, PolicyParts, Party, Clean};

use fields::Kind;
use placement::MOST_DEPTH;

// Kept: `book`, `end` and `depth` side by side: not inlined, a struct goes by pointer (`operands_ok` with one took 308 instructions a call in place of 279).
// Kept: loops by hand, since `Siblings` cuts a span at its parent's end, and here one that runs past it is refused.

// Whether all records from `from` on are matches of this category.
fn matches(book: &[u8], from: usize, end: usize, category: usize) -> bool
    requires { (from ≤ end) × (end * size ≤ length book.now) }
    ensures { IsTrue result → (d pc : ℕ) → d < most_depth → Row book.now from end end d 5 category pc 5 5 0 }
{
    for i in from..end {
        if !kept::is_fit(book, i, Kind::Match) || record::byte(book, i, 4) != category {
            return false;
        }
    }
    true
}

// Whether all are conjunctions of such matches.
#[tactic(auto, using(crate::proofs::Fits::fit_inside))]
fn conjunctions(book: &[u8], from: usize, end: usize, category: usize) -> bool
    requires { (from ≤ end) × (end * size ≤ length book.now) }
    ensures { IsTrue result → (d gc : ℕ) → d + 1 < most_depth → Row book.now from end end d 4 gc category 5 5 0 }
{
    let mut i = from;
    while i < end {
        let next = i + record::span(book, i);
        if !kept::is_fit(book, i, Kind::Conjunction)
            || end < next
            || !matches(book, i + 1, next, category)
        {
            return false;
        }
        i = next;
    }
    true
}

// Where the sections end that children begin with, if each is sound. `end` and `depth` are their parent's, here and below.
#[tactic(auto, using(crate::proofs::Fits::fit_inside))]
fn sections(book: &[u8], from: usize, end: usize, depth: usize) -> Option<usize>
    requires { (from ≤ end) × (end * size ≤ length book.now) × (depth ≤ most_depth) }
    ensures { IfSome result (λ to. Sections book.now from to end depth) }
{
    let mut i = from;
    let mut last: usize = 0;
    while i < end && kept::is_fit(book, i, Kind::Section) {
        let category = record::byte(book, i, 4);
        let next = i + record::span(book, i);
        // a conjunction and a match are below every section
        if category <= last
            || end < next
            || MOST_DEPTH < depth + 3
            || !conjunctions(book, i + 1, next, category)
        {
            return None;
        }
        last = category;
        i = next;
    }
    Some(i)
}

// The same of a rule's children, which mostly begin with none: that needs no call.
fn rule_sections(book: &[u8], from: usize, end: usize, depth: usize) -> Option<usize>
    requires { (from ≤ end) × (end * size ≤ length book.now) × (depth ≤ most_depth) }
    ensures { IfSome result (λ to. Sections book.now from to end depth) }
{
    if from == end || !kept::is_fit(book, from, Kind::Section) {
        return Some(from);
    }
    sections(book, from, end, depth)
}

// Where the value of type `sort` at record i ends, if it is sound.
// Kept: `sort` is a number, as `operands::value_type` gives it.
#[cycle(operands_value)]
fn value(book: &[u8], i: usize, end: usize, depth: usize, sort: usize) -> Option<usize>
    requires { (i < end) × (end * size ≤ length book.now) × (depth ≤ most_depth) }
    ensures { IfSome result (λ to. Value book.now i to end depth sort) }
{
    if MOST_DEPTH <= depth || operands::value_type(book, i) != sort {
        return None;
    }
    if kept::is_fit(book, i, Kind::Literal) || kept::is_fit(book, i, Kind::Attribute) {
        return Some(i + 1);
    }
    if !kept::is_fit(book, i, Kind::Operator) {
        return None;
    }
    operands(book, i, end, depth, sort)
}

// Where record i ends, if two sound values of type `sort` are below it and no more.
#[cycle(operands_value)]
fn operands(book: &[u8], i: usize, end: usize, depth: usize, sort: usize) -> Option<usize>
    requires { (i < end) × (end * size ≤ length book.now) × (depth < most_depth) }
    ensures { IfSome result (λ to. Operands book.now i to end depth sort) }
{
    let next = i + record::span(book, i);
    if end < next || next <= i + 1 {
        return None;
    }
    let second = value(book, i + 1, next, depth + 1, sort)?;
    if second == next || value(book, second, next, depth + 1, sort)? != next {
        return None;
    }
    Some(next)
}

// Where the comparison of two values at record i ends, if there is one, and it is sound.
fn weighing(book: &[u8], i: usize, end: usize, depth: usize) -> Option<usize>
    requires { (i < end) × (end * size ≤ length book.now) × (depth < most_depth) }
    ensures { IfSome result (λ to. Condition book.now i to end depth) }
{
    // there may be no next record
    if !kept::is_fit(book, i, Kind::Weighing) || end == i + 1 {
        return None;
    }
    let sort = operands::value_type(book, i + 1);
    if !operands::comparable(sort, record::byte(book, i, 1)) {
        return None;
    }
    operands(book, i, end, depth, sort)
}

// Where the condition at record i ends, if it is sound.
#[cycle(condition_joined)]
fn condition(book: &[u8], i: usize, end: usize, depth: usize) -> Option<usize>
    requires { (i < end) × (end * size ≤ length book.now) × (depth ≤ most_depth) }
    ensures { IfSome result (λ to. Condition book.now i to end depth) }
{
    if MOST_DEPTH <= depth {
        return None;
    }
    if kept::is_fit(book, i, Kind::Comparison) {
        return Some(i + 1);
    }
    joined(book, i, end, depth)
}

// The same of a condition that has parts: and, or, not, two values. It stands alone so that a comparison costs no call.
#[cycle(condition_joined)]
#[tactic(auto, using(crate::proofs::Parts::not_span))]
fn joined(book: &[u8], i: usize, end: usize, depth: usize) -> Option<usize>
    requires { (i < end) × (end * size ≤ length book.now) × (depth < most_depth) }
    ensures { IfSome result (λ to. Condition book.now i to end depth) }
{
    let next = i + record::span(book, i);
    if end < next {
        return None;
    }
    if kept::is_fit(book, i, Kind::Not) {
        if condition(book, i + 1, next, depth + 1)? != next {
            return None;
        }
        return Some(next);
    }
    if !kept::is_fit(book, i, Kind::Logic) {
        return weighing(book, i, end, depth);
    }
    let mut at = i + 1;
    while at < next {
        at = condition(book, at, next, depth + 1)?;
    }
    Some(next)
}

// Whether sections, and at most one condition, are all that is below a rule.
fn rule_parts(book: &[u8], from: usize, end: usize, depth: usize) -> bool
    requires { (from ≤ end) × (end * size ≤ length book.now) × (depth ≤ most_depth) }
    ensures { IsTrue result → (gc pc : ℕ) → Row book.now from end end depth 3 gc pc 0 5 0 }
{
    let Some(at) = rule_sections(book, from, end, depth) else {
        return false;
    };
    at == end || condition(book, at, end, depth) == Some(end)
}

// Where the rules end that a policy's children go on with, if each is sound.
#[tactic(auto, using(crate::proofs::Fits::fit_inside))]
fn rules(book: &[u8], from: usize, end: usize, depth: usize) -> Option<usize>
    requires { (from ≤ end) × (end * size ≤ length book.now) × (depth ≤ most_depth) }
    ensures { IfSome result (λ to. Rules book.now from to end depth) }
{
    let mut i = from;
    while i < end && kept::is_fit(book, i, Kind::Rule) {
        let next = i + record::span(book, i);
        if end < next || MOST_DEPTH <= depth || !rule_parts(book, i + 1, next, depth + 1) {
            return None;
        }
        i = next;
    }
    Some(i)
}

// How many records there are from `from` on, if all are obligations.
fn own(book: &[u8], from: usize, end: usize, depth: usize) -> Option<usize>
    requires { (from ≤ end) × (end * size ≤ length book.now) × (depth ≤ most_depth) }
    ensures { IfSome result (Duties book.now from end depth) }
{
    for i in from..end {
        if MOST_DEPTH <= depth || !kept::is_fit(book, i, Kind::Obligation) {
            return None;
        }
    }
    Some(end - from)
}

// The number of obligations below a policy, if what is below it is sound.
fn policy_parts(book: &[u8], from: usize, end: usize, depth: usize) -> Option<usize>
    requires { (from ≤ end) × (end * size ≤ length book.now) × (depth ≤ most_depth) }
    ensures { IfSome result (PolicyParts book.now from end depth) }
{
    let first = sections(book, from, end, depth)?;
    let last = rules(book, first, end, depth)?;
    own(book, last, end, depth)
}

// The number of obligations below the policy or set at record i, which has this depth, if it is sound.
#[tactic(auto, using(crate::proofs::Fits::fit_inside))]
fn party(book: &[u8], i: usize, top: usize, depth: usize) -> Option<usize>
    requires { (i < top) × (top * size ≤ length book.now) × (depth ≤ most_depth) }
    ensures { IfSome result (Party book.now i top depth) }
{
    let next = i + record::span(book, i);
    if top < next {
        return None;
    }
    if kept::is_fit(book, i, Kind::Policy) {
        return policy_parts(book, i + 1, next, depth);
    }
    if !kept::is_fit(book, i, Kind::PolicySet) {
        return None;
    }
    let mut at = sections(book, i + 1, next, depth)?;
    let mut due: usize = 0;
    // what is no sound policy or set is an obligation, or unsound
    while at < next && depth < MOST_DEPTH {
        let Some(below) = party(book, at, next, depth + 1) else {
            break;
        };
        due += below;
        at += record::span(book, at);
    }
    Some(due + own(book, at, next, depth)?)
}

// The number of obligations of a book of n records, if it is sound.
pub fn obligations(book: &[u8], n: usize) -> Option<usize>
    requires { (0 < n) × (length book.now ≡ n * size) }
    ensures { IfSome result (Clean book.now n) }
{
    if record::span(book, 0) != n {
        return None;
    }
    party(book, 0, n, 1)
}

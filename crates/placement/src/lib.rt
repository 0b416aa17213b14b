// The place rules, line by line: where a record may stand.
#![tactic(auto)]

ghost use Rattle.std.specs.Prelude.{◌≡◌, ◌+◌, ◌*◌, ◌-◌, ◌<◌, ◌≤◌, length};
ghost use Rattle.record.specs.Choose.{if, both};
ghost use Rattle.record.specs.Bytes.{size};
ghost use Rattle.fields.specs.First.{first_from};
ghost use Rattle.fields.specs.Fields.{field_ok};
ghost use Rattle.operands.specs.Parent.{end_of};
ghost use Rattle.operands.specs.Operands.{operands_at};
ghost use Rattle.placement.specs.Place.{most_depth, kind_number, holds_conditions, single_of, holds_values, takes_of, rank_of, rise_of, under_ok, stands_ok, child_rule, top_ok};
ghost use Rattle.placement.specs.Walk.{Walk, RuleIs, FirstBroken};

use fields::Kind;
use record::siblings::Siblings;

// Nesting has at most so many levels.
pub const MOST_DEPTH: usize = 16;

// The numbers of the place rules: of line 1, of the parent's end, of what the parent allows at that place, and of the depth.
// Kept: numbers, since the theorems RefusedBreaks and BrokenIsRefused have a row for each, 9 to 12, as the papers do.
const TOP: u8 = 9;

const PAST: u8 = 10;

const MISPLACED: u8 = 11;

const DEEP: u8 = 12;

// A number for each kind.
pub fn number(k: Kind) -> usize
    ensures { result ≡ kind_number k }
{
    match k {
        Kind::PolicySet => 1,
        Kind::Policy => 2,
        Kind::Rule => 3,
        Kind::Section => 4,
        Kind::Conjunction => 5,
        Kind::Match => 6,
        Kind::Logic => 71,
        Kind::Not => 72,
        Kind::Comparison => 73,
        Kind::Weighing => 74,
        Kind::Obligation => 8,
        Kind::Literal => 101,
        Kind::Attribute => 102,
        Kind::Operator => 103,
        Kind::Nothing => 0,
    }
}

// What the place rules ask of a record's parent: the number of its kind, its category and that of its own parent, and its depth.
#[derive(Clone, Copy)]
pub struct Parent {
    // Kept: a number, since stands and first_bad (docs/CONTRACTS.md) answer every number.
    pub kind: usize,
    pub category: usize,
    pub outer: usize,
    pub depth: usize,
}

impl Parent {
    // A child of it, of kind k and category c, as a parent.
    pub fn below(self, k: Kind, c: usize) -> Parent
        requires { self.depth ≤ most_depth }
        ensures { result ≡ record { kind = kind_number k; category = c; outer = self.category; depth = self.depth + 1 } }
    {
        Parent {
            kind: number(k),
            category: c,
            outer: self.category,
            depth: self.depth + 1,
        }
    }
}

// Whether a parent of number p takes a condition.
#[tactic(auto, unfolding(crate::specs::Place::holds_conditions))]
fn holds_conditions(p: usize) -> bool
    ensures { result ≡ holds_conditions p }
{
    matches!(p, 3 | 71 | 72)
}

// Whether it takes one condition only.
#[tactic(auto, unfolding(crate::specs::Place::single_of))]
fn single(p: usize) -> bool
    ensures { if result 1 0 ≡ single_of p }
{
    matches!(p, 3 | 72)
}

// Whether a parent of number p takes a value.
#[tactic(auto, unfolding(crate::specs::Place::holds_values))]
fn holds_values(p: usize) -> bool
    ensures { result ≡ holds_values p }
{
    matches!(p, 74 | 103)
}

// Whether a parent of number p takes such a child.
fn takes(p: usize, k: Kind) -> bool
    ensures { result ≡ takes_of p k }
{
    match k {
        Kind::PolicySet | Kind::Policy => p == 1,
        Kind::Rule => p == 2,
        Kind::Section => matches!(p, 1..=3),
        Kind::Conjunction => p == 4,
        Kind::Match => p == 5,
        Kind::Logic | Kind::Not | Kind::Comparison | Kind::Weighing => holds_conditions(p),
        Kind::Obligation => matches!(p, 1 | 2),
        Kind::Literal | Kind::Attribute | Kind::Operator => holds_values(p),
        Kind::Nothing => false,
    }
}

// Where a child of category c stands in the order of children.
pub fn rank(k: Kind, c: usize) -> usize
    requires { c < 256 }
    ensures { (result ≡ rank_of k c) × (result < 256) }
{
    match k {
        Kind::Section => c,
        Kind::Obligation => 6,
        _ => 5,
    }
}

// How far its rank must be above that of the child before.
fn step(p: usize, k: Kind) -> usize
    ensures { (result ≡ rise_of p k) × (result ≤ 1) }
{
    match k {
        Kind::Section => 1,
        Kind::Logic | Kind::Not | Kind::Comparison | Kind::Weighing => usize::from(single(p)),
        _ => 0,
    }
}

// Whether a match has the category of its section.
fn under_ok(k: Kind, section: usize, c: usize) -> bool
    ensures { result ≡ under_ok k section c }
{
    k != Kind::Match || section == c
}

// Whether a child of kind k and category c may stand there, after one of rank `before`.
#[tactic(auto, unfolding(crate::specs::Place::stands_ok))]
pub fn stands(parent: Parent, k: Kind, c: usize, before: usize) -> bool
    requires { (c < 256) × (before < 256) }
    ensures { result ≡ stands_ok parent.kind k c before parent.outer }
{
    takes(parent.kind, k)
        && before + step(parent.kind, k) <= rank(k, c)
        && under_ok(k, parent.outer, c)
}

// Whether a child that may stand there has the operands that it wants. One that runs past its parent's end, `top`, is not looked into: what it covers may
// not be there.
fn allowed(book: &[u8], i: usize, end: usize, top: usize, stands: bool) -> bool
    requires { (top * size ≤ length book.now) × (i < end) × (end ≡ end_of book.now i) }
    ensures { end ≤ top → result ≡ both stands (operands_at book.now i) }
{
    end <= top && stands && operands::operands_ok(book, i, end)
}

// The lowest number of the rules that a child breaks which ends at `end`, `top` being its parent's end and `depth` its parent's depth.
#[tactic(auto, unfolding(crate::specs::Place::child_rule))]
fn child_rule(end: usize, top: usize, depth: usize, ok: bool) -> Option<u8>
    ensures { RuleIs (child_rule end top (depth + 1) ok) result }
{
    match (end <= top, ok, depth < MOST_DEPTH) {
        (false, _, _) => Some(PAST),
        (_, false, _) => Some(MISPLACED),
        (_, _, false) => Some(DEEP),
        _ => None,
    }
}

// A record that breaks a place rule, and which.
#[derive(Clone, Copy)]
pub struct Broken {
    pub at: usize,
    pub rule: u8,
}

// The first of the records after record p and below `top`, its end, that breaks a place rule, and which. They are its children, and what stands below them.
fn walk(book: &[u8], p: usize, top: usize, parent: Parent) -> Option<Broken>
    requires { (top * size ≤ length book.now) × (p < top) × (parent.depth ≤ most_depth)
        × Walk book.now p (p + 1) top parent.depth parent.kind parent.outer parent.category 0 }
    ensures { FirstBroken book.now (p + 1) (top - (p + 1)) result }
{
    let mut before: usize = 0;
    for (i, _) in Siblings::new(book, p + 1, top - (p + 1)) {
        let k = fields::kind_at(book, i);
        let c = record::byte(book, i, 4);
        let next = i + record::span(book, i);
        let ok = allowed(book, i, next, top, stands(parent, k, c, before));
        if let Some(rule) = child_rule(next, top, parent.depth, ok) {
            return Some(Broken { at: i, rule });
        }
        before = rank(k, c);
        // Nothing stands below most records, and what calls itself for these too is slower and takes more stack.
        if next == i + 1 {
            continue;
        }
        if let Some(bad) = walk(book, i, next, parent.below(k, c)) {
            return Some(bad);
        }
    }
    None
}

// Whether line 1 is a policy set or a policy, and its span the number of records.
#[tactic(auto, unfolding(crate::specs::Place::top_ok))]
fn top_ok(book: &[u8], n: usize) -> bool
    requires { (0 < n) × (length book.now ≡ n * size) }
    ensures { result ≡ top_ok book.now }
{
    matches!(fields::kind_at(book, 0), Kind::PolicySet | Kind::Policy) && record::span(book, 0) == n
}

// The first of n records that breaks a place rule, and which.
pub fn first_place(book: &[u8], n: usize) -> Option<Broken>
    requires { (0 < n) × (length book.now ≡ n * size) × (first_from (field_ok book.now) 0 n ≡ n) }
    ensures { FirstBroken book.now 0 n result }
{
    if !top_ok(book, n) {
        return Some(Broken { at: 0, rule: TOP });
    }
    let c = record::byte(book, 0, 4);
    let top = Parent {
        kind: number(fields::kind_at(book, 0)),
        category: c,
        outer: c,
        depth: 1,
    };
    walk(book, 0, n, top)
}

// The bad lines of a half-copied book: records that are read as subtrees, by their spans, whatever these are.
// Kept: book, from and top apart, since top changes at each level; docs/CONTRACTS.md names `first_bad`, `first_spoilt` and `is_set`.
#![tactic(auto)]

ghost use Rattle.std.specs.Prelude.{◌≡◌, ◌+◌, ◌*◌, ◌-◌, ◌<◌, ◌≤◌, length, ltb, leb};
ghost use Rattle.record.specs.Choose.{both, among};
ghost use Rattle.record.specs.Bytes.{size, byte_of, span_of};
ghost use Rattle.record.specs.Forest.{span_in};
ghost use Rattle.fields.specs.Fields.{kind_at, rules_of};
ghost use Rattle.fields.specs.declared.Kind.TheVariants.{PolicySet, Weighing};
ghost use Rattle.operands.specs.Operands.{operands_ok};
ghost use Rattle.placement.specs.Place.{most_depth, kind_number, stands_ok};
ghost use Rattle.structure.specs.Subtrees.{record_at, subtrees_of};
ghost use Rattle.structure.specs.Sound.{first_type, two_of};
ghost use Rattle.spoilt.specs.Spoilt.{line_ok, is_set};
ghost use Rattle.spoilt.specs.Places.{parent, of_parent, bad_at, spoilt_at, first_at, FirstIs};

use fields::Kind;
use placement::Parent;
use record::siblings::Siblings;

// The type of the first of the records from `from` on and below `top`; 0 where there is none.
// Kept: 0 for none, which is also the type of a record that is no value, so one test in `operands::comparable` refuses both.
fn first_type(book: &[u8], from: usize, top: usize) -> usize
    requires { (top * size ≤ length book.now) × (from ≤ top) }
    ensures { result ≡ first_type (subtrees_of book.now from (top - from)) }
{
    if from < top {
        operands::value_type(book, from)
    } else {
        0
    }
}

// Whether they are two values of type t, each with what it covers.
// Kept beside `operands`, here and below: children are cut at their parent's end here (`subtrees_of`), and found by `end_of` there.
fn two_of(book: &[u8], from: usize, top: usize, t: usize) -> bool
    requires { (top * size ≤ length book.now) × (from ≤ top) }
    ensures { result ≡ two_of (subtrees_of book.now from (top - from)) t }
{
    let mut values = Siblings::new(book, from, top - from);
    let Some((first, _)) = values.next() else {
        return false;
    };
    let Some((second, _)) = values.next() else {
        return false;
    };
    if values.next().is_some() {
        return false;
    }
    operands::value_type(book, first) == t && operands::value_type(book, second) == t
}

// Whether they are two values that choice c may compare.
fn comparable_two(book: &[u8], from: usize, top: usize, c: usize) -> bool
    requires { (top * size ≤ length book.now) × (from ≤ top) }
    ensures { result ≡ operands_ok Weighing c (first_type (subtrees_of book.now from (top - from))) (two_of (subtrees_of book.now from (top - from))) }
{
    let t = first_type(book, from, top);
    operands::comparable(t, c) && two_of(book, from, top, t)
}

// Whether they are the operands that a parent of kind k and choice c wants.
fn operands_in(book: &[u8], from: usize, top: usize, k: Kind, c: usize) -> bool
    requires { (top * size ≤ length book.now) × (from ≤ top) }
    ensures { result ≡ operands_ok k c (first_type (subtrees_of book.now from (top - from))) (two_of (subtrees_of book.now from (top - from))) }
{
    match k {
        Kind::Weighing => comparable_two(book, from, top, c),
        Kind::Operator => two_of(book, from, top, operands::operator_type(c)),
        _ => true,
    }
}

// Whether record i, of kind k, keeps the rules below `top` that ask nothing of its operands, as a child of `up` after one of rank `before`.
fn head_ok(book: &[u8], i: usize, top: usize, up: Parent, before: usize, k: Kind) -> bool
    requires { (top * size ≤ length book.now) × (i < top) × (before < 256) × (k ≡ kind_at book.now i) }
    ensures { result ≡ both (rules_of book.now i k) (both (leb (i + span_of book.now i) top) (both (ltb up.depth most_depth)
        (stands_ok up.kind k (byte_of book.now i 4) before up.outer))) }
{
    fields::rules(book, i, k)
        && i + record::span(book, i) <= top
        && up.depth < placement::MOST_DEPTH
        && placement::stands(up, k, record::byte(book, i, 4), before)
}

// Whether record i, of kind k, is no bad line, below `top`, as a child of `up` after one of rank `before`.
fn line_ok(book: &[u8], i: usize, top: usize, up: Parent, before: usize, k: Kind) -> bool
    requires { (top * size ≤ length book.now) × (i < top) × (before < 256) × (k ≡ kind_at book.now i) }
    ensures { result ≡ line_ok (of_parent up) before (record_at book.now i) (subtrees_of book.now (i + 1) (span_in book.now i (top - i) - 1)) }
{
    head_ok(book, i, top, up, before, k)
        && operands_in(
            book,
            i + 1,
            i + record::span(book, i),
            k,
            record::byte(book, i, 1),
        )
}

// Whether what stands below a record of kind k is passed over: that of a policy or a set, where these may be replaced.
fn passes(replaces: bool, k: Kind) -> bool
    ensures { result ≡ both replaces (among 1 2 (kind_number k)) }
{
    replaces && matches!(k, Kind::PolicySet | Kind::Policy)
}

// The first bad one of the records from `from` on and below `top`; where policies and sets may be replaced, of those outside them only. They are children of
// `up`, after a child of rank `before`, and what stands below them.
fn first_line(
    book: &[u8],
    from: usize,
    top: usize,
    up: Parent,
    before: usize,
    replaces: bool,
) -> Option<usize>
    requires { (top * size ≤ length book.now) × (from ≤ top) × (up.depth ≤ most_depth) × (before < 256) }
    ensures { FirstIs result top (first_at replaces (of_parent up) before book.now from (top - from)) }
{
    let mut rank = before;
    for (i, s) in Siblings::new(book, from, top - from) {
        let k = fields::kind_at(book, i);
        if !line_ok(book, i, top, up, rank, k) {
            return Some(i);
        }
        let c = record::byte(book, i, 4);
        if !passes(replaces, k)
            && let Some(bad) = first_line(book, i + 1, i + s, up.below(k, c), 0, false)
        {
            return Some(bad);
        }
        rank = placement::rank(k, c);
    }
    None
}

// The first bad one of the records from `from` on and below `top`, children of `up` after a child of rank `before`, and what stands below them.
pub fn first_bad(book: &[u8], from: usize, top: usize, up: Parent, before: usize) -> Option<usize>
    requires { (top * size ≤ length book.now) × (from ≤ top) × (up.depth ≤ most_depth) × (before < 256) }
    ensures { FirstIs result top (bad_at (of_parent up) before book.now from (top - from)) }
{
    first_line(book, from, top, up, before, false)
}

// Line 1 as the parent of its children, where it is a set of this category.
pub fn root(category: usize) -> Parent
    ensures { result ≡ record { kind = kind_number PolicySet; category = category; outer = category; depth = 1 } }
{
    Parent {
        kind: placement::number(Kind::PolicySet),
        category,
        outer: category,
        depth: 1,
    }
}

// The first spoilt one of n records below line 1, a set of this category.
pub fn first_spoilt(book: &[u8], n: usize, category: usize) -> Option<usize>
    requires { (n * size ≤ length book.now) × (1 ≤ n) }
    ensures { FirstIs result n (spoilt_at (parent 1 1 category category) 0 book.now 1 (n - 1)) }
{
    first_line(book, 1, n, root(category), 0, true)
}

// Whether line 1 is a sound set whose span is the number of records.
#[tactic(auto, unfolding(crate::specs::Spoilt::is_set))]
pub fn is_set(book: &[u8], n: usize) -> bool
    requires { (1 ≤ n) × (n * size ≤ length book.now) }
    ensures { result ≡ is_set book.now n }
{
    fields::field_ok(book, 0)
        && fields::kind_at(book, 0) == Kind::PolicySet
        && record::span(book, 0) == n
}

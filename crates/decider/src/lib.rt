// Deciding: one pass over the records of a book, each decided at most once.
#![tactic(auto)]

ghost use Rattle.std.specs.Prelude.{◌≡◌, false, ◌+◌, ◌*◌, ◌-◌, ◌<◌, ◌≤◌, length};
ghost use Rattle.record.specs.Bytes.{size};
ghost use Rattle.record.specs.Forest.{forest, height};
ghost use Rattle.meaning.specs.Meaning.{target_of, verdict_in, owed, is_only, verdict_of, own_of, binding};
ghost use Rattle.meaning.specs.Reading.{target_in, obligations_in, bags_of};
ghost use Rattle.fields.specs.Fields.{obligations_of};
ghost use Rattle.decider.specs.Outcome.{outcome_of, out_of};
ghost use Rattle.decider.specs.Inside.{Answered, child_at, children_in, is_due, keeps, up_of, up_at, direct_of, room_of, deep_of, Put, Ruled, Picked, picking};

use meaning::{Algorithm, Decision, Effect, Truth, Verdict};
use record::Refusal;
use record::kind::{OBLIGATION, SET};
use record::siblings::Siblings;
use sums::Status;

mod places;

// So many levels may lie below the first record of an accepted book.
const MOST_BELOW: usize = 15;

// The one child whose target matches, by place and span, for only-one, if one does; where that cannot be one, why.
type Pick = Result<Option<(usize, usize)>, Status>;

// A verdict, and how many places its obligations end at.
#[derive(Clone, Copy)]
pub struct Ruling {
    pub verdict: Verdict,
    pub count: usize,
}

// Whether obligations that came with d stay where v is decided.
fn stay(d: Decision, v: Decision) -> bool
    ensures { result ≡ keeps d v }
{
    matches!(v, Decision::Permit | Decision::Deny) && d == v
}

// Whether record i is an obligation for d.
#[tactic(auto, unfolding(crate::specs::Inside::is_due))]
fn is_due(book: &[u8], i: usize, d: Decision) -> bool
    requires { (i + 1) * size ≤ length book.now }
    ensures { result ≡ is_due book.now i d }
{
    let due = match meaning::effect_of(record::byte(book, i, 1)) {
        Effect::Permits => Decision::Permit,
        Effect::Denies => Decision::Deny,
    };
    record::byte(book, i, 0) == OBLIGATION && d == due
}

// Puts the obligations for d that stand among `count` records from `from` on, on top of n places.
fn put(book: &[u8], from: usize, count: usize, d: Decision, out: &mut [u16], n: usize) -> usize
    requires { ((from + count) * size ≤ length book.now) × (n + direct_of book.now (forest book.now from count) ≤ length out.old) }
    ensures { Put out.old n (own_of d (obligations_in book.now (forest book.now from count)))
        (direct_of book.now (forest book.now from count)) out.new result }
{
    let mut m = n;
    for (i, _) in Siblings::new(book, from, count) {
        if is_due(book, i, d) {
            out[m] = record::big2(book, i * record::SIZE + 6);
            m += 1;
        }
    }
    m
}

// A record's own obligations, where it decides d.
fn own(book: &[u8], from: usize, count: usize, d: Decision, out: &mut [u16], n: usize) -> usize
    requires { ((from + count) * size ≤ length book.now) × (n + direct_of book.now (forest book.now from count) ≤ length out.old) }
    ensures { Put out.old n (binding d (own_of d (obligations_in book.now (forest book.now from count))))
        (direct_of book.now (forest book.now from count)) out.new result }
{
    match d {
        Decision::Permit | Decision::Deny => put(book, from, count, d, out, n),
        Decision::NotApplicable | Decision::Indeterminate => n,
    }
}

// One child more, record i with the span s, whose target is t.
fn note(p: Option<(usize, usize)>, t: Truth, i: usize, s: usize) -> Pick
    ensures { result ≡ picking p t i s }
{
    match (t, p) {
        (Truth::False, _) => Ok(p),
        (Truth::Unknown(why), _) => Err(why),
        (Truth::True, None) => Ok(Some((i, s))),
        (Truth::True, Some(_)) => Err(Status::Processing),
    }
}

// The one child whose target matches, among `count` records from `from` on.
fn choose(book: &[u8], request: &[u8], from: usize, count: usize) -> Pick
    requires { (from + count) * size ≤ length book.now }
    ensures { Picked book.now (bags_of request.now) from count result }
{
    let mut p = None;
    for (i, s) in Siblings::new(book, from, count) {
        if !meaning::is_party(book, i) {
            continue;
        }
        p = note(p, rules::target(book, request, i + 1, s - 1), i, s)?;
    }
    Ok(p)
}

// Record i with the span s as its parent sees it, where t is its target: its verdict, and its obligations on top of n places. `depth` levels may lie below it.
// Kept: this and the next three hand on book, request, depth, out and n; depth and n change below each record, so a struct would be built anew for each.
#[cycle(body_child_gather_walk)]
fn child(
    book: &[u8],
    request: &[u8],
    i: usize,
    s: usize,
    depth: usize,
    out: &mut [u16],
    n: usize,
    t: Truth,
) -> Ruling
    requires { (0 < s) × ((i + s) * size ≤ length book.now) × (n + room_of book.now (forest book.now (i + 1) (s - 1)) ≤ length out.old)
        × (height (forest book.now (i + 1) (s - 1)) ≤ depth)
        × (t ≡ target_of (bags_of request.now) (target_in book.now (forest book.now (i + 1) (s - 1)))) }
    ensures { Ruled out.old n (verdict_in (child_at book.now (bags_of request.now) i s))
        (owed (child_at book.now (bags_of request.now) i s).target (child_at book.now (bags_of request.now) i s).duties)
        (room_of book.now (forest book.now (i + 1) (s - 1))) out.new result.verdict result.count }
{
    match t {
        Truth::False => Ruling {
            verdict: Verdict::NotApplicable,
            count: n,
        },
        Truth::Unknown(why) => Ruling {
            verdict: Verdict::Indeterminate(why),
            count: n,
        },
        Truth::True => body(book, request, i, s, depth, out, n),
    }
}

// The same where its target matches.
#[cycle(body_child_gather_walk)]
fn body(
    book: &[u8],
    request: &[u8],
    i: usize,
    s: usize,
    depth: usize,
    out: &mut [u16],
    n: usize,
) -> Ruling
    requires { (0 < s) × ((i + s) * size ≤ length book.now) × (n + room_of book.now (forest book.now (i + 1) (s - 1)) ≤ length out.old)
        × (height (forest book.now (i + 1) (s - 1)) ≤ depth) }
    ensures { Ruled out.old n (child_at book.now (bags_of request.now) i s).body
        (child_at book.now (bags_of request.now) i s).duties
        (room_of book.now (forest book.now (i + 1) (s - 1))) out.new result.verdict result.count }
{
    let r = gather(book, request, i, s, depth, out, n);
    Ruling {
        verdict: r.verdict,
        count: own(
            book,
            i + 1,
            s - 1,
            meaning::decision_in(r.verdict),
            out,
            r.count,
        ),
    }
}

// What its algorithm makes of its children, and what they hand up.
#[cycle(body_child_gather_walk)]
fn gather(
    book: &[u8],
    request: &[u8],
    i: usize,
    s: usize,
    depth: usize,
    out: &mut [u16],
    n: usize,
) -> Ruling
    requires { (0 < s) × ((i + s) * size ≤ length book.now) × (n + deep_of book.now (forest book.now (i + 1) (s - 1)) ≤ length out.old)
        × (height (forest book.now (i + 1) (s - 1)) ≤ depth) }
    ensures { Ruled out.old n (child_at book.now (bags_of request.now) i s).body
        (up_at book.now (bags_of request.now) i s)
        (deep_of book.now (forest book.now (i + 1) (s - 1))) out.new result.verdict result.count }
{
    let choice = record::byte(book, i, 1);
    if record::byte(book, i, 0) != SET {
        return Ruling {
            verdict: rules::rules(book, request, i + 1, s - 1, choice),
            count: n,
        };
    }
    let a = meaning::over_policies(choice);
    if meaning::is_only(a) {
        return match choose(book, request, i + 1, s - 1) {
            Ok(Some((j, t))) => body(book, request, j, t, depth - 1, out, n),
            Ok(None) => Ruling {
                verdict: Verdict::NotApplicable,
                count: n,
            },
            Err(why) => Ruling {
                verdict: Verdict::Indeterminate(why),
                count: n,
            },
        };
    }
    walk(book, request, i + 1, s - 1, a, depth, out, n)
}

// The algorithm's walk over the children that stand among `count` records from `from` on.
#[cycle(body_child_gather_walk)]
fn walk(
    book: &[u8],
    request: &[u8],
    from: usize,
    count: usize,
    a: Algorithm,
    depth: usize,
    out: &mut [u16],
    n: usize,
) -> Ruling
    requires { ((from + count) * size ≤ length book.now) × (n + deep_of book.now (forest book.now from count) ≤ length out.old)
        × (height (forest book.now from count) ≤ depth) × (is_only a ≡ false) }
    ensures { Ruled out.old n (verdict_of a (children_in book.now (bags_of request.now) from count))
        (up_of a (children_in book.now (bags_of request.now) from count))
        (deep_of book.now (forest book.now from count)) out.new result.verdict result.count }
{
    let mut k = algorithm::tally::begin(a);
    let mut m = n;
    for (i, s) in Siblings::new(book, from, count) {
        if !meaning::is_party(book, i) {
            continue;
        }
        let t = rules::target(book, request, i + 1, s - 1);
        let r = child(book, request, i, s, depth - 1, out, m, t);
        let d = meaning::decision_in(r.verdict);
        let before = algorithm::outcome(a, k.acc);
        // A child here is no rule: the effect counts for nothing.
        k = algorithm::tally::take_in(a, k, Effect::Permits, r.verdict);
        let after = algorithm::outcome(a, k.acc);
        m = places::settle(out, n, m, r.count, stay(before, after), stay(d, after));
        if algorithm::settles(a, k.acc) {
            return Ruling {
                verdict: algorithm::tally::verdict(a, k),
                count: m,
            };
        }
    }
    Ruling {
        verdict: algorithm::tally::verdict(a, k),
        count: m,
    }
}

// What the book of so many records decides for a request, with its obligations first in out and zeros after them.
fn answer(book: &[u8], request: &[u8], records: usize, out: &mut [u16]) -> Ruling
    requires { (0 < records) × (length book.now ≡ records * size) × (obligations_of book.now records ≤ length out.old)
        × (height (forest book.now 1 (records - 1)) ≤ 15) }
    ensures { Answered book.now request.now out.old out.new result.verdict result.count }
{
    let t = rules::target(book, request, 1, records - 1);
    let r = child(book, request, 0, records, MOST_BELOW, out, 0, t);
    lent::clear(out, r.count);
    r
}

// Judges book, request and output, then decides: the verdict, and the obligations first in out and zeros after them. A refusal leaves out as
// it was.
pub fn decide(book: &[u8], request: &[u8], out: &mut [u16]) -> Result<Ruling, Refusal>
    ensures { (result ≡ outcome_of book.now request.now (length out.old))
        × (out.new ≡ out_of book.now request.now out.old) }
{
    let accepted = judge::judge_book(book)?;
    judge::judge_request(request)?;
    if out.len() < accepted.obligations {
        return Err(Refusal::NoRoom);
    }
    Ok(answer(book, request, accepted.records, out))
}

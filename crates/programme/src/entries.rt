// The entries of a programme: what each does, by the programme's length, the first number taken apart, its own number without the kind, and the
// levels and frames that it sees.
// Kept: `long` beside `h`, since most entries need only the length, and the contracts say `meets` by it.
ghost use Rattle.std.specs.Prelude.{◌≡◌, ℕ, suc, ◌+◌, ◌-◌, ◌/◌, ◌%◌, ◌<◌, max, min, leb, ltb, eqb, length, get_or};
ghost use Rattle.record.specs.Choose.{both};
ghost use Rattle.meaning.specs.Meaning.{Bags, decision_in, is};
ghost use Rattle.meaning.specs.Numbers.{key_number};
ghost use Rattle.meaning.specs.Reading.{bags_of};
ghost use Rattle.meaning.specs.declared.Decision.TheVariants.{Deny};
ghost use Rattle.layout.specs.declared.Frame.{Frame};
ghost use Rattle.layout.specs.Entry.{begin, opens, close, sum, rule, enter, applies, conclude, oblige, leave, finish};
ghost use Rattle.meaning.specs.declared.Verdict.TheVariants.{Permit};
ghost use Rattle.std.specs.Bool.{then_some};
ghost use Rattle.algorithm.specs.Fold.{settled};
ghost use Rattle.algorithm.specs.Tally.{tallied};
ghost use Rattle.moves.specs.Core.{at_once, ending, finished, past, put};
ghost use Rattle.layout.specs.Layout.{test_of, match_by, compare_by, piece_by, effect_by, op_by, algorithm_by, frame_of, frame_word, fetch};
ghost use Rattle.layout.specs.Ranges.{Held};
ghost use Rattle.moves.specs.Moves.{move_of};
ghost use Rattle.programme.specs.Meets.{met_if, meets};

use crate::Met;
use layout::{
    AHEAD, Coded, Found, Frame, Head, Level, Op, frame_of, frame_word, kind, level_word, low,
};
use meaning::{Algorithm, Effect, Test, Verdict};
use moves::conditions::{close_level, start_of, tell_level};
use moves::policies::{conclude_by, entered, note_in, pushed_by, put_in, ruled_by};
use moves::targets::{Stands, match_done};
use moves::{Change, Move, Next, Placing, cleared, moving, past_if, unchanged};
use pieces::{put_word, test_words, work_words};
use sums::Operator;
use value::Function;

// So many numbers have the field of a bare attribute, of its issuer, of a key and of an obligation.
const BARES: u64 = 4294967296;

const ISSUERS: u64 = 65536;

const KEYS: u64 = 281474976710656;

const OBLIGATIONS: u64 = 65536;

// Where the fields start of a test, behind the function, and of a match, behind the test; and of the last number of a match, behind the section ahead.
const MUST: u64 = Function::SIZE;

const BEHIND_TEST: u64 = bool::SIZE * MUST;

const ENDS_SECTION: u64 = bool::SIZE * BEHIND_TEST;

const ENDS_TARGET: u64 = bool::SIZE * ENDS_SECTION;

const BARE: u64 = bool::SIZE * ENDS_TARGET;

const CONJUNCTION: u64 = BARES * BARE;

const ISSUER: u64 = AHEAD * AHEAD;

// Whether an entry leads no further than the programme's end.
fn reaches(long: u64, at: u64, n: u64) -> bool
    requires { at < long }
    ensures { result ≡ leb (at + suc n) long }
{
    n < long - at
}

#[tactic(auto, unfolding(crate::specs::Meets::meets, layout::specs::Entry::lawful, moves::specs::Core::core))]
fn begin_at(long: u64, h: Head, n: u64) -> Option<Met>
    requires { h.at < long }
    ensures { (g : Bags) (l m : ℕ) (f b : Frame) → result ≡ meets g long h (begin (algorithm_by (n % 8)) (n / 8)) l m f b }
{
    let cut = n / Algorithm::SIZE;
    let w = entered(n % Algorithm::SIZE, 0, 0);
    let first = cleared(0, Verdict::Permit);
    let does = moving(first, Change::Keep, Change::Push(w), Placing::Cut(cut));
    (cut <= layout::PLACES as u64).then_some(Met { does, further: 0 })
}

// Matches and comparisons.
fn key_by(bare: u64, issuer: u64) -> u64
    requires { (bare < 4294967296) × (issuer < 65536) }
    ensures { result ≡ key_number bare issuer }
{
    bare + BARES * issuer
}

#[tactic(auto, unfolding(layout::specs::Layout::test_of))]
fn test_by(n: u64, key: u64, literal: u64) -> Test
    ensures { result ≡ test_of n key literal }
{
    Test {
        function: low(n),
        must: low(n / MUST),
        key,
        literal,
    }
}

fn stands_at(n: u64, third: u64) -> Stands
    ensures { result ≡ record {
      ends_conjunction = eqb (n / 16 % 2) 1;
      ends_section = eqb (n / 32 % 2) 1;
      ends_target = eqb (n / 64 % 2) 1;
      conjunction = n / 549755813888;
      section = third % 8192;
      out = third / 8192 % 8192;
    } }
{
    Stands {
        ends_conjunction: low(n / BEHIND_TEST),
        ends_section: low(n / ENDS_SECTION),
        ends_target: low(n / ENDS_TARGET),
        conjunction: n / CONJUNCTION,
        section: third % AHEAD,
        out: third / AHEAD % AHEAD,
    }
}

// The two further numbers of an entry of three, if the programme has them.
fn two_behind(programme: &[u64], at: u64) -> Option<(u64, u64)>
    requires { at < length programme.now }
    ensures { result ≡ then_some (leb (at + 3) (length programme.now)) (get_or programme.now (at + 1) 0, get_or programme.now (at + 2) 0) }
{
    let at = at as usize;
    if programme.len() - at < 3 {
        return None;
    }
    Some((programme[at + 1], programme[at + 2]))
}

#[tactic(auto, unfolding(crate::specs::Meets::meets, layout::specs::Entry::lawful, moves::specs::Core::core, layout::specs::Layout::match_by))]
fn match_at(programme: &[u64], request: &[u8], h: Head, n: u64) -> Option<Met>
    requires { h.at < length programme.now }
    ensures { (l m : ℕ) (f b : Frame) → result ≡ meets (bags_of request.now) (length programme.now) h
        (match_by n (get_or programme.now (h.at + 1) 0) (get_or programme.now (h.at + 2) 0)) l m f b }
{
    let (literal, third) = two_behind(programme, h.at)?;
    let s = stands_at(n, third);
    let far = s.conjunction.max(s.section.max(s.out));
    if !reaches(programme.len() as u64, h.at + 2, far) {
        return None;
    }
    let key = key_by(n / BARE % BARES, third / ISSUER % ISSUERS);
    let t = test_by(n, key, literal);
    let v = meaning::and3(h.found.ands, request::matches(request, t));
    let on = match_done(v, s, h.found);
    let does = moving(on, Change::Keep, Change::Keep, Placing::Rest);
    Some(Met { does, further: 2 })
}

#[tactic(auto, unfolding(crate::specs::Meets::meets, layout::specs::Entry::lawful, moves::specs::Core::core, layout::specs::Layout::compare_by))]
fn compare_at(programme: &[u64], request: &[u8], h: Head, n: u64, l: u64) -> Option<Met>
    requires { h.at < length programme.now }
    ensures { (m : ℕ) (f b : Frame) → result ≡ meets (bags_of request.now) (length programme.now) h
        (compare_by n (get_or programme.now (h.at + 1) 0) (get_or programme.now (h.at + 2) 0)) l m f b }
{
    let (literal, issuer) = two_behind(programme, h.at)?;
    let jump = n / (BARES * BEHIND_TEST);
    if !reaches(programme.len() as u64, h.at + 2, jump) {
        return None;
    }
    let key = key_by(n / BEHIND_TEST % BARES, issuer % ISSUERS);
    let t = test_by(n, key, literal);
    let v = request::comparison(request, t);
    let does = tell_level(v, jump, h.nest, l, h.found.reg);
    Some(Met { does, further: 2 })
}

// Conditions.
#[tactic(auto, unfolding(crate::specs::Meets::meets, layout::specs::Entry::lawful, moves::specs::Core::core, moves::specs::Core::level))]
fn open_at(long: u64, h: Head, n: u64) -> Option<Met>
    requires { h.at < long }
    ensures { (g : Bags) (l m : ℕ) (f b : Frame) → result ≡ meets g long h (opens (op_by n)) l m f b }
{
    let op = Op::by(n);
    let top = Level {
        op,
        val: start_of(op),
    };
    let does = moving(
        unchanged(h),
        Change::Push(level_word(top)),
        Change::Keep,
        Placing::Rest,
    );
    Some(Met { does, further: 0 })
}

#[tactic(auto, unfolding(crate::specs::Meets::meets, layout::specs::Entry::lawful, moves::specs::Core::core))]
fn close_at(long: u64, h: Head, n: u64, l: u64, m: u64) -> Option<Met>
    requires { h.at < long }
    ensures { (g : Bags) (f b : Frame) → result ≡ meets g long h (close n) l m f b }
{
    let does = close_level(n, h.nest, l, m, h.found.reg);
    reaches(long, h.at, n).then_some(Met { does, further: 0 })
}

// A piece of a comparison of two values.
fn sum_at(programme: &[u64], request: &[u8], h: Head, n: u64, l: u64, m: u64) -> Option<Met>
    requires { h.at < length programme.now }
    ensures { (f b : Frame) → result ≡ meets (bags_of request.now) (length programme.now) h
        (sum (piece_by (n % 4) (n / 4) (get_or programme.now (h.at + 1) 0))) l m f b }
{
    let rest = n / kind::PIECES;
    let does = match n % kind::PIECES {
        kind::LOADS => {
            let at = h.at as usize;
            if programme.len() - at < 2 {
                return None;
            }
            let does = put_word(h, Ok(programme[at + 1]));
            return Some(Met { does, further: 1 });
        }
        kind::ASKS => put_word(h, request::only(request, rest % KEYS)),
        kind::WORKS => work_words(h, Operator::by(rest), l, m),
        _ => test_words(h, low(rest), (rest / Function::SIZE) as usize, l, m),
    };
    Some(Met { does, further: 0 })
}

// Rules, policies and sets.

// What follows once a frame takes in the verdict of a child, which has this effect if it is a rule, and the frame's number then.
fn taken(top: Frame, e: Effect, v: Verdict, jump: u64) -> (Next, u64)
    requires { (top.permits < 1024) × (top.denies < 1024) }
    ensures { (result.0 ≡ past (settled top.alg (tallied top.alg top.tally e v).acc) jump Permit)
        × (result.1 ≡ frame_word (put top (tallied top.alg top.tally e v))) }
{
    let k = algorithm::tally::take_in(top.alg, top.tally, e, v);
    let on = past_if(algorithm::settles(top.alg, k.acc), jump, Verdict::Permit);
    (on, frame_word(put_in(top, k)))
}

#[tactic(auto, unfolding(crate::specs::Meets::meets, layout::specs::Entry::lawful, moves::specs::Core::core))]
fn rule_at(long: u64, h: Head, n: u64, f: u64) -> Option<Met>
    requires { h.at < long }
    ensures { (g : Bags) (l m : ℕ) (b : Frame) → result ≡ meets g long h (rule (effect_by (n % 2)) (n / 2)) l m (frame_of f) b }
{
    let jump = n / Effect::SIZE;
    let e = low(n);
    let (on, w) = taken(frame_of(f), e, ruled_by(e, h.found.reg), jump);
    let does = moving(on, Change::Keep, Change::Swap(w), Placing::Rest);
    reaches(long, h.at, jump).then_some(Met { does, further: 0 })
}

#[tactic(auto, unfolding(crate::specs::Meets::meets, layout::specs::Entry::lawful, moves::specs::Core::core))]
fn enter_at(long: u64, h: Head, n: u64) -> Option<Met>
    requires { (h.at < long) × Held h }
    ensures { (g : Bags) (l m : ℕ) (f b : Frame) → result ≡ meets g long h (enter (algorithm_by n)) l m f b }
{
    let w = entered(n, h.permits, h.denies);
    let on = Next {
        jump: 0,
        found: Found {
            reg: Verdict::Permit,
            ..h.found
        },
    };
    let does = moving(on, Change::Keep, Change::Push(w), Placing::Rest);
    Some(Met { does, further: 0 })
}

#[tactic(auto, unfolding(crate::specs::Meets::meets, layout::specs::Entry::lawful, moves::specs::Core::core))]
fn applies_at(long: u64, h: Head, n: u64, b: u64) -> Option<Met>
    requires { h.at < long }
    ensures { (g : Bags) (l m : ℕ) (f : Frame) → result ≡ meets g long h (applies n) l m f (frame_of b) }
{
    let does = note_in(frame_of(b), n, h.found.reg);
    reaches(long, h.at, n).then_some(Met { does, further: 0 })
}

#[tactic(auto, unfolding(crate::specs::Meets::meets, layout::specs::Entry::lawful, moves::specs::Core::core))]
fn conclude_at(long: u64, h: Head, n: u64, f: u64) -> Option<Met>
    requires { h.at < long }
    ensures { (g : Bags) (l m : ℕ) (b : Frame) → result ≡ meets g long h (conclude n) l m (frame_of f) b }
{
    let top = frame_of(f);
    let verdict = algorithm::tally::verdict(top.alg, top.tally);
    let does = conclude_by(verdict, n, top.permits, top.denies);
    reaches(long, h.at, n).then_some(Met { does, further: 0 })
}

#[tactic(auto, unfolding(crate::specs::Meets::meets, layout::specs::Entry::lawful, moves::specs::Core::core))]
fn oblige_at(long: u64, h: Head, n: u64) -> Option<Met>
    requires { h.at < long }
    ensures { (g : Bags) (l m : ℕ) (f b : Frame) → result ≡ meets g long h (oblige (effect_by (n % 2)) (n / 2)) l m f b }
{
    let number = n / Effect::SIZE;
    let reg = h.found.reg;
    let placing = pushed_by(low(n), reg, number);
    let does = moving(cleared(0, reg), Change::Keep, Change::Keep, placing);
    (number < OBLIGATIONS).then_some(Met { does, further: 0 })
}

#[tactic(auto, unfolding(crate::specs::Meets::meets, layout::specs::Entry::lawful, moves::specs::Core::core))]
fn leave_at(long: u64, h: Head, n: u64, b: u64) -> Option<Met>
    requires { h.at < long }
    ensures { (g : Bags) (l m : ℕ) (f : Frame) → result ≡ meets g long h (leave n) l m f (frame_of b) }
{
    let (on, w) = taken(frame_of(b), Effect::Permits, h.found.reg, n);
    let does = moving(on, Change::Keep, Change::Back(w), Placing::Rest);
    reaches(long, h.at, n).then_some(Met { does, further: 0 })
}

// The end.
fn is_deny(v: Verdict) -> bool
    ensures { result ≡ is (decision_in v) Deny }
{
    v == Verdict::Deny
}

// How many of Deny's obligations are brought down at once.
const AT_ONCE: u64 = 2;

fn ending_by(h: Head, over: bool, placing: Placing) -> Move
    ensures { result ≡ move_of (ending h over placing) }
{
    Move {
        over,
        ..moving(unchanged(h), Change::Keep, Change::Keep, placing)
    }
}

fn finish_by(h: Head) -> Move
    requires { Held h }
    ensures { result ≡ move_of (finished (both (is (decision_in h.found.reg) Deny) (ltb h.permits h.denies)) h) }
{
    if !is_deny(h.found.reg) || h.denies <= h.permits {
        return ending_by(h, true, Placing::Rest);
    }
    let n = (h.denies - h.permits).min(AT_ONCE);
    let over = h.denies <= h.permits + AT_ONCE;
    ending_by(h, over, Placing::Down(n))
}

#[tactic(auto, unfolding(crate::specs::Meets::meets, layout::specs::Entry::lawful, moves::specs::Core::core))]
fn finish_at(long: u64, h: Head) -> Option<Met>
    requires { (h.at < long) × Held h }
    ensures { (g : Bags) (l m : ℕ) (f b : Frame) → result ≡ meets g long h finish l m f b }
{
    Some(Met {
        does: finish_by(h),
        further: 0,
    })
}

// The entry at the place of the first number, with the levels and the frames on top and below.
// Kept: a match on named numbers, since each entry takes other parameters.
#[tactic(auto, unfolding(layout::specs::Layout::fetch, layout::specs::Layout::entry_of, layout::specs::Layout::entry_by))]
pub fn meet(
    programme: &[u64],
    request: &[u8],
    h: Head,
    l: u64,
    m: u64,
    f: u64,
    b: u64,
) -> Option<Met>
    requires { Held h }
    ensures { result ≡ meets (bags_of request.now) (length programme.now) h (fetch programme.now h.at)
        l m (frame_of f) (frame_of b) }
{
    let at = h.at as usize;
    if programme.len() <= at {
        return None;
    }
    let long = programme.len() as u64;
    let word = programme[at];
    let n = word / kind::KINDS;
    match word % kind::KINDS {
        kind::BEGIN => begin_at(long, h, n),
        kind::MATCH => match_at(programme, request, h, n),
        kind::OPENS => open_at(long, h, n),
        kind::CLOSE => close_at(long, h, n, l, m),
        kind::RULE => rule_at(long, h, n, f),
        kind::ENTER => enter_at(long, h, n),
        kind::APPLIES => applies_at(long, h, n, b),
        kind::CONCLUDE => conclude_at(long, h, n, f),
        kind::OBLIGE => oblige_at(long, h, n),
        kind::LEAVE => leave_at(long, h, n, b),
        kind::FINISH => finish_at(long, h),
        kind::SUM => sum_at(programme, request, h, n, l, m),
        kind::COMPARE => compare_at(programme, request, h, n, l),
        _ => None,
    }
}

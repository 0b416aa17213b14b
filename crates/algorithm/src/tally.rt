// What an algorithm keeps of its children: what it decides by, and the first cause met.
ghost use Rattle.std.specs.Prelude.{◌≡◌};
ghost use Rattle.algorithm.specs.Tally.{noting, fresh, tallied, verdict_so_far};

use crate::Acc;
use meaning::{Algorithm, Cause, Effect, Verdict};

#[derive(Clone, Copy)]
pub struct Tally {
    pub acc: Acc,
    pub cause: Cause,
}

// Before the first child.
pub fn begin(a: Algorithm) -> Tally
    ensures { result ≡ fresh a }
{
    Tally {
        acc: crate::begin(a),
        cause: None,
    }
}

// The cause after a child: the first counts; of only-one, whose children's targets alone are met, the last, which settles it.
fn note(only: bool, before: Cause, now: Cause) -> Cause
    ensures { result ≡ noting only before now }
{
    if only { now.or(before) } else { before.or(now) }
}

// With one child more, whose verdict is v, and which has the effect e if it is a rule.
pub fn take_in(a: Algorithm, k: Tally, e: Effect, v: Verdict) -> Tally
    ensures { result ≡ tallied a k e v }
{
    Tally {
        acc: crate::take_in(a, k.acc, e, meaning::decision_in(v)),
        cause: note(meaning::is_only(a), k.cause, meaning::cause_in(v)),
    }
}

// The verdict so far.
pub fn verdict(a: Algorithm, k: Tally) -> Verdict
    ensures { result ≡ verdict_so_far a k }
{
    meaning::coded(crate::outcome(a, k.acc), k.cause)
}

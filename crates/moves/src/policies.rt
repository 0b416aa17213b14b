// What rules, children and obligations do to a policy or set.
ghost use Rattle.std.specs.Prelude.{◌≡◌, ◌<◌};
ghost use Rattle.meaning.specs.Meaning.{decision_of, decision_in, is};
ghost use Rattle.moves.specs.Core.{ruled, put, concluded, noted, pushed};
ghost use Rattle.algorithm.specs.Tally.{fresh};
ghost use Rattle.layout.specs.Layout.{algorithm_by, frame_word};
ghost use Rattle.moves.specs.Moves.{move_of};

use crate::{Change, Move, Placing, cleared, moving};
use algorithm::Acc;
use algorithm::tally::Tally;
use layout::{Coded, Frame, frame_word};
use meaning::{Algorithm, Effect, Verdict};
use sums::Status;

// The frame of a policy or set with this algorithm that is entered where so many obligations stand.
pub fn entered(n: u64, permits: u64, denies: u64) -> u64
    requires { (permits < 1024) × (denies < 1024) }
    ensures { result ≡ frame_word (record { alg = algorithm_by n; tally = fresh (algorithm_by n); permits = permits; denies = denies }) }
{
    let alg = Algorithm::by(n);
    frame_word(Frame {
        alg,
        tally: algorithm::tally::begin(alg),
        permits,
        denies,
    })
}

pub fn ruled_by(e: Effect, v: Verdict) -> Verdict
    ensures { result ≡ ruled e v }
{
    match v {
        Verdict::Permit | Verdict::Deny => meaning::effected(e),
        Verdict::NotApplicable | Verdict::Indeterminate(_) => v,
    }
}

pub fn put_in(f: Frame, k: Tally) -> Frame
    ensures { result ≡ put f k }
{
    Frame { tally: k, ..f }
}

pub fn conclude_by(v: Verdict, n: u64, p: u64, q: u64) -> Move
    ensures { result ≡ move_of (concluded v n p q) }
{
    match v {
        Verdict::Permit => moving(
            cleared(0, v),
            Change::Keep,
            Change::Keep,
            Placing::FallDeny(q),
        ),
        Verdict::Deny => moving(
            cleared(0, v),
            Change::Keep,
            Change::Keep,
            Placing::FallPermit(p),
        ),
        Verdict::NotApplicable | Verdict::Indeterminate(_) => moving(
            cleared(n, v),
            Change::Keep,
            Change::Keep,
            Placing::FallBoth(p, q),
        ),
    }
}

fn too_many(b: Frame, n: u64) -> Move
    requires { (b.permits < 1024) × (b.denies < 1024) }
    ensures { result ≡ move_of (noted (Acc.Two) b n (Verdict.Permit)) }
{
    let two = Tally {
        acc: Acc::Two,
        cause: Some(Status::Processing),
    };
    let w = frame_word(put_in(b, two));
    moving(
        cleared(n, Verdict::Permit),
        Change::Keep,
        Change::Back(w),
        Placing::Rest,
    )
}

pub fn note_in(b: Frame, n: u64, v: Verdict) -> Move
    requires { (b.permits < 1024) × (b.denies < 1024) }
    ensures { result ≡ move_of (noted b.tally.acc b n v) }
{
    match b.tally.acc {
        Acc::Nobody => {
            let one = Tally {
                acc: Acc::Pending,
                ..b.tally
            };
            let w = frame_word(put_in(b, one));
            moving(cleared(0, v), Change::Keep, Change::Under(w), Placing::Rest)
        }
        Acc::Pending | Acc::Two | Acc::One(_) | Acc::Ranked(_) => too_many(b, n),
    }
}

pub fn pushed_by(e: Effect, v: Verdict, n: u64) -> Placing
    ensures { result ≡ pushed e (is (decision_in v) (decision_of e)) n }
{
    match (e, v) {
        (Effect::Permits, Verdict::Permit) => Placing::AddPermit(n),
        (Effect::Denies, Verdict::Deny) => Placing::AddDeny(n),
        _ => Placing::Rest,
    }
}

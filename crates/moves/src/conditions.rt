// What the parts of a condition do to it.
ghost use Rattle.std.specs.Prelude.{◌≡◌};
ghost use Rattle.moves.specs.Core.{start_of, fold_of, settled_by, told_to, through, tell, closed};
ghost use Rattle.moves.specs.Moves.{move_of};

use crate::{Change, Move, Placing, cleared, moving, past_if};
use layout::{Level, Op, level_of, level_word};
use meaning::{Truth, Verdict};

pub fn start_of(op: Op) -> Truth
    ensures { result ≡ start_of op }
{
    match op {
        Op::All | Op::Not => Truth::True,
        Op::Any => Truth::False,
    }
}

fn fold_of(op: Op, a: Truth, v: Truth) -> Truth
    ensures { result ≡ fold_of op a v }
{
    match op {
        Op::All => meaning::and3(a, v),
        Op::Any => meaning::or3(a, v),
        Op::Not => meaning::not3(v),
    }
}

fn settled_by(op: Op, t: Truth) -> bool
    ensures { result ≡ settled_by op t }
{
    matches!((op, t), (Op::All, Truth::False) | (Op::Any, Truth::True))
}

fn told_to(l: Level, v: Truth) -> Level
    ensures { result ≡ told_to l v }
{
    Level {
        val: fold_of(l.op, l.val, v),
        ..l
    }
}

fn in_register(t: Truth) -> Verdict
    ensures { result ≡ through t }
{
    meaning::under(t, Verdict::Permit)
}

pub fn tell_level(v: Truth, n: u64, nest: u64, l: u64, d: Verdict) -> Move
    ensures { result ≡ move_of (tell v n nest l d) }
{
    if nest == 0 {
        let first = cleared(0, in_register(v));
        return moving(first, Change::Keep, Change::Keep, Placing::Rest);
    }
    let t = told_to(level_of(l), v);
    let on = past_if(settled_by(t.op, t.val), n, d);
    moving(on, Change::Swap(level_word(t)), Change::Keep, Placing::Rest)
}

pub fn close_level(n: u64, nest: u64, l: u64, m: u64, d: Verdict) -> Move
    ensures { result ≡ move_of (closed n nest l m d) }
{
    if nest == 0 {
        return moving(cleared(0, d), Change::Keep, Change::Keep, Placing::Rest);
    }
    let v = level_of(l).val;
    if nest == 1 {
        let first = cleared(0, in_register(v));
        return moving(first, Change::Back(m), Change::Keep, Placing::Rest);
    }
    let t = told_to(level_of(m), v);
    let on = past_if(settled_by(t.op, t.val), n, d);
    moving(on, Change::Back(level_word(t)), Change::Keep, Placing::Rest)
}

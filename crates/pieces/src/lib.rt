// What the pieces of a comparison of two values do. On the levels a value is its eight bytes.
#![tactic(auto)]

ghost use Rattle.std.specs.Prelude.{◌≡◌};
ghost use Rattle.value.specs.Value.{value_of, test_of};
ghost use Rattle.sums.specs.Sums.{in_bytes};
ghost use Rattle.sums.specs.Worth.{Worth};
ghost use Rattle.meaning.specs.Meaning.{truth_of};
ghost use Rattle.layout.specs.declared.Op.TheVariants.{All};
ghost use Rattle.moves.specs.Core.{back, next, level, since, worked, tested, carried, pushes, leaves};
ghost use Rattle.moves.specs.Moves.{move_of};
ghost use Rattle.pieces.specs.Pieces.{since_word, word_in, mark_in};

use layout::{Found, Head, Level, Op, level_word};
use meaning::Truth;
use moves::{Change, Move, Next, Placing, moving};
use sums::{Operator, Word};
use value::Function;

// Once an operand is lost, all that is found after it is lost for the same reason, up to the comparison.
fn since_word(ands: Truth, w: Word) -> Word
    ensures { result ≡ since_word ands w }
{
    match ands {
        Truth::True | Truth::False => w,
        Truth::Unknown(s) => Err(s),
    }
}

fn word_in(w: Word) -> u64
    ensures { result ≡ word_in w }
{
    w.unwrap_or(0)
}

fn mark_in(w: Word) -> Truth
    ensures { result ≡ mark_in w }
{
    match w {
        Ok(_) => Truth::True,
        Err(s) => Truth::Unknown(s),
    }
}

fn marked(h: Head, mark: Truth) -> Next
    ensures { result ≡ next 0 h.found.reg mark h.found.ors h.found.sections }
{
    Next {
        jump: 0,
        found: Found {
            ands: mark,
            ..h.found
        },
    }
}

// A literal, or what was found of an attribute, goes on top of the levels.
pub fn put_word(h: Head, given: Word) -> Move
    ensures { (w : Worth) → given ≡ in_bytes w → result ≡ move_of (pushes h (since h.found.ands w)) }
{
    let w = since_word(h.found.ands, given);
    let on = marked(h, mark_in(w));
    moving(on, Change::Push(word_in(w)), Change::Keep, Placing::Rest)
}

// An operator's result takes the place of its operands: the first stands below the second.
pub fn work_words(h: Head, op: Operator, l: u64, m: u64) -> Move
    ensures { result ≡ move_of (leaves h (since h.found.ands (worked op m l))) }
{
    let w = since_word(h.found.ands, sums::work(op, m, l));
    let on = marked(h, mark_in(w));
    moving(on, Change::Back(word_in(w)), Change::Keep, Placing::Rest)
}

fn compared(f: Function, kind: usize, x: u64, y: u64) -> Truth
    ensures { result ≡ truth_of (test_of f (value_of kind x) (value_of kind y)) }
{
    meaning::truth_of(value::holds(f, value::value_of(kind, x), value::value_of(kind, y)))
}

fn tested_by(ands: Truth, f: Function, kind: usize, x: u64, y: u64) -> Truth
    ensures { result ≡ tested ands f kind x y }
{
    match ands {
        Truth::True | Truth::False => compared(f, kind, x, y),
        Truth::Unknown(_) => ands,
    }
}

// A condition that has the comparison's value takes the place of the two values, for `close` to tell.
#[tactic(auto, unfolding(moves::specs::Core::level))]
pub fn test_words(h: Head, f: Function, kind: usize, l: u64, m: u64) -> Move
    ensures { result ≡ move_of (carried h (Truth.True) (back (level All (tested h.found.ands f kind m l)))) }
{
    let on = marked(h, Truth::True);
    let top = Level {
        op: Op::All,
        val: tested_by(h.found.ands, f, kind, m, l),
    };
    moving(
        on,
        Change::Back(level_word(top)),
        Change::Keep,
        Placing::Rest,
    )
}

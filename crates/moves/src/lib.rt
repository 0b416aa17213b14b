// What a step does, put together: where it goes on, and what becomes of the stacks and the obligations.
#![tactic(auto)]

pub mod conditions;
pub mod policies;
pub mod targets;

ghost use Rattle.std.specs.Prelude.{◌≡◌};
ghost use Rattle.moves.specs.Core.{onward, clear, past};
ghost use Rattle.moves.specs.Moves.{moved};

use layout::{Found, Head};
use meaning::{Truth, Verdict};

// How many entries a step leaves out, and what is found then.
#[derive(Clone, Copy)]
pub struct Next {
    pub jump: u64,
    pub found: Found,
}

// What becomes of a stack: nothing; one more on top; another on top; another below the top; the top goes and another is below it.
#[derive(Clone, Copy)]
pub enum Change {
    Keep,
    Push(u64),
    Swap(u64),
    Under(u64),
    Back(u64),
}

// What becomes of the obligations: one is put on a stack, stacks fall back, the cut is set, or some of Deny's are brought down.
#[derive(Clone, Copy)]
pub enum Placing {
    Rest,
    AddPermit(u64),
    AddDeny(u64),
    FallPermit(u64),
    FallDeny(u64),
    FallBoth(u64, u64),
    Cut(u64),
    Down(u64),
}

// What a step does.
#[derive(Clone, Copy)]
pub struct Move {
    pub next: Next,
    pub over: bool,
    pub levels: Change,
    pub frames: Change,
    pub placing: Placing,
}

pub fn cleared(n: u64, v: Verdict) -> Next
    ensures { result ≡ clear n v }
{
    Next {
        jump: n,
        found: Found {
            reg: v,
            ands: Truth::True,
            ors: Truth::False,
            sections: Truth::True,
        },
    }
}

pub fn past_if(b: bool, n: u64, v: Verdict) -> Next
    ensures { result ≡ past b n v }
{
    cleared(if b { n } else { 0 }, v)
}

// The next entry, with all that was found.
pub fn unchanged(h: Head) -> Next
    ensures { result ≡ onward h }
{
    Next {
        jump: 0,
        found: h.found,
    }
}

pub fn moving(n: Next, levels: Change, frames: Change, placing: Placing) -> Move
    ensures { result ≡ moved n levels frames placing }
{
    Move {
        next: n,
        over: false,
        levels,
        frames,
        placing,
    }
}

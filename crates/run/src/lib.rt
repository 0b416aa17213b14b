// Runs and ticks of a programme.
// Kept: `as` between usize and u64, since there is no `From` between them.
#![tactic(auto)]

// The types stand apart, since a tick is both what is done and what it gives.
pub mod kinds {
    use layout::State;
    use meaning::Verdict;
    use record::Refusal;

    // The answer says running, or finished, with which decision and code and how many obligations, or why the tick was refused.
    // Kept: three states, as document 01 tells running and finished and a tick may be refused; promises' `first_number_says` speaks of the answer.
    #[derive(Clone, Copy)]
    pub enum Answer {
        Running,
        Finished(Verdict, u64),
        Refused(Refusal),
    }

    // The state after a tick, the steps that it took, and its answer.
    #[derive(Clone, Copy)]
    pub struct Tick {
        pub state: State,
        pub steps: u64,
        pub answer: Answer,
    }
}

ghost use Rattle.std.specs.Prelude.{◌≡◌, true, ◌++◌, ◌-◌, ◌≤◌, length, take, replicate};
ghost use Rattle.record.specs.Choose.{if};
ghost use Rattle.meaning.specs.Reading.{bags_of};
ghost use Rattle.layout.specs.Layout.{allowed};
ghost use Rattle.layout.specs.Ranges.{Held};
ghost use Rattle.programme.specs.Step.{count_by, fresh_of};
ghost use Rattle.run.specs.Run.{run_of, number_after, Ended};
ghost use Rattle.run.specs.Tick.{admitted, tick_of};
ghost use Rattle.run.specs.declared.kinds.Answer.TheVariants.{Running, Finished, Refused};
ghost use Rattle.layout.specs.Room.{room_p};

use kinds::{Answer, Tick};
use layout::{FRAMES, Head, LEVELS, PLACES, State};
use meaning::Verdict;
use record::Refusal;

// The most entries of a programme.
const MOST: usize = 8008;

// The first number of each state is below this.
const HEADS: u64 = 4611686018427387904;

// The first number before the first step: all is zero, but a section without a conjunction is False.
pub const FRESH: u64 = 144115188075855872;

// The state before the first step.
pub fn fresh() -> State
    ensures { result ≡ fresh_of }
{
    State {
        head: FRESH,
        frames: [0; FRAMES],
        levels: [0; LEVELS],
        places: [0; PLACES],
    }
}

// The first number after so many steps. Before the first it is the one given: the register may stand there as 5 to 7, which would be put together as 4.
fn number(steps: u64, start: u64, h: Head) -> u64
    requires { Held h }
    ensures { result ≡ number_after steps start h }
{
    if steps == 0 {
        return start;
    }
    layout::pack(h)
}

// At most so many steps of the lent state: how many were taken, or none where one would meet entries outside their layout, and the state is the one
// before it. The first number is taken apart once, and put together at the end.
// Kept: a while, since it stops where the run is over, and the count of steps is its result.
fn run(programme: &[u64], request: &[u8], state: &mut State, budget: u64) -> Option<u64>
    requires { (length programme.now ≤ 8008) × (allowed state.old.head ≡ true) }
    ensures { Ended (run_of programme.now (bags_of request.now) budget state.old) result state.new }
{
    let mut h = layout::unpack(state.head);
    let mut steps: u64 = 0;
    while steps < budget && !h.over {
        let Some(next) = programme::step_in(
            programme,
            request,
            h,
            &mut state.frames,
            &mut state.levels,
            &mut state.places,
        ) else {
            state.head = number(steps, state.head, h);
            return None;
        };
        h = next;
        steps += 1;
    }
    state.head = number(steps, state.head, h);
    Some(steps)
}

// The highest places of a frame and of a level.
const TOP_FRAME: u64 = FRAMES as u64 - 1;

const TOP_LEVEL: u64 = LEVELS as u64 - 1;

// Whether the programme has an entry and not over 8,008, and the layout allows the first number (below 2^62, and four fields in their ranges).
#[tactic(auto, unfolding(crate::specs::Tick::admitted, layout::specs::Layout::allowed))]
fn admits(long: usize, head: u64) -> bool
    ensures { result ≡ admitted long head }
{
    let h = layout::unpack(head);
    0 < long
        && long <= MOST
        && head < HEADS
        && h.depth <= TOP_FRAME
        && h.nest <= TOP_LEVEL
        && h.permits <= PLACES as u64
        && h.cut + h.denies <= PLACES as u64
}

// How many obligations a finished run has.
fn count(h: Head) -> u64
    ensures { result ≡ count_by h.found.reg h }
{
    match h.found.reg {
        Verdict::Permit => h.permits,
        Verdict::Deny => h.denies,
        Verdict::NotApplicable | Verdict::Indeterminate(_) => 0,
    }
}

// What the first number says of the run.
fn answer(h: Head) -> Answer
    ensures { result ≡ if h.over (Finished h.found.reg (count_by h.found.reg h)) Running }
{
    if !h.over {
        return Answer::Running;
    }
    Answer::Finished(h.found.reg, count(h))
}

// The obligations first, and zero in every other place.
fn fill(places: &[u16; PLACES], count: u64, out: &mut [u16])
    requires { (count ≤ room_p) × (room_p ≤ length out.old) }
    ensures { out.new ≡ take count places.now ++ replicate (length out.old - count) 0 }
{
    let n = count as usize;
    out[..n].copy_from_slice(&places[..n]);
    out[n..].fill(0);
}

// A refused tick returns the state that it was given, and 0 steps.
fn refused(why: Refusal, state: State) -> Tick
    ensures { result ≡ record { state = state; steps = 0; answer = Refused why } }
{
    Tick {
        state,
        steps: 0,
        answer: Answer::Refused(why),
    }
}

// A tick: request, output, programme and state are judged, and at most `budget` steps are taken.
pub fn tick(programme: &[u64], request: &[u8], state: State, budget: u64, out: &mut [u16]) -> Tick
    ensures { (result ≡ (tick_of programme.now request.now state budget out.old).tick)
        × (out.new ≡ (tick_of programme.now request.now state budget out.old).out) }
{
    if let Err(why) = judge::judge_request(request) {
        return refused(why, state);
    }
    if out.len() < PLACES {
        return refused(Refusal::NoRoom, state);
    }
    if !admits(programme.len(), state.head) {
        return refused(Refusal::BadRun, state);
    }
    let mut end = state;
    let Some(taken) = run(programme, request, &mut end, budget) else {
        let outside = Refusal::BadRun;
        return refused(outside, state);
    };
    let h = layout::unpack(end.head);
    if h.over {
        fill(&end.places, count(h), out);
    }
    Tick {
        state: end,
        steps: taken,
        answer: answer(h),
    }
}

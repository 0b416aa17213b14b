// The calls of the rig's loop. They take apart what is lent, call the functions of other crates, and put together what those give.
// Kept: `as` between usize and u64, since there is no `From` between them.
#![tactic(auto)]

ghost use Rattle.std.specs.Prelude.{◌≡◌, ◌∷◌, ◌++◌, ◌≤◌, length};
ghost use Rattle.translator.specs.Translate.{translate_of, leaves};
ghost use Rattle.rig.specs.Rig.{no_state, state_in, numbers_of, over, call, fresh_call, running_number, finished_number, tick_in, tick_call, translated_number};
ghost use Rattle.layout.specs.Room.{room_p};
ghost use Rattle.programme.specs.Step.{fresh_of};

use layout::{FRAMES, LEVELS, PLACES, State};
use meaning::Verdict;
use record::Refusal;
use run::kinds::Answer;

// What a state takes: the first number, and so many frames and levels behind it; and its places.
const LEVELS_AT: usize = 1 + FRAMES;

const NUMBERS: usize = LEVELS_AT + LEVELS;

// Where the fields of an answer start, behind the decision's number.
const COUNT: u64 = 256;

const CODE: u64 = 16777216;

const STEPS: u64 = 4294967296;

// A state that no layout allows.
// Kept: specs/Rig.antt gives numbers that are too few this state (`no_state`, `state_in`), and the calls' contracts speak of it; so it is no `None`.
#[tactic(auto, unfolding(crate::specs::Rig::no_state))]
fn no_state() -> State
    ensures { result ≡ no_state }
{
    State {
        head: u64::MAX,
        frames: [0; FRAMES],
        levels: [0; LEVELS],
        places: [0; PLACES],
    }
}

// The state that lent numbers and places hold; where they are too short for one, none that the layout allows.
#[tactic(auto, unfolding(crate::specs::Rig::state_in))]
fn state_in(numbers: &[u64], places: &[u16]) -> State
    ensures { result ≡ state_in numbers.now places.now }
{
    if numbers.len() < NUMBERS || places.len() < PLACES {
        return no_state();
    }
    let mut frames = [0; FRAMES];
    let mut levels = [0; LEVELS];
    let mut held = [0; PLACES];
    frames.copy_from_slice(&numbers[1..LEVELS_AT]);
    levels.copy_from_slice(&numbers[LEVELS_AT..NUMBERS]);
    held.copy_from_slice(&places[..PLACES]);
    State {
        head: numbers[0],
        frames,
        levels,
        places: held,
    }
}

// Puts the numbers of a state into the first of lent numbers.
fn put_numbers(head: u64, frames: &[u64; FRAMES], levels: &[u64; LEVELS], numbers: &mut [u64])
    requires { 33 ≤ length numbers.old }
    ensures { numbers.new ≡ over (head ∷ (frames.now ++ levels.now)) numbers.old }
{
    numbers[0] = head;
    numbers[1..LEVELS_AT].copy_from_slice(frames);
    numbers[LEVELS_AT..NUMBERS].copy_from_slice(levels);
}

// Puts the places of a state into the first of lent places.
fn put_places(held: &[u16; PLACES], places: &mut [u16])
    requires { room_p ≤ length places.old }
    ensures { places.new ≡ over held.now places.old }
{
    places[..PLACES].copy_from_slice(held);
}

// Puts a state into the first of lent numbers and places.
fn put_state(state: State, numbers: &mut [u64], places: &mut [u16])
    requires { (33 ≤ length numbers.old) × (room_p ≤ length places.old) }
    ensures { (numbers.new ≡ over (numbers_of state) numbers.old) × (places.new ≡ over state.places places.old) }
{
    put_numbers(state.head, &state.frames, &state.levels, numbers);
    put_places(&state.places, places);
}

// Puts the fresh state into the first of lent numbers and places.
// Kept: beside `put_state`, since a state made for it would take 4,600 bytes of stack and three times as long.
fn put_fresh(numbers: &mut [u64], places: &mut [u16])
    requires { (33 ≤ length numbers.old) × (room_p ≤ length places.old) }
    ensures { (numbers.new ≡ over (numbers_of fresh_of) numbers.old) × (places.new ≡ over fresh_of.places places.old) }
{
    numbers[0] = run::FRESH;
    numbers[1..LEVELS_AT].fill(0);
    numbers[LEVELS_AT..NUMBERS].fill(0);
    places[..PLACES].fill(0);
}

// Translates a book into lent entries: 256 times their number, or the refusal.
pub fn bachumoi_translate(book: &[u8], programme: &mut [u64]) -> u64
    ensures { (result ≡ translated_number (translate_of book.now (length programme.old)))
        × (programme.new ≡ leaves (translate_of book.now (length programme.old)) book.now programme.old) }
{
    match translator::translate(book, programme) {
        Ok(n) => 256 * n as u64,
        Err(why) => record::refusal_number(why),
    }
}

// Puts the fresh state into lent numbers and places: 0, or the refusal.
#[tactic(auto, unfolding(crate::specs::Rig::fresh_call))]
pub fn bachumoi_fresh(numbers: &mut [u64], places: &mut [u16]) -> u64
    ensures { call result numbers.new places.new ≡ fresh_call numbers.old places.old }
{
    if numbers.len() < NUMBERS || places.len() < PLACES {
        return record::refusal_number(Refusal::NoRoom);
    }
    put_fresh(numbers, places);
    0
}

// A tick's number: running, with the steps that it took; or finished, with the decision, its code and how many obligations.
fn running(steps: u64) -> u64
    requires { steps ≤ 8008 }
    ensures { result ≡ running_number steps }
{
    STEPS * steps
}

fn finished(v: Verdict, count: u64, steps: u64) -> u64
    requires { (count ≤ room_p) × (steps ≤ 8008) }
    ensures { result ≡ finished_number v count steps }
{
    let number = u64::from(meaning::number(meaning::decision_in(v)));
    number + COUNT * count + CODE * u64::from(meaning::code(v)) + STEPS * steps
}

// Takes one tick of the state in lent numbers and places: its answer as one number. A refusal leaves all that is lent as it was.
pub fn bachumoi_tick(
    programme: &[u64],
    request: &[u8],
    numbers: &mut [u64],
    places: &mut [u16],
    budget: u64,
    out: &mut [u16],
) -> u64
    ensures { (call result numbers.new places.new
        ≡ tick_call (tick_in programme.now request.now numbers.old places.old budget out.old).tick numbers.old places.old)
        × (out.new ≡ (tick_in programme.now request.now numbers.old places.old budget out.old).out) }
{
    let state = state_in(numbers, places);
    let ticked = run::tick(programme, request, state, budget, out);
    match ticked.answer {
        Answer::Refused(why) => record::refusal_number(why),
        Answer::Running => {
            put_state(ticked.state, numbers, places);
            running(ticked.steps)
        }
        Answer::Finished(v, count) => {
            put_state(ticked.state, numbers, places);
            finished(v, count, ticked.steps)
        }
    }
}

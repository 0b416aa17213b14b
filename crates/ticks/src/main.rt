// Translates BOOK.HEX, runs the programme for a request tick by tick, and prints a line a tick. The arguments are budgets, one a tick; the last is
// repeated until the run is finished, unless it is 0. Without arguments a tick has 300 steps.
// Kept: `as` between usize and u64, since there is no `From` between them.
#![tactic(auto)]

ghost use Rattle.std.specs.Prelude.{◌≡◌, ◌<◌, ◌≤◌, length, IfOk};
ghost use Rattle.record.specs.Bytes.{most_records};
ghost use Rattle.ticks.specs.Lines.{is_running, after_of};

use layout::State;
use record::Refusal;
use run::kinds::Answer;
use std::env::FillError;
use std::io;
use std::rt::Env;

mod budget;
mod lines;

// Argument i as a budget. The system takes no argument that is longer than the buffer.
fn argument(rt: &impl Env, i: usize) -> Option<u64> {
    let mut word = [0u8; 131072];
    let n = rt.arg(i, &mut word).ok()?;
    budget::budget_in(&word[..n])
}

// How many arguments there are, the program's name among them.
fn argument_count(rt: &impl Env) -> usize {
    let mut byte = [0u8; 1];
    for i in 0..usize::MAX {
        match rt.arg(i, &mut byte) {
            Ok(_) | Err(FillError::TooLong) => {}
            Err(FillError::NotPresent) => return i,
        }
    }
    usize::MAX
}

// The first argument that is no budget.
fn first_wrong(rt: &impl Env, count: usize) -> Option<usize> {
    (1..count).find(|i| argument(rt, *i).is_none())
}

fn complain(rt: &impl Eprint, i: usize) {
    let _ = eprintln!(rt;
        "ticks: argument {i} is no budget: decimal digits, at most 18446744073709551615"
    );
}

// Prints the line of a tick.
fn show(rt: &impl Print, steps: u64, answer: Answer, places: &[u16]) -> io::Result<()>
    requires { (steps < 65536) × (length places.now ≤ most_records) }
{
    let mut out = [0u8; line::LONGEST];
    let digits = lines::steps_digits(steps);
    let n = lines::answer_line(answer, places, &mut out);
    rt.write_all(&digits)?;
    rt.write_all(&out[..n])
}

fn refuse(rt: &impl Print, refusal: Refusal) -> io::Result<()> {
    let places = [0u16; 1];
    show(rt, 0, Answer::Refused(refusal), &places)
}

fn is_running(answer: Answer) -> bool
    ensures { result ≡ is_running answer }
{
    matches!(answer, Answer::Running)
}

// A tick, and its line printed: the state to go on with, if the run goes on.
fn turn(
    rt: &impl Print,
    programme: &[u64],
    request: &[u8],
    state: State,
    budget: u64,
) -> io::Result<Option<State>>
    ensures { IfOk result (λ after. after ≡ after_of programme.now request.now state budget) }
{
    let mut places = [0u16; layout::PLACES];
    let ticked = run::tick(programme, request, state, budget, &mut places);
    show(rt, ticked.steps, ticked.answer, &places)?;
    Ok(is_running(ticked.answer).then_some(ticked.state))
}

// Ticks of one budget, until the run is finished. Each takes a step or finishes it, and a run takes no more than 8,008 steps: the count of ticks is
// never used up.
fn repeat(
    rt: &impl Print,
    programme: &[u64],
    request: &[u8],
    start: State,
    budget: u64,
) -> io::Result<()> {
    let mut state = start;
    for _ in 0..8009 {
        let Some(next) = turn(rt, programme, request, state, budget)? else {
            return Ok(());
        };
        state = next;
    }
    Ok(())
}

// Ticks of the budgets that the arguments give, each of which is one.
fn deal(
    rt: &(impl Env + Print),
    programme: &[u64],
    request: &[u8],
    count: usize,
) -> io::Result<()> {
    let mut state = run::fresh();
    let mut budget: u64 = 300;
    for i in 1..count {
        budget = argument(rt, i).unwrap_or(0);
        let Some(next) = turn(rt, programme, request, state, budget)? else {
            return Ok(());
        };
        state = next;
    }
    if budget == 0 {
        return Ok(());
    }
    repeat(rt, programme, request, state, budget)
}

fn run_records(
    rt: &(impl Env + Print),
    book: &[u8],
    request: &[u8],
    count: usize,
) -> io::Result<()> {
    let mut programme = [0u64; 8008];
    match translator::translate(book, &mut programme) {
        Ok(n) => deal(rt, &programme[..n], request, count),
        Err(refusal) => refuse(rt, refusal),
    }
}

fn run_texts(rt: &(impl Env + Print), book: &[u8], request: &[u8], count: usize) -> io::Result<()> {
    let mut records = [0u8; record::BOOK];
    let mut entries = [0u8; record::REQUEST];
    match text::read_book(book, &mut records) {
        Ok(n) => match text::read_request(request, &mut entries) {
            Ok(m) => run_records(rt, &records[..n], &entries[..m], count),
            Err(refusal) => refuse(rt, refusal),
        },
        Err(refusal) => refuse(rt, refusal),
    }
}

// One byte more than a book and a request can have is read, so a longer text is refused.
fn main(rt: HostRuntime) -> io::Result<()> {
    let count = argument_count(&rt);
    if let Some(wrong) = first_wrong(&rt, count) {
        complain(&rt, wrong);
        return Ok(());
    }
    let mut book = [0u8; text::BOOK_TEXT];
    let mut request = [0u8; text::REQUEST_TEXT];
    let n = file::read_book_file(&rt, &mut book);
    let m = file::read_full(&mut rt.stdin(), &mut request);
    run_texts(&rt, &book[..n], &request[..m], count)
}

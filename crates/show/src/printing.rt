// What is printed: records as lines, and refusals.
ghost use Rattle.std.specs.Prelude.{◌≡◌, ◌+◌, ◌*◌, ◌≤◌, min, length};
ghost use Rattle.record.specs.Bytes.{size};
ghost use Rattle.placement.specs.Place.{most_depth};
ghost use Rattle.show.specs.Outline.{blanks_of};

use crate::lines::Line;
use crate::nesting::depth;
use crate::records::record_words;
use crate::refusals::{refusal_line, rule_line};
use record::Refusal;
use std::io;

// The blanks before a line number that is to have four places.
#[tactic(auto, unfolding(crate::specs::Outline::blanks_of))]
fn blanks(n: usize) -> usize
    ensures { result ≡ blanks_of n }
{
    match n {
        0..10 => 3,
        10..100 => 2,
        100..1000 => 1,
        _ => 0,
    }
}

// The blanks before a record of depth d; levels deeper than a book may have are indented alike.
fn indent(d: usize) -> usize
    ensures { result ≡ 2 * min most_depth d }
{
    2 * placement::MOST_DEPTH.min(d)
}

// The line of record i, with a mark before it.
fn line(book: &[u8], i: usize, mark: u8) -> Line
    requires { (i + 1) * size ≤ length book.now }
{
    let l = Line::empty()
        .put(mark)
        .repeat(b' ', blanks(i + 1))
        .decimal((i + 1) as u64)
        .repeat(b' ', indent(depth(book, i)));
    record_words(book, i, l).put(b'\n')
}

// Prints a line.
fn send(rt: &impl Print, l: Line) -> io::Result<()> {
    rt.write_all(&l.bytes[..l.said])
}

// Prints the first n records.
pub fn print_first(rt: &impl Print, book: &[u8], n: usize) -> io::Result<()>
    requires { n * size ≤ length book.now }
{
    for i in 0..n {
        send(rt, line(book, i, b' '))?;
    }
    Ok(())
}

// Prints the records before one that is refused, and that one with its rule.
pub fn print_refused(rt: &impl Print, book: &[u8], i: usize, number: u8) -> io::Result<()>
    requires { (i + 1) * size ≤ length book.now }
{
    print_first(rt, book, i)?;
    send(rt, line(book, i, b'>'))?;
    send(rt, rule_line(book, i, number))
}

// Prints a refusal that is of no record.
pub fn print_refusal(rt: &impl Print, refusal: Refusal) -> io::Result<()> {
    send(rt, refusal_line(refusal))
}

// Refusals in words.
ghost use Rattle.std.specs.Prelude.{◌+◌, ◌*◌, ◌≤◌, length};
ghost use Rattle.record.specs.Bytes.{size};

use crate::fault::Fault;
use crate::faults::fault_of;
use crate::lines::Line;
use crate::nesting::parent;
use crate::phrases::phrase;
use record::Refusal;

// The line of a refusal, where there is one.
fn at_line(line: usize) -> Line {
    match line {
        0 => Line::empty().words(b"refused"),
        _ => Line::empty()
            .words(b"refused at line ")
            .decimal(line as u64),
    }
}

// The refusal of a line: what is wrong is to follow.
fn refused(line: usize, number: u8) -> Line {
    at_line(line)
        .words(b", number ")
        .decimal(u64::from(number))
        .words(b": ")
}

// The line of record i's parent, which 10 to 12 speak of.
fn below(book: &[u8], i: usize, number: u8, l: Line) -> Line
    requires { (i + 1) * size ≤ length book.now }
{
    if number < 10 {
        return l;
    }
    l.words(b"below line ")
        .decimal((parent(book, i) + 1) as u64)
        .words(b": ")
}

// The line that says why a text is no book, or why bytes are no records, by the refusal's number; 5 and 9 to 12 are of a record, and `rule_line` says them.
pub fn refusal_line(refusal: Refusal) -> Line {
    let words = phrase(
        b"|the line is not 40 hexadecimal digits and a line feed, or 32 where line 1 has 32\
          |there are more than 1,000 records\
          |there is no record: the book is empty, or there is no BOOK.HEX\
          |the bytes are not a multiple of 20\
          |\
          |\
          |there is no room",
        usize::from(refusal.number()),
    );
    refused(refusal.line(), refusal.number())
        .words(words)
        .put(b'\n')
}

// The line that says why record i is refused, by the refusal's number: a field rule or a place rule.
pub fn rule_line(book: &[u8], i: usize, number: u8) -> Line
    requires { (i + 1) * size ≤ length book.now }
{
    let words = fault_of(book, i, number).map_or("", Fault::words);
    below(book, i, number, refused(i + 1, number))
        .words(words.as_bytes())
        .put(b'\n')
}

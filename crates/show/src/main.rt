// Prints BOOK.HEX as an outline that a person can read: one line a record, indented by its depth. A book that is refused is printed as far as it is
// sound, and the refused line is marked, with the rule that it breaks.
// Kept: `as` between usize and u64, since there is no `From` between them.
#![tactic(auto)]

ghost use Rattle.std.specs.Prelude.{◌≡◌, ◌*◌, ◌≤◌, length};
ghost use Rattle.record.specs.Bytes.{size};
ghost use Rattle.record.specs.Refusals.{line_of};
ghost use Rattle.show.specs.Outline.{lines_before};

use printing::{print_first, print_refusal, print_refused};
use record::Refusal;
use std::io;

mod fault;
mod faults;
mod lines;
mod nesting;
mod phrases;
mod printing;
mod records;
mod refusals;

// The number of the refusal for too many records.
// Kept: the number, since `lines_before` compares it, and the number of a bad place is its rule's, whatever that is.
const TOO_MANY: u8 = 2;

// Prints record bytes that are judged.
fn show_records(rt: &impl Print, book: &[u8]) -> io::Result<()> {
    match judge::judge_book(book) {
        Ok(accepted) => print_first(rt, book, accepted.records),
        Err(refusal) => show_refused(rt, book, refusal),
    }
}

// Prints record bytes that are refused.
fn show_refused(rt: &impl Print, book: &[u8], refusal: Refusal) -> io::Result<()>
    requires { line_of refusal * size ≤ length book.now }
{
    match refusal.line().checked_sub(1) {
        Some(i) => print_refused(rt, book, i, refusal.number()),
        None => print_refusal(rt, refusal),
    }
}

// The lines before the one at which a text is refused.
#[tactic(auto, unfolding(crate::specs::Outline::lines_before))]
fn lines_before(refusal: Refusal) -> usize
    ensures { result ≡ lines_before refusal }
{
    if refusal.number() == TOO_MANY {
        return record::MOST_RECORDS;
    }
    refusal.line().saturating_sub(1)
}

// Prints the first n lines of a text, as far as they keep the field rules.
fn show_lines(rt: &impl Print, text: &[u8], records: &mut [u8], n: usize) -> io::Result<()> {
    let end = text::lines_end(text, n);
    match text::read_book(&text[..end], records) {
        Ok(m) => show_kept(rt, &records[..m]),
        Err(_) => Ok(()),
    }
}

// Prints the records before the first that breaks a field rule.
fn show_kept(rt: &impl Print, records: &[u8]) -> io::Result<()> {
    let kept = fields::first_field(records, records.len() / record::SIZE);
    print_first(rt, records, kept.records)
}

// Prints a text: the records that it says, or why it says none, after the lines before.
fn show(rt: &impl Print, text: &[u8], records: &mut [u8]) -> io::Result<()> {
    match text::read_book(text, records) {
        Ok(n) => show_records(rt, &records[..n]),
        Err(refusal) => {
            show_lines(rt, text, records, lines_before(refusal))?;
            print_refusal(rt, refusal)
        }
    }
}

// One byte more than a book can have is read, so a longer file is refused.
fn main(rt: HostRuntime) -> io::Result<()> {
    let mut text = [0u8; text::BOOK_TEXT];
    let mut records = [0u8; record::BOOK];
    let n = file::read_book_file(&rt, &mut text);
    show(&rt, &text[..n], &mut records)
}

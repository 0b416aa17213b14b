// Reads BOOK.HEX and a request, and prints the line of the decision or of the refusal.
#![tactic(auto)]

ghost use Rattle.std.specs.Prelude.{◌≡◌, ◌≤◌, ◌*◌, length, take};
ghost use Rattle.record.specs.Bytes.{size, most_records, most_entries};
ghost use Rattle.line.specs.Line.{longest};
ghost use Rattle.decide.specs.Decide.{printed, Put};

use record::Refusal;
use std::io;

// Puts the line of what the two texts decide first into `out`, and answers its length. `records`, `entries` and `places` are for the work.
fn put_ruling(
    book: &[u8],
    request: &[u8],
    records: &mut [u8],
    entries: &mut [u8],
    places: &mut [u16],
    out: &mut [u8],
) -> Result<usize, Refusal>
    requires { (length records.old ≡ size * most_records) × (length entries.old ≡ size * most_entries) × (length places.old ≡ most_records) × (longest ≤ length out.old) }
    ensures { Put (printed book.now request.now) out.old out.new result }
{
    let n = text::read_book(book, records)?;
    let m = text::read_request(request, entries)?;
    let ruling = decider::decide(&records[..n], &entries[..m], places)?;
    let number = meaning::number(meaning::decision_in(ruling.verdict));
    Ok(line::decision_line(number, places, ruling.count, out))
}

// The same, or the line of the refusal.
fn decided(
    book: &[u8],
    request: &[u8],
    records: &mut [u8],
    entries: &mut [u8],
    places: &mut [u16],
    out: &mut [u8],
) -> usize
    requires { (length records.old ≡ size * most_records) × (length entries.old ≡ size * most_entries) × (length places.old ≡ most_records) × (longest ≤ length out.old) }
    ensures { (result ≤ length out.new) × (take result out.new ≡ printed book.now request.now) }
{
    match put_ruling(book, request, records, entries, places, out) {
        Ok(n) => n,
        Err(refusal) => line::refusal_line(refusal, out),
    }
}

// One byte more than a book and a request can have is read, so a longer text is refused.
fn main(rt: HostRuntime) -> io::Result<()> {
    let mut book = [0u8; text::BOOK_TEXT];
    let mut request = [0u8; text::REQUEST_TEXT];
    let mut records = [0u8; record::BOOK];
    let mut entries = [0u8; record::REQUEST];
    let mut places = [0u16; record::MOST_RECORDS];
    let mut out = [0u8; line::LONGEST];
    let n = file::read_book_file(&rt, &mut book);
    let m = file::read_full(&mut rt.stdin(), &mut request);
    let k = decided(
        &book[..n],
        &request[..m],
        &mut records,
        &mut entries,
        &mut places,
        &mut out,
    );
    rt.write_all(&out[..k])
}

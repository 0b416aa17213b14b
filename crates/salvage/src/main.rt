// Reads BOOK.HEX, writes it mended into MENDED.HEX, and prints a line a replacement; or prints the line of its refusal, and writes no file.
#![tactic(auto)]

ghost use Rattle.std.specs.Prelude.{◌≡◌, ◌*◌, ◌/◌, ◌≤◌, length, take};
ghost use Rattle.record.specs.Bytes.{size, most_records};
ghost use Rattle.record.specs.Stored.{stored};
ghost use Rattle.record.specs.Table.{tab};
ghost use Rattle.text.specs.Text.{line_length, text_at};
ghost use Rattle.line.specs.Line.{refusal_line};
ghost use Rattle.salvage.specs.Salvage.{lines_of, said_of, said};
ghost use Rattle.salvage.specs.Places.{replacements_at, First};

use record::Refusal;
use std::io;

// The bytes of a replacement's line: eight digits and LF.
const LINE: usize = 9;

// The most bytes that are printed: no book has more replacements than half its records.
const PRINTED: usize = LINE * record::MOST_RECORDS / 2;

// How many bytes the file has, and how many are printed.
// Kept: 0 for no file, as the definition `said` has an empty text there.
#[derive(Clone, Copy)]
struct Lengths {
    file: usize,
    printed: usize,
}

// Puts the lines of m replacements first into `out`, and answers how many bytes they have.
fn put_lines(replaced: &[u8], m: usize, out: &mut [u8]) -> usize
    requires { (m * 4 ≤ length replaced.now) × (m * 9 ≤ length out.old) }
    ensures { (result ≡ m * 9) × (out.new ≡ stored out.old 0 (lines_of (replacements_at replaced.now 0 m))) }
{
    for i in 0..m {
        let at = i * LINE;
        let place = i * mending::REPLACEMENT;
        line::four_digits(out, at, usize::from(record::big2(replaced, place)));
        line::four_digits(out, at + 4, usize::from(record::big2(replaced, place + 2)));
        out[at + 8] = text::LF;
    }
    m * LINE
}

// Puts the text of the first n records first into `out`, and answers how many bytes it has. As many as a book may have are not refused.
fn put_text(records: &[u8], n: usize, out: &mut [u8]) -> usize
    requires { (1 ≤ n) × (n ≤ most_records) × (n * size ≤ length records.now) × (line_length size * most_records ≤ length out.old) }
    ensures { First result out.new (tab (text_at (take (n * size) records.now)) (line_length size * n)) }
{
    let bytes = n * record::SIZE;
    text::write_book(&records[..bytes], out).unwrap_or(0)
}

// Puts the line of a refusal first into `out`: no file is written.
fn refused(refusal: Refusal, out: &mut [u8]) -> Lengths
    requires { 11 ≤ length out.old }
    ensures { (result.file ≡ 0) × (First result.printed out.new (refusal_line refusal)) }
{
    Lengths {
        file: 0,
        printed: line::refusal_line(refusal, out),
    }
}

// Puts the text of the mended book first into `out` and what is to be printed first into `printed`. `mended` and `replaced` are for the work.
fn mend(
    book: &[u8],
    mended: &mut [u8],
    replaced: &mut [u8],
    out: &mut [u8],
    printed: &mut [u8],
) -> Lengths
    requires { (length mended.old ≡ size * most_records) × (length replaced.old ≡ 2 * most_records) × (line_length size * most_records ≤ length out.old) × (9 * most_records / 2 ≤ length printed.old) }
    ensures { (First result.file out.new (said_of book.now).file) × (First result.printed printed.new (said_of book.now).printed) }
{
    match mending::salvage(book, mended, replaced) {
        Ok(counts) => {
            let file = put_text(mended, counts.records, out);
            let lines = put_lines(replaced, counts.replacements, printed);
            Lengths {
                file,
                printed: lines,
            }
        }
        Err(refusal) => refused(refusal, printed),
    }
}

// The same of a book's text; `records` is for the work too.
fn salvaged(
    text: &mut [u8],
    records: &mut [u8],
    mended: &mut [u8],
    replaced: &mut [u8],
    out: &mut [u8],
    printed: &mut [u8],
) -> Lengths
    requires { (length records.old ≡ size * most_records) × (length mended.old ≡ size * most_records) × (length replaced.old ≡ 2 * most_records) × (line_length size * most_records ≤ length out.old) × (9 * most_records / 2 ≤ length printed.old) }
    ensures { (First result.file out.new (said text.old).file) × (First result.printed printed.new (said text.old).printed) }
{
    text::zero_wrong(text);
    match text::read_book(text, records) {
        Ok(m) => mend(&records[..m], mended, replaced, out, printed),
        Err(refusal) => refused(refusal, printed),
    }
}

// One byte more than a book can have is read, so a longer file is refused. What is to be printed waits for the file.
fn main(rt: HostRuntime) -> io::Result<()> {
    let mut text = [0u8; text::BOOK_TEXT];
    let mut records = [0u8; record::BOOK];
    let mut mended = [0u8; record::BOOK];
    let mut replaced = [0u8; 2 * record::MOST_RECORDS];
    let mut out = [0u8; record::MOST_RECORDS * text::LINE];
    let mut printed = [0u8; PRINTED];
    let n = file::read_book_file(&rt, &mut text);
    let lengths = salvaged(
        &mut text[..n],
        &mut records,
        &mut mended,
        &mut replaced,
        &mut out,
        &mut printed,
    );
    if 0 < lengths.file && !file::write_mended_file(&rt, &out[..lengths.file]) {
        return Ok(());
    }
    rt.write_all(&printed[..lengths.printed])
}

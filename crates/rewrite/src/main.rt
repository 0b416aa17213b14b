// Reads BOOK.HEX and prints it again in capitals and with 40 digits a line, or the line of its refusal.
#![tactic(auto)]

ghost use Rattle.std.specs.Prelude.{◌≡◌, ◌≤◌, ◌*◌, length, take};
ghost use Rattle.std.specs.Result.{MatchResult};
ghost use Rattle.record.specs.Bytes.{size, most_records};
ghost use Rattle.text.specs.Text.{line_length};
ghost use Rattle.line.specs.Line.{refusal_line};
ghost use Rattle.rewrite.specs.Rewrite.{printed};

use record::Refusal;
use std::io;

// Puts the text again first into `out`, and answers its length. `records` is for the work.
fn again(text: &[u8], records: &mut [u8], out: &mut [u8]) -> Result<usize, Refusal>
    requires { (length records.old ≡ size * most_records) × (line_length size * most_records ≤ length out.old) }
    ensures { MatchResult result (λ n. (n ≤ length out.new) × (take n out.new ≡ printed text.now))
        (λ r. (out.new ≡ out.old) × (printed text.now ≡ refusal_line r)) }
{
    let m = text::read_book(text, records)?;
    text::write_book(&records[..m], out)
}

// Puts what is to be printed first into `out`, and answers its length.
fn rewritten(text: &[u8], records: &mut [u8], out: &mut [u8]) -> usize
    requires { (length records.old ≡ size * most_records) × (line_length size * most_records ≤ length out.old) }
    ensures { (result ≤ length out.new) × (take result out.new ≡ printed text.now) }
{
    match again(text, records, out) {
        Ok(n) => n,
        Err(refusal) => line::refusal_line(refusal, out),
    }
}

// One byte more than a book can have is read, so a longer file is refused.
fn main(rt: HostRuntime) -> io::Result<()> {
    let mut text = [0u8; text::BOOK_TEXT];
    let mut records = [0u8; record::BOOK];
    let mut out = [0u8; record::MOST_RECORDS * text::LINE];
    let n = file::read_book_file(&rt, &mut text);
    let m = rewritten(&text[..n], &mut records, &mut out);
    rt.write_all(&out[..m])
}

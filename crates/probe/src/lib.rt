// The calls of the other crates for the comparisons to link. Each answer is one number.
// Kept: `as` between usize and u64, since there is no `From` between them.
#![tactic(auto)]

ghost use Rattle.std.specs.Prelude.{◌≡◌, ◌<◌, ◌≤◌, ◌^◌, length};
ghost use Rattle.std.specs.Result.{MatchResult};
ghost use Rattle.record.specs.Bytes.{most_records};
ghost use Rattle.record.specs.Refusals.{line_of};
ghost use Rattle.text.specs.Text.{book, request, read_of, write_of, byte_at, text_at, output_after};
ghost use Rattle.text.specs.Wrong.{zeroed};
ghost use Rattle.judge.specs.Judge.{judge_of};
ghost use Rattle.judge.specs.Request.{judge_request_of};
ghost use Rattle.probe.specs.Packed.{packed_of};
ghost use Rattle.probe.specs.Judgements.{book_packed};

use record::Refusal;

// Where the fields of a number start: the count, and a book's obligations above it.
const COUNT: u64 = 256;

const OBLIGATIONS: u64 = 16777216;

// An answer in one number.
#[tactic(auto, unfolding(crate::specs::Packed::packed_of))]
fn packed(answer: Result<usize, Refusal>) -> u64
    requires { MatchResult answer (λ m. m < 2 ^ 56) (λ r. line_of r ≤ most_records) }
    ensures { result ≡ packed_of answer }
{
    match answer {
        Ok(m) => COUNT * m as u64,
        Err(refusal) => record::refusal_number(refusal),
    }
}

// Kept: a function for each call, also where two differ in the kind alone, since `probe_c` and the comparisons link each by its name.
#[tactic(auto, using(crate::proofs::Laws::read_fits))]
pub fn probe_read_book(text: &[u8], out: &mut [u8]) -> u64
    ensures { (result ≡ packed_of (read_of book text.now (length out.old))) × (out.new ≡ output_after (byte_at text.now) (read_of book text.now (length out.old)) out.old) }
{
    packed(text::read_book(text, out))
}

#[tactic(auto, using(crate::proofs::Laws::read_fits))]
pub fn probe_read_request(text: &[u8], out: &mut [u8]) -> u64
    ensures { (result ≡ packed_of (read_of request text.now (length out.old))) × (out.new ≡ output_after (byte_at text.now) (read_of request text.now (length out.old)) out.old) }
{
    packed(text::read_request(text, out))
}

#[tactic(auto, using(crate::proofs::Laws::write_fits))]
pub fn probe_write_book(records: &[u8], out: &mut [u8]) -> u64
    ensures { (result ≡ packed_of (write_of book records.now (length out.old))) × (out.new ≡ output_after (text_at records.now) (write_of book records.now (length out.old)) out.old) }
{
    packed(text::write_book(records, out))
}

#[tactic(auto, using(crate::proofs::Laws::write_fits))]
pub fn probe_write_request(records: &[u8], out: &mut [u8]) -> u64
    ensures { (result ≡ packed_of (write_of request records.now (length out.old))) × (out.new ≡ output_after (text_at records.now) (write_of request records.now (length out.old)) out.old) }
{
    packed(text::write_request(records, out))
}

pub fn probe_zero_wrong(text: &mut [u8])
    ensures { text.new ≡ zeroed text.old }
{
    text::zero_wrong(text);
}

#[tactic(auto, unfolding(crate::specs::Packed::packed_of, crate::specs::Judgements::book_packed))]
pub fn probe_judge_book(book: &[u8]) -> u64
    ensures { result ≡ book_packed (judge_of book.now) }
{
    match judge::judge_book(book) {
        Ok(accepted) => COUNT * accepted.records as u64 + OBLIGATIONS * accepted.obligations as u64,
        Err(refusal) => record::refusal_number(refusal),
    }
}

#[tactic(auto, using(crate::proofs::Judgements::request_fits))]
pub fn probe_judge_request(request: &[u8]) -> u64
    ensures { result ≡ packed_of (judge_request_of request.now) }
{
    packed(judge::judge_request(request))
}

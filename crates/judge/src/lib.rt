// Judging record bytes: a book's, and a request's.
#![tactic(auto)]

ghost use Rattle.std.specs.Prelude.{◌≡◌, ◌*◌, ◌<◌, length};
ghost use Rattle.record.specs.Bytes.{size};
ghost use Rattle.judge.specs.Judge.{judge_records, judge_of};
ghost use Rattle.judge.specs.Request.{judge_request_of};

use record::{Part, Refusal};

// An accepted book: how many records it has, and how many of them are obligations.
#[derive(Clone, Copy)]
pub struct Accepted {
    pub records: usize,
    pub obligations: usize,
}

// The n records of a book of the right size, line by line.
fn judge_lines(book: &[u8], n: usize) -> Result<Accepted, Refusal>
    requires { (0 < n) × (length book.now ≡ n * size) }
    ensures { result ≡ judge_records book.now n }
{
    let kept = fields::first_field(book, n);
    if kept.records < n {
        return Err(Refusal::BadField(Part::Book, kept.records + 1));
    }
    if let Some(bad) = placement::first_place(book, n) {
        return Err(Refusal::BadPlace(bad.rule, bad.at + 1));
    }
    Ok(Accepted {
        records: n,
        obligations: kept.obligations,
    })
}

// The same: a sound book needs one pass; only a refusal is looked for line by line.
fn judge_records(book: &[u8], n: usize) -> Result<Accepted, Refusal>
    requires { (0 < n) × (length book.now ≡ n * size) }
    ensures { result ≡ judge_records book.now n }
{
    match grammar::obligations(book, n) {
        Some(obligations) => Ok(Accepted {
            records: n,
            obligations,
        }),
        None => judge_lines(book, n),
    }
}

// A book's record bytes: accepted, with the numbers of records and of obligation records, or the first refusal.
// Kept: the checks stand here and in `mending`, since must-fail edits of both (`refuses_all`, `spoilt_before_too_many`) name them.
#[tactic(auto, using(crate::proofs::Answers::some_ltb, crate::proofs::Answers::none_ltb), unfolding(crate::specs::Judge::judge_of))]
pub fn judge_book(book: &[u8]) -> Result<Accepted, Refusal>
    ensures { result ≡ judge_of book.now }
{
    if book.is_empty() {
        return Err(Refusal::NoRecord(Part::Book));
    }
    if book.len() % record::SIZE != 0 {
        return Err(Refusal::CutShort(Part::Book));
    }
    if record::MOST_RECORDS * record::SIZE < book.len() {
        return Err(Refusal::TooMany(Part::Book));
    }
    judge_records(book, book.len() / record::SIZE)
}

// A request's record bytes: accepted, with the number of entries, or the first refusal.
pub fn judge_request(request: &[u8]) -> Result<usize, Refusal>
    ensures { result ≡ judge_request_of request.now }
{
    if request.len() % record::SIZE != 0 {
        return Err(Refusal::CutShort(Part::Request));
    }
    if record::MOST_ENTRIES * record::SIZE < request.len() {
        return Err(Refusal::TooMany(Part::Request));
    }
    let n = request.len() / record::SIZE;
    let entry = fields::first_entry(request, n);
    if entry < n {
        return Err(Refusal::BadField(Part::Request, entry + 1));
    }
    Ok(n)
}

// The call of salvage for a C host.
#![tactic(auto)]

ghost use Rattle.std.specs.Prelude.{◌≡◌, length};
ghost use Rattle.mending.specs.Salvaged.{answer_of, mended_out, replaced_out};
ghost use Rattle.mending.specs.Caller.{Within};
ghost use Rattle.mender.specs.Mender.{salvaged_number};

use mending::Counts;
use record::Refusal;

// Where the fields of the number start: the records, and the replacements above them.
const RECORDS: u64 = 256;

const REPLACEMENTS: u64 = 16777216;

// The answer as one number. Kept: `as`, since a `u64` has no `From<usize>`.
fn number(answer: Result<Counts, Refusal>) -> u64
    requires { Within answer }
    ensures { result ≡ salvaged_number answer }
{
    match answer {
        Ok(mended) => RECORDS * mended.records as u64 + REPLACEMENTS * mended.replacements as u64,
        Err(refusal) => record::refusal_number(refusal),
    }
}

// Mends a half-copied book: its records into `mended`, and four bytes a replacement into `replaced`.
pub fn bachumoi_salvage(book: &[u8], mended: &mut [u8], replaced: &mut [u8]) -> u64
    ensures { (result ≡ salvaged_number (answer_of book.now (length mended.old) (length replaced.old)))
        × (mended.new ≡ mended_out book.now (answer_of book.now (length mended.old) (length replaced.old)) mended.old)
        × (replaced.new ≡ replaced_out book.now (answer_of book.now (length mended.old) (length replaced.old)) replaced.old) }
{
    number(mending::salvage(book, mended, replaced))
}

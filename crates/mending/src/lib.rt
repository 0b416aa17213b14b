// The mending of a half-copied book: each child of line 1 that has a bad line inside gives place to a policy that denies.
#![tactic(auto)]

ghost use Rattle.std.specs.Prelude.{◌≡◌, ◌++◌, ◌∷◌, [], ◌+◌, ◌*◌, ◌-◌, ◌/◌, ◌%◌, ◌<◌, ◌≤◌, length};
ghost use Rattle.record.specs.Bytes.{size, most_records};
ghost use Rattle.record.specs.Stored.{stored};
ghost use Rattle.structure.specs.Subtrees.{slice_of};
ghost use Rattle.spoilt.specs.Places.{parent, spoilt_at};
ghost use Rattle.mending.specs.Mending.{deny_policy, deny_rule, salvage_of};
ghost use Rattle.mending.specs.Places.{mended_from, replaced_from};
ghost use Rattle.mending.specs.Salvaged.{bytes_of_all, answer_by, answer_of, leaves, records_in, replaced_in, mended_out, replaced_out};

use record::siblings::Siblings;
use record::{Part, Refusal, SIZE};

// The bytes of a replacement: its first old line and its old count, two each.
pub const REPLACEMENT: usize = 4;

// Copies record i into `out` as record k.
fn copy_record(book: &[u8], i: usize, out: &mut [u8], k: usize)
    requires { ((i + 1) * size ≤ length book.now) × ((k + 1) * size ≤ length out.old) }
    ensures { out.new ≡ stored out.old (k * size) (slice_of book.now i 1) }
{
    let from = i * SIZE;
    let to = k * SIZE;
    out[to..to + SIZE].copy_from_slice(&book[from..from + SIZE]);
}

// Copies n records, from record i on, into `out`, from record k on.
// Kept: one by one, since a copy of no fixed length calls `memmove`, and no archive is to need a name from outside for it.
fn copy(book: &[u8], i: usize, n: usize, out: &mut [u8], k: usize)
    requires { ((i + n) * size ≤ length book.now) × ((k + n) * size ≤ length out.old) }
    ensures { out.new ≡ stored out.old (k * size) (slice_of book.now i n) }
{
    for j in 0..n {
        copy_record(book, i + j, out, k + j);
    }
}

// Stores a number as two bytes, from place `at` on.
fn put_pair(out: &mut [u8], at: usize, n: usize)
    requires { (at + 2 ≤ length out.old) × (n < 65536) }
    ensures { out.new ≡ stored out.old at (n / 256 ∷ n % 256 ∷ []) }
{
    out[at..at + 2].copy_from_slice(&(n as u16).to_be_bytes());
}

// Stores replacement m: its first old line and its old count.
fn put_replacement(replaced: &mut [u8], m: usize, line: usize, lines: usize)
    requires { ((m + 1) * 4 ≤ length replaced.old) × (line < 65536) × (lines < 65536) }
    ensures { replaced.new ≡ stored replaced.old (m * 4) (bytes_of_all (record { line = line; lines = lines } ∷ [])) }
{
    put_pair(replaced, m * REPLACEMENT, line);
    put_pair(replaced, m * REPLACEMENT + 2, lines);
}

// A deny-overrides policy of two records: itself and one Deny rule.
const DENIAL: [u8; 2 * SIZE] = [
    2, 1, 0, 2, 0, 0, 0, 0, 0, 0, 0, 0, 0, 0, 0, 0, 0, 0, 0, 0, //
    3, 2, 0, 1, 0, 0, 0, 0, 0, 0, 0, 0, 0, 0, 0, 0, 0, 0, 0, 0,
];

// Stores that policy, from record k on.
fn put_denial(out: &mut [u8], k: usize)
    requires { (k + 2) * size ≤ length out.old }
    ensures { out.new ≡ stored out.old (k * size) (deny_policy ++ deny_rule) }
{
    copy(&DENIAL, 0, 2, out, k);
}

// A book mended: so many records, line 1 counted, and so many replacements.
#[derive(Clone, Copy)]
pub struct Counts {
    pub records: usize,
    pub replacements: usize,
}

// Stores what is mended of n records below line 1, a set of this category, into `out`, after the place of line 1, and the replacements into `replaced`.
fn mend(book: &[u8], n: usize, category: usize, out: &mut [u8], replaced: &mut [u8]) -> Counts
    requires { (n * size ≤ length book.now) × (1 ≤ n) × (n ≤ most_records) × (n * size ≤ length out.old) × (n * 2 ≤ length replaced.old)
        × (n ≤ spoilt_at (parent 1 1 category category) 0 book.now 1 (n - 1)) }
    ensures { (out.new ≡ stored out.old size (mended_from book.now n category 1))
        × (result.records * size ≡ size + length (mended_from book.now n category 1))
        × (replaced.new ≡ stored replaced.old 0 (bytes_of_all (replaced_from book.now n category 1)))
        × (result.replacements ≡ length (replaced_from book.now n category 1))
        × (result.records ≤ n)
        × (result.replacements * 2 ≤ n) }
{
    let set = spoilt::root(category);
    let mut k: usize = 1;
    let mut m: usize = 0;
    for (i, lines) in Siblings::new(book, 1, n - 1) {
        let kind = fields::kind_at(book, i);
        let c = record::byte(book, i, 4);
        let bad = spoilt::first_bad(book, i + 1, i + lines, set.below(kind, c), 0);
        if bad.is_some() {
            put_denial(out, k);
            put_replacement(replaced, m, i + 1, lines);
            k += 2;
            m += 1;
            continue;
        }
        copy(book, i, lines, out, k);
        k += lines;
    }
    Counts {
        records: k,
        replacements: m,
    }
}

// Mends the n records of a book of the right size.
fn salvage_records(
    book: &[u8],
    n: usize,
    out: &mut [u8],
    replaced: &mut [u8],
) -> Result<Counts, Refusal>
    requires { (1 ≤ n) × (n ≤ most_records) × (length book.now ≡ n * size) }
    ensures { (result ≡ answer_by (salvage_of book.now n) n (length out.old) (length replaced.old))
        × (out.new ≡ leaves result (records_in (salvage_of book.now n)) out.old)
        × (replaced.new ≡ leaves result (replaced_in (salvage_of book.now n)) replaced.old) }
{
    if !spoilt::is_set(book, n) {
        return Err(Refusal::Spoilt(1));
    }
    let category = record::byte(book, 0, 4);
    if let Some(line) = spoilt::first_spoilt(book, n, category) {
        return Err(Refusal::Spoilt(line + 1));
    }
    if out.len() < book.len() {
        return Err(Refusal::NoRoom);
    }
    if replaced.len() < n * 2 {
        return Err(Refusal::NoRoom);
    }
    copy(book, 0, 1, out, 0);
    let done = mend(book, n, category, out, replaced);
    put_pair(out, 2, done.records);
    Ok(done)
}

// Mends a book's record bytes: the records go into `out`, with room for as many as the book has, and four bytes a replacement, its first old line and old count,
// into `replaced`, with room for two bytes a record.
// Kept: the checks stand here and in `judge`, since must-fail edits of both (`spoilt_before_too_many`, `refuses_all`) name them.
pub fn salvage(book: &[u8], out: &mut [u8], replaced: &mut [u8]) -> Result<Counts, Refusal>
    ensures { (result ≡ answer_of book.now (length out.old) (length replaced.old))
        × (out.new ≡ mended_out book.now result out.old)
        × (replaced.new ≡ replaced_out book.now result replaced.old) }
{
    if book.is_empty() {
        return Err(Refusal::NoRecord(Part::Book));
    }
    if book.len() % SIZE != 0 {
        return Err(Refusal::CutShort(Part::Book));
    }
    if record::MOST_RECORDS * SIZE < book.len() {
        return Err(Refusal::TooMany(Part::Book));
    }
    salvage_records(book, book.len() / SIZE, out, replaced)
}

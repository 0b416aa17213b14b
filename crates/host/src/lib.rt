// The call for a C host.
// Kept: `as` between usize and u64, since there is no `From` between them.
#![tactic(auto)]

ghost use Rattle.std.specs.Prelude.{◌≡◌, ◌++◌, ◌*◌, ◌-◌, ◌/◌, ◌≤◌, min, length, take, drop, replicate};
ghost use Rattle.record.specs.Bytes.{most_records};
ghost use Rattle.decider.specs.Outcome.{decided_with};
ghost use Rattle.host.specs.Host.{host_number, pairs_of, host_outcome, host_out};

use meaning::Verdict;

// No book has more obligation records than records.
const MOST: usize = record::MOST_RECORDS;

// Where the fields of a decision's number start, behind the decision.
const COUNT: u64 = 256;

const CODE: u64 = 1099511627776;

fn zeros() -> [u16; MOST]
    ensures { most_records ≡ length result }
{
    [0; MOST]
}

// Puts the first n places as byte pairs.
fn put_pairs(places: &[u16], n: usize, out: &mut [u8])
    requires { (n ≤ length places.now) × (n * 2 ≤ length out.old) }
    ensures { out.new ≡ pairs_of (take n places.now) ++ drop (n * 2) out.old }
{
    for k in 0..n {
        let [high, low] = places[k].to_be_bytes();
        out[k * 2] = high;
        out[k * 2 + 1] = low;
    }
}

// Puts zero into every byte from n on.
// Kept beside `lent::clear`, which is of places: this is of bytes.
fn clear(out: &mut [u8], n: usize)
    requires { n ≤ length out.old }
    ensures { out.new ≡ take n out.old ++ replicate (length out.old - n) 0 }
{
    out[n..].fill(0);
}

fn decided(v: Verdict, n: usize) -> u64
    requires { n ≤ most_records }
    ensures { result ≡ host_number (decided_with v n) }
{
    let number = u64::from(meaning::number(meaning::decision_in(v)));
    number + COUNT * n as u64 + CODE * u64::from(meaning::code(v))
}

// Decides in these places: one for each pair of bytes of out, or as many as any book needs.
fn decide_in(book: &[u8], request: &[u8], places: &mut [u16], out: &mut [u8]) -> u64
    requires { length places.old ≡ min (length out.old / 2) most_records }
    ensures { (result ≡ host_number (host_outcome book.now request.now out.old))
        × (out.new ≡ host_out book.now request.now out.old) }
{
    match decider::decide(book, request, places) {
        Err(r) => record::refusal_number(r),
        Ok(ruling) => {
            put_pairs(places, ruling.count, out);
            clear(out, ruling.count * 2);
            decided(ruling.verdict, ruling.count)
        }
    }
}

// Judges and decides: document 01's number, and the obligations in out.
pub fn bachumoi_decide(book: &[u8], request: &[u8], out: &mut [u8]) -> u64
    ensures { (result ≡ host_number (host_outcome book.now request.now out.old))
        × (out.new ≡ host_out book.now request.now out.old) }
{
    let mut places = zeros();
    let room = (out.len() / 2).min(MOST);
    decide_in(book, request, &mut places[..room], out)
}

// What the programs print: one line, in capital hexadecimal digits.
// Kept: no `Display` and a place beside the slice, since the contracts say each byte, stored at its place.
#![tactic(auto)]

ghost use Rattle.std.specs.Prelude.{◌≡◌, [], ◌∷◌, ◌++◌, ◌+◌, ◌*◌, ◌≤◌, length, take};
ghost use Rattle.record.specs.Stored.{stored};
ghost use Rattle.text.specs.Text.{lf};
ghost use Rattle.line.specs.Line.{hex_of, fours, told_line, refusal_line, decision_line, places_of, put};

use record::Refusal;

// The longest line: that of a decision with as many obligations as a book can have records.
pub const LONGEST: usize = 2 + 4 + 4 * record::MOST_RECORDS + 1;

fn two_digits(out: &mut [u8], at: usize, n: usize)
    requires { at + 2 ≤ length out.old }
    ensures { out.new ≡ stored out.old at (hex_of 2 n) }
{
    out[at] = text::letter(n / 16);
    out[at + 1] = text::letter(n);
}

// Stores a number as four digits, from place `at` on.
// Kept: no function of a count of digits, since four are two and two and a loop would only add lines.
pub fn four_digits(out: &mut [u8], at: usize, n: usize)
    requires { at + 4 ≤ length out.old }
    ensures { out.new ≡ stored out.old at (hex_of 4 n) }
{
    two_digits(out, at, n / 256);
    two_digits(out, at + 2, n);
}

// Puts the line of a number, a part and a line, whatever these are, first into `out`, and answers its length. Where it does not fit nothing is put, and
// the answer is 0.
// Kept: no `Option`, since 0 is what is put there (`places_of`, which the contracts of all three lines name).
pub fn told_line(number: u8, part: u8, line: usize, out: &mut [u8]) -> usize
    ensures { (result ≡ places_of (told_line number part line) (length out.old)) × (out.new ≡ put (told_line number part line) out.old) }
{
    if out.len() < 11 {
        return 0;
    }
    two_digits(out, 0, 255);
    two_digits(out, 2, usize::from(number));
    two_digits(out, 4, usize::from(part));
    four_digits(out, 6, line);
    out[10] = text::LF;
    11
}

// Puts the line of a refusal in the same way.
#[tactic(auto, unfolding(crate::specs::Line::refusal_line))]
pub fn refusal_line(refusal: Refusal, out: &mut [u8]) -> usize
    ensures { (result ≡ places_of (refusal_line refusal) (length out.old)) × (out.new ≡ put (refusal_line refusal) out.old) }
{
    told_line(
        refusal.number(),
        refusal.part().number(),
        refusal.line(),
        out,
    )
}

// The obligations, four digits each, and LF, from place 6 on.
fn put_obligations(obligations: &[u16], out: &mut [u8])
    requires { 7 + 4 * length obligations.now ≤ length out.old }
    ensures { out.new ≡ stored out.old 6 (fours obligations.now ++ (lf ∷ [])) }
{
    for (i, obligation) in obligations.iter().enumerate() {
        four_digits(out, 6 + 4 * i, usize::from(*obligation));
    }
    out[6 + 4 * obligations.len()] = text::LF;
}

fn put_decision(decision: u8, obligations: &[u16], out: &mut [u8]) -> usize
    ensures { (result ≡ places_of (decision_line decision obligations.now) (length out.old)) × (out.new ≡ put (decision_line decision obligations.now) out.old) }
{
    let count = obligations.len();
    if out.len() < 7 || (out.len() - 7) / 4 < count {
        return 0;
    }
    two_digits(out, 0, usize::from(decision));
    four_digits(out, 2, count);
    put_obligations(obligations, out);
    7 + 4 * count
}

// Puts the line of a decision with the first `count` obligations first into `out`, and answers its length. Where it does not fit nothing is put, and
// the answer is 0.
pub fn decision_line(decision: u8, obligations: &[u16], count: usize, out: &mut [u8]) -> usize
    ensures { (result ≡ places_of (decision_line decision (take count obligations.now)) (length out.old)) × (out.new ≡ put (decision_line decision (take count obligations.now)) out.old) }
{
    put_decision(decision, &obligations[..count.min(obligations.len())], out)
}

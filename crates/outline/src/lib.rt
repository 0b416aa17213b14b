// Lines for a person to read. Each function puts something after the first `at` bytes of a lent line, and answers how many bytes of it are then said; what
// finds no room is cut.
// Kept: a line and a place beside it, and no struct of both, since docs/CONTRACTS.md names these functions for any slice and any place; no heap.
#![tactic(auto)]

mod doubles;

ghost use Rattle.std.specs.Prelude.{◌≡◌, [], ◌∷◌, ◌%◌, replicate};
ghost use Rattle.io.specs.Digits.{hex_digit_ascii};
ghost use Rattle.outline.specs.Outline.{Says, decimal_of, integer_of, plain, escaped, name_of, sign_of, hexes_of, point_of, power_of, lead_of, hex_of, digits_too, double_of};

use doubles::{BIAS, FIRST_DIGIT, FRACTION_DIGITS, SIGN, exponent, fraction, whole, written};

// Nothing.
fn none(out: &[u8], at: usize) -> usize
    ensures { Says out.now at [] out.now result }
{
    at.min(out.len())
}

// One byte.
pub fn put(out: &mut [u8], at: usize, x: u8) -> usize
    ensures { Says out.old at (x ∷ []) out.new result }
{
    words(out, at, &[x])
}

// Some bytes as they are.
pub fn words(out: &mut [u8], at: usize, w: &[u8]) -> usize
    ensures { Says out.old at w.now out.new result }
{
    let from = at.min(out.len());
    let n = w.len().min(out.len() - from);
    out[from..from + n].copy_from_slice(&w[..n]);
    from + n
}

// A byte, so many times.
pub fn repeat(out: &mut [u8], at: usize, x: u8, times: usize) -> usize
    ensures { Says out.old at (replicate times x) out.new result }
{
    let from = at.min(out.len());
    let n = times.min(out.len() - from);
    out[from..from + n].fill(x);
    from + n
}

// A number in decimal.
pub fn decimal(out: &mut [u8], at: usize, n: u64) -> usize
    ensures { Says out.old at (decimal_of n) out.new result }
{
    let mut text = [0; 20];
    let k = io::decimal(n, &mut text);
    words(out, at, &text[..k])
}

// Eight bytes as an integer, two's complement.
pub fn integer(out: &mut [u8], at: usize, n: u64) -> usize
    ensures { Says out.old at (integer_of n) out.new result }
{
    if n < SIGN {
        return decimal(out, at, n);
    }
    let at = put(out, at, b'-');
    decimal(out, at, u64::MAX - n + 1)
}

// The last hexadecimal digit of a number.
// Kept beside `text::letter`: that one gives capitals, as a book is written, and this one small letters, as C's %a writes them.
fn letter(n: u64) -> u8
    ensures { result ≡ hex_digit_ascii (n % 16) }
{
    let d = (n % 16) as u8;
    if d < 10 { b'0' + d } else { b'a' - 10 + d }
}

// Whether a byte stands for itself in a name.
#[tactic(auto, unfolding(crate::specs::Outline::plain))]
fn is_plain(x: u8) -> bool
    ensures { result ≡ plain x }
{
    (32..=126).contains(&x) && x != b'"' && x != b'\\'
}

// A byte of a name.
fn escape(out: &mut [u8], at: usize, x: u8) -> usize
    ensures { Says out.old at (escaped x) out.new result }
{
    if is_plain(x) {
        return put(out, at, x);
    }
    let byte = u64::from(x);
    words(out, at, &[b'\\', b'x', letter(byte / 16), letter(byte)])
}

// The bytes of a name.
pub fn name(out: &mut [u8], at: usize, w: &[u8]) -> usize
    ensures { Says out.old at (name_of w.now) out.new result }
{
    let mut n = none(out, at);
    for x in w {
        n = escape(out, n, *x);
    }
    n
}

// The sign of a double, where there is one.
#[tactic(auto, unfolding(crate::specs::Outline::sign_of))]
fn sign(n: u64) -> &'static [u8]
    ensures { result.now ≡ sign_of n }
{
    if n < SIGN { b"" } else { b"-" }
}

// What stands before the point.
#[tactic(auto, unfolding(crate::specs::Outline::lead_of))]
fn lead(e: u64) -> &'static [u8]
    ensures { result.now ≡ lead_of e }
{
    if e == 0 { b"0x0" } else { b"0x1" }
}

// A fraction of 52 bits, in at most `left` hexadecimal digits, without the zeros at its end.
fn hexes(out: &mut [u8], at: usize, f: u64, left: usize) -> usize
    ensures { Says out.old at (hexes_of left f) out.new result }
{
    if left == 0 || f == 0 {
        return none(out, at);
    }
    let at = put(out, at, letter(f / FIRST_DIGIT));
    hexes(out, at, f % FIRST_DIGIT * 16, left - 1)
}

// The part after the point, where there is one.
fn point(out: &mut [u8], at: usize, f: u64) -> usize
    ensures { Says out.old at (point_of f) out.new result }
{
    if f == 0 {
        return none(out, at);
    }
    let at = put(out, at, b'.');
    hexes(out, at, f, FRACTION_DIGITS)
}

// The power of two, with its sign.
fn power(out: &mut [u8], at: usize, e: u64) -> usize
    ensures { Says out.old at (power_of e) out.new result }
{
    if e < BIAS {
        let at = words(out, at, b"p-");
        return decimal(out, at, BIAS - e);
    }
    let at = words(out, at, b"p+");
    decimal(out, at, e - BIAS)
}

// A double as C's %a writes it.
pub fn hex(out: &mut [u8], at: usize, n: u64) -> usize
    ensures { Says out.old at (hex_of n) out.new result }
{
    let e = exponent(n);
    let f = fraction(n);
    let at = words(out, at, sign(n));
    let at = words(out, at, lead(e));
    let at = point(out, at, f);
    power(out, at, written(e, f))
}

// The plain digits of a double that has them, in brackets.
fn digits_too(out: &mut [u8], at: usize, n: u64) -> usize
    ensures { Says out.old at (digits_too n) out.new result }
{
    let Some(size) = whole(n) else {
        return none(out, at);
    };
    let at = words(out, at, b" (");
    let at = words(out, at, sign(n));
    let at = decimal(out, at, size);
    put(out, at, b')')
}

// A double: exactly, and in plain digits too where it is a whole number below 2^53.
pub fn double(out: &mut [u8], at: usize, n: u64) -> usize
    ensures { Says out.old at (double_of n) out.new result }
{
    let at = hex(out, at, n);
    digits_too(out, at, n)
}

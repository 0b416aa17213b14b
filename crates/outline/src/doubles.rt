// Doubles by their eight bytes.
ghost use Rattle.std.specs.Prelude.{◌≡◌, ◌<◌, ltb};
ghost use Rattle.std.specs.Bool.{then_some};
ghost use Rattle.outline.specs.Outline.{exponent_of, fraction_of, written_of, halved_of, whole_of, is_whole};

// The sign's bit, and one more than the fraction's bits hold.
pub const SIGN: u64 = 1 << 63;

const FRACTION: u64 = 1 << 52;

// One more than what the fraction's last 48 bits hold: what is above is its first hexadecimal digit, of 13.
pub const FIRST_DIGIT: u64 = 1 << 48;

pub const FRACTION_DIGITS: usize = 13;

// The exponents, and that of 1.
const EXPONENTS: u64 = 2048;

pub const BIAS: u64 = 1023;

// The exponent of 2^52, whose fraction's last bit counts 1.
const UNITS: u64 = BIAS + 52;

pub fn exponent(n: u64) -> u64
    ensures { result ≡ exponent_of n }
{
    n / FRACTION % EXPONENTS
}

pub fn fraction(n: u64) -> u64
    ensures { result ≡ fraction_of n }
{
    n % FRACTION
}

// The exponent that is written.
#[tactic(auto, unfolding(crate::specs::Outline::written_of))]
pub fn written(e: u64, f: u64) -> u64
    ensures { result ≡ written_of e f }
{
    match (e, f) {
        (0, 0) => BIAS,
        (0, _) => 1,
        _ => e,
    }
}

// A number halved so many times, where each half is whole.
fn halved(k: u64, m: u64) -> Option<u64>
    requires { 0 < m }
    ensures { result ≡ then_some (ltb 0 (halved_of k m)) (halved_of k m) }
{
    if k == 0 {
        return Some(m);
    }
    if m % 2 != 0 {
        return None;
    }
    halved(k - 1, m / 2)
}

// The size of a double that is a whole number below 2^53.
pub fn whole(n: u64) -> Option<u64>
    ensures { result ≡ then_some (is_whole n) (whole_of n) }
{
    if n % SIGN == 0 {
        return Some(0);
    }
    let e = exponent(n);
    if !(BIAS..=UNITS).contains(&e) {
        return None;
    }
    halved(UNITS - e, FRACTION + fraction(n))
}

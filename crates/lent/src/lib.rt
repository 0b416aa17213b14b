// Places that a caller lends for obligations, copied and cleared. Deciding alone calls this crate, to clear.
// Kept: docs/CONTRACTS.md names `copy` and `clear`.
#![tactic(auto)]

ghost use Rattle.std.specs.Prelude.{◌≡◌, ◌++◌, ◌-◌, ◌≤◌, length, take, drop, replicate};

// Copies the first n places of one row to the first of another.
pub fn copy(from: &[u16], n: usize, to: &mut [u16])
    requires { (n ≤ length from.now) × (n ≤ length to.old) }
    ensures { to.new ≡ take n from.now ++ drop n to.old }
{
    to[..n].copy_from_slice(&from[..n]);
}

// Puts zero into every place from n on.
pub fn clear(out: &mut [u16], n: usize)
    requires { n ≤ length out.old }
    ensures { out.new ≡ take n out.old ++ replicate (length out.old - n) 0 }
{
    out[n..].fill(0);
}

// Obligations in lent places, as a stack.
// Kept: `out` and heights apart: `settle` moves within one lent row, and contracts say `Stacked` by its heights.
ghost use Rattle.std.specs.Prelude.{[], ◌≤◌, length};
ghost use Rattle.record.specs.Choose.{if};
ghost use Rattle.decider.specs.Places.{Stacked, between};

// Moves the places from m to below e down to `at`.
fn shift(out: &mut [u16], at: usize, m: usize, e: usize) -> usize
    requires { (at ≤ m) × (m ≤ e) × (e ≤ length out.old) }
    ensures { Stacked out.old at (between m e out.old) out.new result }
{
    out.copy_within(m..e, at);
    at + (e - m)
}

// What stays of the places from base to m (if `old`) and from m to e (if `new`), on top of base.
pub fn settle(out: &mut [u16], base: usize, m: usize, e: usize, old: bool, new: bool) -> usize
    requires { (base ≤ m) × (m ≤ e) × (e ≤ length out.old) }
    ensures { Stacked out.old (if old m base) (if new (between m e out.old) []) out.new result }
{
    match (old, new) {
        (false, false) => base,
        (true, false) => m,
        (false, true) => shift(out, base, m, e),
        (true, true) => e,
    }
}

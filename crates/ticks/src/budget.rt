// A word as a budget: how many steps a tick may take.
ghost use Rattle.std.specs.Prelude.{◌≡◌};
ghost use Rattle.ticks.specs.Budget.{budget_of};

// The number that decimal digits say. Any other word, an empty one, and a number above the largest of 64 bits are no budget.
pub fn budget_in(word: &[u8]) -> Option<u64>
    ensures { result ≡ budget_of word.now }
{
    if word.is_empty() {
        return None;
    }
    let mut n: u64 = 0;
    for c in word {
        if !c.is_ascii_digit() {
            return None;
        }
        n = n.checked_mul(10)?.checked_add(u64::from(*c - b'0'))?;
    }
    Some(n)
}

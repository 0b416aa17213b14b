// The code of targets: sections of conjunctions of matches. What c, l, n and x are is said in `code/specs/Code.antt`.
ghost use Rattle.std.specs.Prelude.{◌≡◌, [], ◌∷◌, ◌+◌, ◌*◌, ◌-◌, ◌<◌, ◌≤◌, length};
ghost use Rattle.meaning.specs.Numbers.{bare_of};
ghost use Rattle.meaning.specs.Reading.{match_at};
ghost use Rattle.layout.specs.Entry.{match, further};
ghost use Rattle.layout.specs.Layout.{bit_of, test_word};
ghost use Rattle.emission.specs.Emit.{Emitted, matches_code, conjunction_code, conjunctions_code, section_code, target_code, at_node, in_node, in_rest};

use crate::{ISSUER, TEST_WORDS, prepend, test_word};
use elders::{Node, Rest};
use layout::{AHEAD, Coded, kind};
use meaning::Test;
use record::kind::SECTION;

// The first number of a match.
fn match_word(t: Test, m: bool, c: bool, l: bool, n: usize) -> u64
    requires { n < 32768 }
    ensures { result ≡ 1 + 16 * (test_word t + 16 * (bit_of m + 2 * (bit_of c + 2 * (bit_of l + 2 * (bare_of t.key + 4294967296 * n))))) }
{
    let key = t.key % ISSUER + ISSUER * n as u64;
    let lasts = m.code() + bool::SIZE * (c.code() + bool::SIZE * (l.code() + bool::SIZE * key));
    kind::MATCH + kind::KINDS * (test_word(t) + TEST_WORDS * lasts)
}

// The match at a node: is it the last of its conjunction, is that the last of its section, is that the last of its target; how far behind
// it the next conjunction, the next section and the way out of the target lie.
fn match_entry(
    node: Node,
    m: bool,
    c: bool,
    l: bool,
    next: usize,
    n: usize,
    x: usize,
    out: &mut [u64],
    end: usize,
) -> usize
    requires { (3 ≤ end) × (next < 32768) × (n < 32768) × (x < 32768) }
    ensures { Emitted (match (match_at node.entry.book.now node.entry.at) m c l next n x ∷ further ∷ further ∷ []) end out.old out.new result }
{
    let t = rules::match_at(node.book, node.at);
    let issuer = t.key / ISSUER;
    let third = prepend(out, end, n as u64 + AHEAD * (x as u64 + AHEAD * issuer));
    let literal = prepend(out, third, t.literal);
    prepend(out, literal, match_word(t, m, c, l, next))
}

// The matches below a node.
fn matches(node: Node, c: bool, l: bool, n: usize, x: usize, out: &mut [u64], end: usize) -> usize
    requires { (length (in_node matches_code node c l n x) ≤ end) × (end + n ≤ 16384) × (end + x ≤ 16384) }
    ensures { Emitted (in_node matches_code node.entry c l n x) end out.old out.new result }
{
    let mut row = node.children();
    let mut start = end;
    while let Some(child) = row.take_last() {
        let last = child.stop == node.stop;
        let behind = end - start;
        start = match_entry(
            child,
            last,
            c,
            l,
            behind,
            behind + n,
            behind + x,
            out,
            start,
        );
    }
    start
}

// The conjunction at a node. Without a match it stands for its own.
fn conjunction(
    node: Node,
    c: bool,
    l: bool,
    n: usize,
    x: usize,
    out: &mut [u64],
    end: usize,
) -> usize
    requires { (length (at_node conjunction_code node c l n x) ≤ end) × (end + n ≤ 16384) × (end + x ≤ 16384) }
    ensures { Emitted (at_node conjunction_code node.entry c l n x) end out.old out.new result }
{
    if node.at + 1 == node.stop {
        return match_entry(node, true, c, l, 0, n, x, out, end);
    }
    matches(node, c, l, n, x, out, end)
}

// The conjunctions below a node.
fn conjunctions(node: Node, l: bool, x: usize, out: &mut [u64], end: usize) -> usize
    requires { (length (in_node conjunctions_code node l x) ≤ end) × (end + x ≤ 16384) }
    ensures { Emitted (in_node conjunctions_code node.entry l x) end out.old out.new result }
{
    let mut row = node.children();
    let mut start = end;
    while let Some(child) = row.take_last() {
        let last = child.stop == node.stop;
        let behind = end - start;
        start = conjunction(child, last, l, behind, behind + x, out, start);
    }
    start
}

// The section at a node. Without a conjunction it stands for its own.
fn section(node: Node, l: bool, x: usize, out: &mut [u64], end: usize) -> usize
    requires { (length (at_node section_code node l x) ≤ end) × (end + x ≤ 16384) }
    ensures { Emitted (at_node section_code node.entry l x) end out.old out.new result }
{
    if node.at + 1 == node.stop {
        return match_entry(node, true, true, l, 0, 0, x, out, end);
    }
    conjunctions(node, l, x, out, end)
}

// The target that siblings begin with. The last section is the one with no code behind it; no accepted book has more than four in a row.
pub fn target(row: Rest, x: usize, out: &mut [u64], end: usize) -> usize
    requires { (length (in_rest target_code row x) ≤ end) × (end + x ≤ 16384) }
    ensures { Emitted (in_rest target_code row.entry x) end out.old out.new result }
{
    let mut others = row;
    let Some(first) = others.take_first() else {
        return end;
    };
    if first.kind() != SECTION {
        return end;
    }
    let mid = target(others, x, out, end);
    section(first, mid == end, end - mid + x, out, mid)
}

// The code of conditions: comparisons, what joins them, and the one that a rule has.
ghost use Rattle.std.specs.Prelude.{◌≡◌, [], ◌∷◌, ◌+◌, ◌*◌, ◌-◌, ◌<◌, ◌≤◌, length};
ghost use Rattle.meaning.specs.Numbers.{bare_of};
ghost use Rattle.meaning.specs.Reading.{choice_at, comparison_at};
ghost use Rattle.layout.specs.Entry.{further, compare};
ghost use Rattle.layout.specs.Layout.{test_word};
ghost use Rattle.emission.specs.Emit.{Emitted, condition_code, conditions_code, when_code, at_node, in_node, in_rest};

use crate::values::{operands, piece};
use crate::{ISSUER, TEST_WORDS, prepend, single, test_word};
use elders::{Node, Rest};
use layout::{Coded, kind};
use meaning::Test;
use record::choice::{NOT, WEIGHS};
use record::kind::CONDITION;
use value::Function;

// The first number of a comparison.
fn compare_word(t: Test, n: usize) -> u64
    requires { n < 32768 }
    ensures { result ≡ 13 + 16 * (test_word t + 16 * (bare_of t.key + 4294967296 * n)) }
{
    let key = t.key % ISSUER + ISSUER * n as u64;
    kind::COMPARE + kind::KINDS * (test_word(t) + TEST_WORDS * key)
}

// The comparison at a node.
fn comparison(node: Node, n: usize, out: &mut [u64], end: usize) -> usize
    requires { (3 ≤ end) × (n < 32768) }
    ensures { Emitted (compare (comparison_at node.entry.book.now node.entry.at) n ∷ further ∷ further ∷ []) end out.old out.new result }
{
    let t = rules::comparison_at(node.book, node.at);
    let issuer = prepend(out, end, t.key / ISSUER);
    let literal = prepend(out, issuer, t.literal);
    prepend(out, literal, compare_word(t, n))
}

// The comparison at a node: by a choice above 20 of its two operands; without two it counts as one of a literal with an attribute.
fn weighing(node: Node, n: usize, out: &mut [u64], end: usize) -> usize
    requires { (3 < choice_at node.book.now node.at) × (length (at_node condition_code node n) ≤ end) × (n < 32768) }
    ensures { Emitted (at_node condition_code node.entry n) end out.old out.new result }
{
    let choice = node.choice();
    if choice <= WEIGHS {
        return comparison(node, n, out, end);
    }
    let second = weigh::second_in(node.book, node.at, node.stop);
    if second == node.stop {
        return comparison(node, n, out, end);
    }
    let f = value::function_of(choice - WEIGHS);
    let kind = weigh::type_at(node.book, node.at + 1);
    let foot = single(out, end, kind::CLOSE, n);
    let test = piece(
        out,
        foot,
        kind::TESTS,
        f.code() + Function::SIZE * kind as u64,
    );
    operands(node.book, node.at, second, node.stop, out, test)
}

// The condition at a node: choices 1 to 3 have parts, of which not takes the first; a not without parts counts as a comparison.
#[cycle(condition_conditions)]
fn condition(node: Node, n: usize, out: &mut [u64], end: usize) -> usize
    requires { (length (at_node condition_code node n) ≤ end) × (end + n ≤ 16384) }
    ensures { Emitted (at_node condition_code node.entry n) end out.old out.new result }
{
    let choice = node.choice();
    if choice == 0 {
        return comparison(node, n, out, end);
    }
    if NOT < choice {
        return weighing(node, n, out, end);
    }
    if choice == NOT {
        let Some(part) = node.rest().take_first() else {
            return comparison(node, n, out, end);
        };
        let foot = single(out, end, kind::CLOSE, n);
        let head = condition(part, 0, out, foot);
        return single(out, head, kind::OPENS, 2);
    }
    let foot = single(out, end, kind::CLOSE, n);
    let head = conditions(node, out, foot);
    single(out, head, kind::OPENS, choice - 1)
}

// The conditions below a node.
#[cycle(condition_conditions)]
fn conditions(node: Node, out: &mut [u64], end: usize) -> usize
    requires { (length (in_node conditions_code node) ≤ end) × (end ≤ 16384) }
    ensures { Emitted (in_node conditions_code node.entry) end out.old out.new result }
{
    let mut row = node.children();
    let mut start = end;
    while let Some(child) = row.take_last() {
        let behind = end - start;
        start = condition(child, behind, out, start);
    }
    start
}

// The condition among siblings, those below a rule.
pub fn when(row: Rest, out: &mut [u64], end: usize) -> usize
    requires { (length (in_rest when_code row) ≤ end) × (end ≤ 16384) }
    ensures { Emitted (in_rest when_code row.entry) end out.old out.new result }
{
    let mut left = row;
    while let Some(child) = left.take_first() {
        if child.kind() == CONDITION {
            return condition(child, 0, out, end);
        }
    }
    end
}

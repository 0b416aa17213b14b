// The code of rules, of obligations, and of the policies and sets that hold them.
// Kept: `out` and `end` apart, as in `emission`.
ghost use Rattle.std.specs.Prelude.{◌≡◌, suc, ◌+◌, ◌*◌, ◌-◌, ◌<◌, ◌≤◌, length};
ghost use Rattle.record.specs.Bytes.{size};
ghost use Rattle.meaning.specs.Meaning.{is_only, over_policies};
ghost use Rattle.meaning.specs.Reading.{policies_by};
ghost use Rattle.code.specs.Code.{code_applies};
ghost use Rattle.emission.specs.Emit.{Emitted, algorithm_at, at_node, in_node};
ghost use Rattle.emission.specs.Emit.{rule_code, rules_code, obligations_code, tree_code, trees_code, body_code, within_code};

use elders::Node;
use emission::conditions::when;
use emission::targets::target;
use emission::{effect_code, single};
use layout::{Coded, kind};
use meaning::Algorithm;
use record::kind::{OBLIGATION, RULE, SET};

// The rule at a node.
fn rule(node: Node, n: usize, out: &mut [u64], end: usize) -> usize
    requires { (length (at_node rule_code node n) ≤ end) × (end + n ≤ 16384) }
    ensures { Emitted (at_node rule_code node.entry n) end out.old out.new result }
{
    let effect = effect_code(node.choice());
    let foot = single(out, end, kind::RULE, effect + 2 * n);
    let children = node.rest();
    let mid = when(children, out, foot);
    target(children, foot - mid, out, mid)
}

// The rules among the children of a policy.
fn rules_in(node: Node, out: &mut [u64], end: usize) -> usize
    requires { (length (in_node rules_code node) ≤ end) × (end ≤ 16384) }
    ensures { Emitted (in_node rules_code node.entry) end out.old out.new result }
{
    let mut row = node.children();
    let mut start = end;
    while let Some(child) = row.take_last() {
        if child.kind() == RULE {
            let behind = end - start;
            start = rule(child, behind, out, start);
        }
    }
    start
}

// The obligations among the children of a policy or set.
fn obligations(node: Node, out: &mut [u64], end: usize) -> usize
    requires { length (in_node obligations_code node) ≤ end }
    ensures { Emitted (in_node obligations_code node.entry) end out.old out.new result }
{
    let mut row = node.children();
    let mut start = end;
    while let Some(child) = row.take_last() {
        if child.kind() == OBLIGATION {
            let effect = effect_code(child.choice());
            let n = record::big2(child.book, child.at * record::SIZE + 6);
            start = single(out, start, kind::OBLIGE, effect + 2 * usize::from(n));
        }
    }
    start
}

// How far it is from `start` to behind the entry that stands at `end`, and n more.
fn beyond(start: usize, end: usize, n: usize) -> usize
    requires { (start ≤ end) × (end + n ≤ 16384) }
    ensures { result ≡ end - start + suc n }
{
    end - start + 1 + n
}

// Below an only-one set a child says that it applies.
fn applies(up: usize, n: usize, out: &mut [u64], end: usize) -> usize
    requires { (length (code_applies (is_only (over_policies (policies_by up))) n) ≤ end) × (n ≤ 16384) }
    ensures { Emitted (code_applies (is_only (over_policies (policies_by up))) n) end out.old out.new result }
{
    if meaning::is_only(meaning::over_policies(up)) {
        single(out, end, kind::APPLIES, n)
    } else {
        end
    }
}

// Children, conclusion and own obligations of the policy or set at a node.
#[cycle(body_tree_trees_within)]
fn body(node: Node, out: &mut [u64], end: usize) -> usize
    requires { (length (at_node body_code node) ≤ end) × (end ≤ 16384) }
    ensures { Emitted (at_node body_code node.entry) end out.old out.new result }
{
    let own = obligations(node, out, end);
    let mid = single(out, own, kind::CONCLUDE, end - own);
    if node.kind() == SET {
        return trees(node, node.choice(), out, mid);
    }
    rules_in(node, out, mid)
}

// The algorithm of the policy or set at record i.
pub fn algorithm_at(book: &[u8], i: usize) -> Algorithm
    requires { (i + 1) * size ≤ length book.now }
    ensures { result ≡ algorithm_at book.now i }
{
    let choice = record::byte(book, i, 1);
    if record::byte(book, i, 0) == SET {
        meaning::over_policies(choice)
    } else {
        meaning::over_rules(choice)
    }
}

// What stands between entering and leaving the policy or set at a node, in a set whose choice is `up`.
#[cycle(body_tree_trees_within)]
pub fn within(node: Node, up: usize, n: usize, out: &mut [u64], end: usize) -> usize
    requires { (length (at_node within_code node up n) ≤ end) × (end + n < 16384) }
    ensures { Emitted (at_node within_code node.entry up n) end out.old out.new result }
{
    let low = body(node, out, end);
    let away = beyond(low, end, n);
    let mid = applies(up, away, out, low);
    target(node.rest(), end - mid, out, mid)
}

// The policy or set at a node, in a set whose choice is `up`.
#[cycle(body_tree_trees_within)]
fn tree(node: Node, up: usize, n: usize, out: &mut [u64], end: usize) -> usize
    requires { (length (at_node tree_code node up n) ≤ end) × (end + n ≤ 16384) }
    ensures { Emitted (at_node tree_code node.entry up n) end out.old out.new result }
{
    let foot = single(out, end, kind::LEAVE, n);
    let head = within(node, up, n, out, foot);
    let algorithm = algorithm_at(node.book, node.at).code();
    single(out, head, kind::ENTER, algorithm as usize)
}

// The policies and sets among the children of a set; its choice is `up`.
#[cycle(body_tree_trees_within)]
fn trees(node: Node, up: usize, out: &mut [u64], end: usize) -> usize
    requires { (length (in_node trees_code node up) ≤ end) × (end ≤ 16384) }
    ensures { Emitted (in_node trees_code node.entry up) end out.old out.new result }
{
    let mut row = node.children();
    let mut start = end;
    while let Some(child) = row.take_last() {
        if meaning::is_party(child.book, child.at) {
            let behind = end - start;
            start = tree(child, up, behind, out, start);
        }
    }
    start
}

// The obligations that can be due at once, and the ends of a programme, which bring those on Deny down.
ghost use Rattle.std.specs.Prelude.{◌≡◌, suc, ◌*◌, ◌-◌, ◌/◌, ◌≤◌, length, replicate};
ghost use Rattle.record.specs.Bytes.{size};
ghost use Rattle.meaning.specs.Reading.{effect_of};
ghost use Rattle.layout.specs.Entry.{finish};
ghost use Rattle.emission.specs.Emit.{Emitted, due_in};

use crate::{effect_code, single};
use layout::kind;
use record::kind::{OBLIGATION, SET};
use record::siblings::Siblings;

// How many obligations on effect e are due in the records from i to `stop`: those of these children, and, in a set, of the policies and sets among them.
// Kept: the effect comes as a choice, since docs/CONTRACTS.md names this function, and it takes any.
pub fn due(book: &[u8], i: usize, stop: usize, e: usize, set: bool) -> usize
    requires { (i ≤ stop) × (stop * size ≤ length book.now) }
    ensures { (result ≡ due_in book.now i (stop - i) (effect_of e) set) × (result ≤ stop - i) }
{
    let mut n = 0;
    for (at, s) in Siblings::new(book, i, stop - i) {
        let kind = record::byte(book, at, 0);
        if kind == OBLIGATION {
            n += usize::from(effect_code(record::byte(book, at, 1)) == effect_code(e));
        } else if set && meaning::is_party(book, at) {
            n += due(book, at + 1, at + s, e, kind == SET);
        }
    }
    n
}

// The ends for so many obligations on Deny: each brings two of them down, and there is one where there are none.
pub fn ends(out: &mut [u64], end: usize, left: usize) -> usize
    requires { length (replicate (suc ((left - 1) / 2)) finish) ≤ end }
    ensures { Emitted (replicate (suc ((left - 1) / 2)) finish) end out.old out.new result }
{
    let mut start = end;
    for _ in 0..left.max(1).div_ceil(2) {
        start = single(out, start, kind::FINISH, 0);
    }
    start
}

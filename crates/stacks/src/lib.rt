// How a step is carried out, on the stacks and on the row of obligation places.
// Kept: `as` between usize and u64, since there is no `From` between them.
#![tactic(auto)]

ghost use Rattle.std.specs.Prelude.{◌≡◌, ◌+◌, ◌<◌, ◌≤◌, length};
ghost use Rattle.stacks.specs.Machine.{height_after, stack_after, cut_after, permits_after, denies_after, places_after};
ghost use Rattle.layout.specs.Ranges.{Ranged};
ghost use Rattle.stacks.specs.Carry.{Placed, head_with, changing_of};
ghost use Rattle.layout.specs.Room.{room_p, room_f, room_l};

use layout::{FRAMES, Head, LEVELS, PLACES};
use moves::{Change, Move, Placing};

// Writes at most one number of a stack; returns the place of its top.
// Kept: a slice and its top apart, since the height is a field of the first number.
fn alter(stack: &mut [u64], top: usize, c: Change) -> usize
    requires { top < length stack.old }
    ensures { (result ≡ height_after (length stack.old) (changing_of c) top)
        × (stack.new ≡ stack_after (length stack.old) (changing_of c) top stack.old) }
{
    match c {
        Change::Keep => top,
        Change::Push(x) => {
            let next = top + 1;
            if stack.len() <= next {
                return top;
            }
            stack[next] = x;
            next
        }
        Change::Swap(x) => {
            stack[top] = x;
            top
        }
        Change::Under(x) => {
            stack[top.saturating_sub(1)] = x;
            top
        }
        Change::Back(x) => {
            let below = top.saturating_sub(1);
            stack[below] = x;
            below
        }
    }
}

// How many obligations stand on each stack, and where Deny's begins.
// Kept: apart in `Head`, whose definitions name the three fields.
#[derive(Clone, Copy)]
pub struct Heights {
    pub permits: u64,
    pub denies: u64,
    pub cut: u64,
}

// Writes the obligation places that a step writes; returns the heights and the cut after it.
fn place(places: &mut [u16], z: Placing, s: Heights) -> Heights
    requires { (length places.old ≡ room_p) × (s.permits ≤ room_p) × (s.cut + s.denies ≤ room_p) × Placed z s.permits s.denies }
    ensures { (result ≡ record { permits = permits_after z s.cut s.permits; denies = denies_after z s.cut room_p s.denies; cut = cut_after z s.cut })
        × (places.new ≡ places_after z s.cut s.permits s.denies places.old) }
{
    let Heights {
        permits,
        denies,
        cut,
    } = s;
    match z {
        Placing::Rest => s,
        Placing::AddPermit(n) => {
            if cut <= permits {
                return s;
            }
            let at = permits as usize;
            places[at] = n as u16;
            Heights {
                permits: permits + 1,
                ..s
            }
        }
        Placing::AddDeny(n) => {
            let at = (cut + denies) as usize;
            if places.len() <= at {
                return s;
            }
            places[at] = n as u16;
            Heights {
                denies: denies + 1,
                ..s
            }
        }
        Placing::FallPermit(p) => Heights {
            permits: p.min(permits),
            ..s
        },
        Placing::FallDeny(d) => Heights {
            denies: d.min(denies),
            ..s
        },
        Placing::FallBoth(p, d) => Heights {
            permits: p.min(permits),
            denies: d.min(denies),
            cut,
        },
        Placing::Cut(n) => Heights {
            permits: 0,
            denies: 0,
            cut: n,
        },
        Placing::Down(n) => {
            let to = permits as usize;
            let from = cut as usize + to;
            places.copy_within(from..from + n as usize, to);
            Heights {
                permits: permits + n,
                ..s
            }
        }
    }
}

// Carries a move out; returns the first number after it, taken apart.
pub fn carry_out(
    h: Head,
    m: Move,
    further: u64,
    frames: &mut [u64; FRAMES],
    levels: &mut [u64; LEVELS],
    places: &mut [u16; PLACES],
) -> Head
    requires { Ranged h × Ranged (head_with h further m) × Placed m.placing h.permits h.denies }
    ensures { (result ≡ head_with h further m)
        × (frames.new ≡ stack_after room_f (changing_of m.frames) h.depth frames.old)
        × (levels.new ≡ stack_after room_l (changing_of m.levels) h.nest levels.old)
        × (places.new ≡ places_after m.placing h.cut h.permits h.denies places.old) }
{
    let depth = alter(frames, h.depth as usize, m.frames);
    let nest = alter(levels, h.nest as usize, m.levels);
    let stood = Heights {
        permits: h.permits,
        denies: h.denies,
        cut: h.cut,
    };
    let s = place(places, m.placing, stood);
    Head {
        at: h.at + 1 + further + m.next.jump,
        depth: depth as u64,
        nest: nest as u64,
        permits: s.permits,
        denies: s.denies,
        cut: s.cut,
        found: m.next.found,
        over: m.over,
    }
}

// A step of the programme.
// Kept: `as` between usize and u64, since there is no `From` between them.
#![tactic(auto)]

mod entries;

ghost use Rattle.std.specs.Prelude.{◌≡◌, ◌≤◌, length};
ghost use Rattle.meaning.specs.Reading.{bags_of};
ghost use Rattle.layout.specs.Layout.{pack_of};
ghost use Rattle.layout.specs.Ranges.{Ranged};
ghost use Rattle.programme.specs.Step.{may_step, stepped_of, state_of, head_or};
ghost use Rattle.std.specs.Option.{is_some};

use layout::{FRAMES, Head, LEVELS, PLACES};
use moves::Move;

// What an entry in its layout is found to do, and how many further entries it has.
#[derive(Clone, Copy)]
pub struct Met {
    pub does: Move,
    pub further: u64,
}

// One step, with the first number taken apart and the arrays of the state lent: the first number after it, taken apart. Where it meets entries
// outside their layout, there is none, and the state stays as it is.
pub fn step_in(
    programme: &[u64],
    request: &[u8],
    h: Head,
    frames: &mut [u64; FRAMES],
    levels: &mut [u64; LEVELS],
    places: &mut [u16; PLACES],
) -> Option<Head>
    requires { (length programme.now ≤ 8008) × Ranged h }
    ensures { (is_some result ≡ may_step programme.now (state_of (pack_of h) frames.old levels.old places.old))
        × (state_of (pack_of (head_or h result)) frames.new levels.new places.new
        ≡ (stepped_of programme.now (bags_of request.now)
        (state_of (pack_of h) frames.old levels.old places.old)).state)
        × Ranged (head_or h result) }
{
    let depth = h.depth as usize;
    let nest = h.nest as usize;
    let frame = frames[depth];
    let under = frames[depth.saturating_sub(1)];
    let level = levels[nest];
    let outer = levels[nest.saturating_sub(1)];
    let met = entries::meet(programme, request, h, level, outer, frame, under)?;
    Some(stacks::carry_out(h, met.does, met.further, frames, levels, places))
}

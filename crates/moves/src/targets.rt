// What a match does to its conjunction, its section and its target.
ghost use Rattle.std.specs.Prelude.{◌≡◌};
ghost use Rattle.moves.specs.Core.{target_done, section_done, conjunction_done, match_done};

use crate::{Next, cleared};
use layout::Found;
use meaning::{Truth, Verdict};

// How a match stands in its target: whether it is the last of its conjunction, that the last of its section, that the last of the target; and
// the ways to the next conjunction, to the next section, and out of the target.
#[derive(Clone, Copy)]
pub struct Stands {
    pub ends_conjunction: bool,
    pub ends_section: bool,
    pub ends_target: bool,
    pub conjunction: u64,
    pub section: u64,
    pub out: u64,
}

fn target_done(t: Truth, s: Stands, d: Verdict) -> Next
    ensures { result ≡ target_done t s.section s.out d }
{
    match t {
        Truth::True => cleared(s.section, d),
        Truth::False => cleared(s.out, Verdict::NotApplicable),
        Truth::Unknown(why) => cleared(s.out, Verdict::Indeterminate(why)),
    }
}

fn section_held(s: Stands, t: Truth, d: Verdict) -> Next
    ensures { result ≡ section_done (Truth.True) s.ends_target s.section s.out t d }
{
    if s.ends_target {
        return target_done(t, s, d);
    }
    Next {
        jump: s.section,
        found: Found {
            reg: d,
            ands: Truth::True,
            ors: Truth::False,
            sections: t,
        },
    }
}

fn section_done(v: Truth, s: Stands, t: Truth, d: Verdict) -> Next
    ensures { result ≡ section_done v s.ends_target s.section s.out t d }
{
    match v {
        Truth::True => section_held(s, t, d),
        Truth::False => section_held(s, meaning::target3(t, Truth::False), d),
        Truth::Unknown(_) => target_done(meaning::target3(t, v), s, d),
    }
}

fn conjunction_done(v: Truth, s: Stands, t: Truth, d: Verdict) -> Next
    ensures { result ≡ conjunction_done v s.ends_section s.ends_target s.conjunction s.section s.out t d }
{
    match v {
        Truth::False | Truth::Unknown(_) if !s.ends_section => Next {
            jump: s.conjunction,
            found: Found {
                reg: d,
                ands: Truth::True,
                ors: v,
                sections: t,
            },
        },
        _ => section_done(v, s, t, d),
    }
}

pub fn match_done(v: Truth, s: Stands, found: Found) -> Next
    ensures { result ≡ match_done v s.ends_conjunction s.ends_section s.ends_target s.conjunction s.section s.out found.ors found.sections found.reg }
{
    match v {
        Truth::True | Truth::Unknown(_) if !s.ends_conjunction => Next {
            jump: 0,
            found: Found { ands: v, ..found },
        },
        _ => conjunction_done(meaning::or3(found.ors, v), s, found.sections, found.reg),
    }
}

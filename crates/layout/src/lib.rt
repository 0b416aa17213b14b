// The layout of a programme's state in numbers: small words by number and back; levels, frames and the first number as they stand in 64 bits.
#![tactic(auto)]

pub mod kind;

ghost use Rattle.std.specs.Prelude.{◌≡◌, ℕ, ◌/◌, ◌%◌, ◌<◌, ◌≤◌, eqb};
ghost use Rattle.value.specs.Value.{function_of};
ghost use Rattle.layout.specs.Layout.{bit_of, truth_code, truth_by, cause_code, cause_by, decision_code, decision_by, verdict_code, verdict_by, effect_code, effect_by, function_code, op_code, op_by, algorithm_code, algorithm_by, operator_code, operator_by, rank_code, rank_by, acc_code, acc_by, level_of, level_word, frame_of, frame_word, found_by, found_code, unpack_of, pack_of};
ghost use Rattle.layout.specs.Ranges.{Held};
ghost use Rattle.layout.specs.Words.{IsCoded, bit_laws, truth_laws, cause_laws, decision_laws, verdict_laws, effect_laws, op_laws, algorithm_laws, function_laws, operator_laws, rank_laws, acc_laws, found_laws};

use algorithm::tally::Tally;
use algorithm::{Acc, Rank};
use meaning::{Algorithm, Cause, Decision, Effect, Truth, Verdict};
use sums::{Operator, Status};
use value::Function;

// So many numbers has the field of a place ahead.
pub const AHEAD: u64 = 8192;

// What a condition that is open does with its parts.
#[derive(Clone, Copy)]
pub enum Op {
    All,
    Any,
    Not,
}

// A condition that is open: what it does, and the value of its parts so far.
#[derive(Clone, Copy)]
pub struct Level {
    pub op: Op,
    pub val: Truth,
}

// A policy or set that is open: its algorithm, what that keeps of its children, and how many obligations of each effect stood when it was opened.
#[derive(Clone, Copy)]
pub struct Frame {
    pub alg: Algorithm,
    pub tally: Tally,
    pub permits: u64,
    pub denies: u64,
}

// What was found so far: the register, and the truths of a conjunction, a section and a target.
#[derive(Clone, Copy)]
pub struct Found {
    pub reg: Verdict,
    pub ands: Truth,
    pub ors: Truth,
    pub sections: Truth,
}

// The first number, taken apart.
// Kept: `over` is a bit of the first number (docs/PROGRAMME.md); what was found stands beside it also when the run is over.
#[derive(Clone, Copy)]
pub struct Head {
    pub at: u64,
    pub depth: u64,
    pub nest: u64,
    pub permits: u64,
    pub denies: u64,
    pub cut: u64,
    pub found: Found,
    pub over: bool,
}

// A state has so many frames and levels, one of each at the bottom, and so many obligation places.
pub const FRAMES: usize = 17;

pub const LEVELS: usize = 15;

pub const PLACES: usize = 1000;

#[derive(Clone, Copy)]
pub struct State {
    pub head: u64,
    pub frames: [u64; FRAMES],
    pub levels: [u64; LEVELS],
    pub places: [u16; PLACES],
}

// A word that stands in a field of a number. Each number is read as a word, one that no word has as the last one; so this is no `TryFrom`.
pub trait Coded: Copy {
    // Its field has so many numbers; the number of a word, and the word of a number.
    ghost SIZE: { ℕ };

    ghost code: { Self → ℕ };

    ghost by: { ℕ → Self };

    const SIZE: u64;

    fn code(self) -> u64
        ensures { (result ≡ code self) × (result < SIZE) };

    fn by(n: u64) -> Self
        ensures { result ≡ by n };

    // Each number is below the size, and brings its word back.
    ghost laws: { IsCoded SIZE code by };
}

// The word in the lowest bits of a number.
pub fn low<T: Coded>(n: u64) -> T
    ensures { result ≡ T.by (n % T.SIZE) }
{
    T::by(n % T::SIZE)
}

impl Coded for bool {
    ghost SIZE = { 2 };

    ghost code = { bit_of };

    ghost by = { λ n. eqb n 1 };

    ghost laws = { bit_laws };

    const SIZE: u64 = 2;

    fn code(self) -> u64 {
        u64::from(self)
    }

    fn by(n: u64) -> bool {
        n == 1
    }
}

impl Coded for Truth {
    ghost SIZE = { 4 };

    ghost code = { truth_code };

    ghost by = { truth_by };

    ghost laws = { truth_laws };

    const SIZE: u64 = 4;

    fn code(self) -> u64 {
        match self {
            Truth::True => 0,
            Truth::False => 1,
            Truth::Unknown(s) => 1 + u64::from(meaning::status_number(s)),
        }
    }

    fn by(n: u64) -> Truth {
        match n {
            0 => Truth::True,
            1 => Truth::False,
            2 => Truth::Unknown(Status::Missing),
            _ => Truth::Unknown(Status::Processing),
        }
    }
}

impl Coded for Cause {
    ghost SIZE = { 4 };

    ghost code = { cause_code };

    ghost by = { cause_by };

    ghost laws = { cause_laws };

    const SIZE: u64 = 4;

    fn code(self) -> u64 {
        match self {
            None => 0,
            Some(s) => u64::from(meaning::status_number(s)),
        }
    }

    fn by(n: u64) -> Cause {
        match n {
            0 => None,
            1 => Some(Status::Missing),
            _ => Some(Status::Processing),
        }
    }
}

impl Coded for Decision {
    ghost SIZE = { 4 };

    ghost code = { decision_code };

    ghost by = { decision_by };

    ghost laws = { decision_laws };

    const SIZE: u64 = 4;

    fn code(self) -> u64 {
        self as u64
    }

    fn by(n: u64) -> Decision {
        match n {
            0 => Decision::Permit,
            1 => Decision::Deny,
            2 => Decision::NotApplicable,
            _ => Decision::Indeterminate,
        }
    }
}

impl Coded for Verdict {
    ghost SIZE = { 8 };

    ghost code = { verdict_code };

    ghost by = { verdict_by };

    ghost laws = { verdict_laws };

    const SIZE: u64 = 8;

    fn code(self) -> u64 {
        match self {
            Verdict::Permit => 0,
            Verdict::Deny => 1,
            Verdict::NotApplicable => 2,
            Verdict::Indeterminate(s) => 2 + u64::from(meaning::status_number(s)),
        }
    }

    fn by(n: u64) -> Verdict {
        match n {
            0 => Verdict::Permit,
            1 => Verdict::Deny,
            2 => Verdict::NotApplicable,
            3 => Verdict::Indeterminate(Status::Missing),
            _ => Verdict::Indeterminate(Status::Processing),
        }
    }
}

impl Coded for Effect {
    ghost SIZE = { 2 };

    ghost code = { effect_code };

    ghost by = { effect_by };

    ghost laws = { effect_laws };

    const SIZE: u64 = 2;

    fn code(self) -> u64 {
        self as u64
    }

    fn by(n: u64) -> Effect {
        match n {
            0 => Effect::Permits,
            _ => Effect::Denies,
        }
    }
}

impl Coded for Op {
    ghost SIZE = { 4 };

    ghost code = { op_code };

    ghost by = { op_by };

    ghost laws = { op_laws };

    const SIZE: u64 = 4;

    fn code(self) -> u64 {
        self as u64
    }

    fn by(n: u64) -> Op {
        match n {
            0 => Op::All,
            1 => Op::Any,
            _ => Op::Not,
        }
    }
}

impl Coded for Algorithm {
    ghost SIZE = { 8 };

    ghost code = { algorithm_code };

    ghost by = { algorithm_by };

    ghost laws = { algorithm_laws };

    const SIZE: u64 = 8;

    fn code(self) -> u64 {
        // Kept: the numbers of docs/PROGRAMME.md go in another order than the variants.
        match self {
            Algorithm::First => 0,
            Algorithm::RulesDeny => 1,
            Algorithm::RulesPermit => 2,
            Algorithm::PoliciesDeny => 3,
            Algorithm::PoliciesPermit => 4,
            Algorithm::OnlyOne => 5,
        }
    }

    fn by(n: u64) -> Algorithm {
        match n {
            0 => Algorithm::First,
            1 => Algorithm::RulesDeny,
            2 => Algorithm::RulesPermit,
            3 => Algorithm::PoliciesDeny,
            4 => Algorithm::PoliciesPermit,
            _ => Algorithm::OnlyOne,
        }
    }
}

impl Coded for Function {
    ghost SIZE = { 8 };

    ghost code = { function_code };

    ghost by = { function_of };

    ghost laws = { function_laws };

    const SIZE: u64 = 8;

    fn code(self) -> u64 {
        1 + self as u64
    }

    // Kept: `as` between usize and u64, since there is no `From` between them.
    fn by(n: u64) -> Function {
        value::function_of(n as usize)
    }
}

impl Coded for Operator {
    ghost SIZE = { 8 };

    ghost code = { operator_code };

    ghost by = { operator_by };

    ghost laws = { operator_laws };

    const SIZE: u64 = 8;

    fn code(self) -> u64 {
        self as u64
    }

    fn by(n: u64) -> Operator {
        match n {
            0 => Operator::Add,
            1 => Operator::Subtract,
            2 => Operator::Multiply,
            3 => Operator::Divide,
            4 => Operator::Remainder,
            _ => Operator::DoubleAdd,
        }
    }
}

impl Coded for Rank {
    ghost SIZE = { 8 };

    ghost code = { rank_code };

    ghost by = { rank_by };

    ghost laws = { rank_laws };

    const SIZE: u64 = 8;

    fn code(self) -> u64 {
        self as u64
    }

    fn by(n: u64) -> Rank {
        match n {
            0 => Rank::R0,
            1 => Rank::R1,
            2 => Rank::R2,
            3 => Rank::R3,
            _ => Rank::R4,
        }
    }
}

impl Coded for Acc {
    ghost SIZE = { 16 };

    ghost code = { acc_code };

    ghost by = { acc_by };

    ghost laws = { acc_laws };

    const SIZE: u64 = 16;

    fn code(self) -> u64 {
        match self {
            Acc::Ranked(k) => k.code(),
            Acc::Nobody => 5,
            Acc::Pending => 6,
            Acc::Two => 7,
            Acc::One(d) => 8 + d.code(),
        }
    }

    fn by(n: u64) -> Acc {
        match n {
            0..=4 => Acc::Ranked(Rank::by(n)),
            5 => Acc::Nobody,
            6 => Acc::Pending,
            7 => Acc::Two,
            _ => Acc::One(Decision::by(n - 8)),
        }
    }
}

impl Level {
    // Where its value stands, behind the operation.
    const VAL: u64 = Op::SIZE;
}

// Kept: no `Coded`, here and of frames and the first number, since each is a whole number and no field; the last two also ask that their heights fit.
#[tactic(auto, unfolding(crate::specs::Layout::level_of))]
pub fn level_of(n: u64) -> Level
    ensures { result ≡ level_of n }
{
    Level {
        op: low(n),
        val: low(n / Level::VAL),
    }
}

#[tactic(auto, unfolding(crate::specs::Layout::level_word))]
pub fn level_word(l: Level) -> u64
    ensures { result ≡ level_word l }
{
    l.op.code() + Level::VAL * l.val.code()
}

// So many numbers has a field for a height of obligations, for the open policies and sets, and for the open conditions.
const HEIGHTS: u64 = 1024;

const DEPTHS: u64 = 32;

const NESTS: u64 = 16;

// Where the fields of a frame start, behind its algorithm.
impl Frame {
    const ACC: u64 = Algorithm::SIZE;

    const PERMITS: u64 = Acc::SIZE * Frame::ACC;

    const DENIES: u64 = HEIGHTS * Frame::PERMITS;

    const CAUSE: u64 = HEIGHTS * Frame::DENIES;
}

// Heights below 1,024 fit.
#[tactic(auto, unfolding(crate::specs::Layout::frame_of))]
pub fn frame_of(n: u64) -> Frame
    ensures { (result ≡ frame_of n) × ((result.permits < 1024) × (result.denies < 1024)) }
{
    Frame {
        alg: low(n),
        tally: Tally {
            acc: low(n / Frame::ACC),
            cause: low(n / Frame::CAUSE),
        },
        permits: n / Frame::PERMITS % HEIGHTS,
        denies: n / Frame::DENIES % HEIGHTS,
    }
}

#[tactic(auto, unfolding(crate::specs::Layout::frame_word))]
pub fn frame_word(f: Frame) -> u64
    requires { (f.permits < 1024) × (f.denies < 1024) }
    ensures { result ≡ frame_word f }
{
    f.alg.code()
        + Frame::ACC * f.tally.acc.code()
        + Frame::PERMITS * f.permits
        + Frame::DENIES * f.denies
        + Frame::CAUSE * f.tally.cause.code()
}

// Where the fields of what was found start, behind the register.
impl Found {
    const ANDS: u64 = Verdict::SIZE;

    const ORS: u64 = Truth::SIZE * Found::ANDS;

    const SECTIONS: u64 = Truth::SIZE * Found::ORS;
}

impl Coded for Found {
    ghost SIZE = { 512 };

    ghost code = { found_code };

    ghost by = { found_by };

    ghost laws = { found_laws };

    const SIZE: u64 = 512;

    #[tactic(auto, unfolding(crate::specs::Layout::found_code))]
    fn code(self) -> u64 {
        self.reg.code()
            + Found::ANDS * self.ands.code()
            + Found::ORS * self.ors.code()
            + Found::SECTIONS * self.sections.code()
    }

    #[tactic(auto, unfolding(crate::specs::Layout::found_by))]
    fn by(n: u64) -> Found {
        Found {
            reg: low(n),
            ands: low(n / Found::ANDS),
            ors: low(n / Found::ORS),
            sections: low(n / Found::SECTIONS),
        }
    }
}

// Where the fields of the first number start, behind the place in the programme.
impl Head {
    const DEPTH: u64 = 8192;

    const NEST: u64 = DEPTHS * Head::DEPTH;

    const PERMITS: u64 = NESTS * Head::NEST;

    const DENIES: u64 = HEIGHTS * Head::PERMITS;

    const CUT: u64 = HEIGHTS * Head::DENIES;

    const FOUND: u64 = HEIGHTS * Head::CUT;

    const OVER: u64 = Found::SIZE * Head::FOUND;
}

#[tactic(auto, unfolding(crate::specs::Layout::unpack_of))]
pub fn unpack(n: u64) -> Head
    ensures { result ≡ unpack_of n }
{
    Head {
        at: n % Head::DEPTH,
        depth: n / Head::DEPTH % DEPTHS,
        nest: n / Head::NEST % NESTS,
        permits: n / Head::PERMITS % HEIGHTS,
        denies: n / Head::DENIES % HEIGHTS,
        cut: n / Head::CUT % HEIGHTS,
        found: low(n / Head::FOUND),
        over: low(n / Head::OVER),
    }
}

#[tactic(auto, unfolding(crate::specs::Layout::pack_of))]
pub fn pack(h: Head) -> u64
    requires { Held h }
    ensures { result ≡ pack_of h }
{
    let opened = h.at + Head::DEPTH * h.depth + Head::NEST * h.nest;
    let heights = Head::PERMITS * h.permits + Head::DENIES * h.denies + Head::CUT * h.cut;
    opened + heights + Head::FOUND * h.found.code() + Head::OVER * h.over.code()
}

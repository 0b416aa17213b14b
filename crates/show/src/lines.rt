// A line that is being written, handed on by value.
ghost use Rattle.std.specs.Prelude.{◌≤◌, length};

const WIDTH: usize = 256;

// What is longer than this is cut, so that dots and a line feed still find room.
const MOST: usize = 250;

// Its bytes, of which the first `said` are said. Each method says something more, and what finds no room is cut.
// Kept: seven methods alike: one with a closure over the bytes would ask each closure for a clause of its own.
#[derive(Clone, Copy)]
pub struct Line {
    pub bytes: [u8; WIDTH],
    pub said: usize,
    ghost inside: { said ≤ length bytes },
}

impl Line {
    ghost use Rattle.std.specs.Prelude.{◌≡◌, [], ◌∷◌, ◌<◌, replicate};
    ghost use Rattle.outline.specs.Outline.{decimal_of, integer_of, name_of, double_of};
    ghost use Rattle.show.specs.Written.{width, Adds};

    // A line that says nothing.
    pub fn empty() -> Line
        ensures { (result.bytes ≡ replicate width 0) × (result.said ≡ 0) }
    {
        Line {
            bytes: [0; WIDTH],
            said: 0,
        }
    }

    // One byte.
    pub fn put(self, x: u8) -> Line
        ensures { Adds self (x ∷ []) result }
    {
        let mut bytes = self.bytes;
        let said = outline::put(&mut bytes, self.said, x);
        Line { bytes, said }
    }

    // Some bytes as they are.
    pub fn words(self, w: &[u8]) -> Line
        ensures { Adds self w.now result }
    {
        let mut bytes = self.bytes;
        let said = outline::words(&mut bytes, self.said, w);
        Line { bytes, said }
    }

    // A byte, so many times.
    pub fn repeat(self, x: u8, times: usize) -> Line
        ensures { Adds self (replicate times x) result }
    {
        let mut bytes = self.bytes;
        let said = outline::repeat(&mut bytes, self.said, x, times);
        Line { bytes, said }
    }

    // A number in decimal.
    pub fn decimal(self, n: u64) -> Line
        ensures { Adds self (decimal_of n) result }
    {
        let mut bytes = self.bytes;
        let said = outline::decimal(&mut bytes, self.said, n);
        Line { bytes, said }
    }

    // Eight bytes as an integer, two's complement.
    pub fn integer(self, n: u64) -> Line
        ensures { Adds self (integer_of n) result }
    {
        let mut bytes = self.bytes;
        let said = outline::integer(&mut bytes, self.said, n);
        Line { bytes, said }
    }

    // The bytes of a name.
    pub fn name(self, w: &[u8]) -> Line
        ensures { Adds self (name_of w.now) result }
    {
        let mut bytes = self.bytes;
        let said = outline::name(&mut bytes, self.said, w);
        Line { bytes, said }
    }

    // A double: exactly, and in plain digits too where it is a whole number below 2^53.
    pub fn double(self, n: u64) -> Line
        ensures { Adds self (double_of n) result }
    {
        let mut bytes = self.bytes;
        let said = outline::double(&mut bytes, self.said, n);
        Line { bytes, said }
    }

    // The same line, no longer than a line feed leaves room for: dots stand where something is cut.
    pub fn shortened(self) -> Line
        ensures { result.said < width }
    {
        if self.said < MOST {
            return self;
        }
        let bytes = self.bytes;
        Line { bytes, said: MOST }.words(b" ..")
    }
}

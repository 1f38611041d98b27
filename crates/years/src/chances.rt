// A generator of numbers that look random, from a seed, so that every run has the same years.
ghost use Rattle.std.specs.Prelude.{◌<◌};

#[derive(Clone, Copy)]
pub struct Chance {
    state: u64,
}

impl Chance {
    pub(crate) fn new(seed: u64) -> Chance {
        Chance { state: seed }
    }

    // Three shifts, each added without carry: every state but 0 comes once in a turn of 2^64 - 1.
    fn next(&mut self) -> u64 {
        let mut state = self.state;
        state ^= state << 13;
        state ^= state >> 7;
        state ^= state << 17;
        self.state = state;
        state
    }

    // A number below the bound, and 0 where there is none.
    pub(crate) fn below(&mut self, bound: u16) -> u16
        ensures { 0 < bound → result < bound }
    {
        if bound == 0 {
            return 0;
        }
        // the high bits are the better mixed ones
        ((self.next() >> 32) % bound as u64) as u16
    }
}

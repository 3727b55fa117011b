ghost use Rattle.std.specs.Prelude.{◌<◌};

/// Numbers that look random, by the generator of the example for `rand` (ISO C99, 7.20.2.2p5).
#[derive(Clone, Copy)]
pub struct Random {
    next: u64,
}

// One above the greatest number that is kept.
const MODULUS: u64 = 1 << 31;

impl Random {
    /// The numbers that a seed begins.
    pub fn new(seed: u64) -> Random {
        Random {
            next: seed % MODULUS,
        }
    }

    /// A number below this one, which is at most 32,768.
    pub fn below(&mut self, above: u64) -> u64
        requires { 0 < above }
        ensures { result < above }
    {
        self.next = (self.next % MODULUS * 1_103_515_245 + 12_345) % MODULUS;
        self.next / 65_536 % above
    }
}

// A source of numbers that gives the same ones on every machine.
ghost use Rattle.std.specs.Prelude.{◌<◌};

#[derive(Drop)]
pub struct Random {
    state: u64,
}

impl Random {
    // A start of 0 would give zeros only.
    pub fn new(start: u64) -> Random {
        Random { state: start }
    }

    // Three shifts, and a product that mixes the upper bits.
    fn next(&mut self) -> u64 {
        let mut x = self.state;
        x ^= x << 13;
        x ^= x >> 7;
        x ^= x << 17;
        self.state = x;
        x.wrapping_mul(2685821657736338717)
    }

    // A number below `n`.
    pub fn below(&mut self, n: u32) -> u32
        requires { 0 < n }
        ensures { result < n }
    {
        (self.next() >> 33) as u32 % n
    }
}

// The dice: one seed, always one run.
const MODULUS: u64 = 1 << 31;

#[derive(Clone, Copy)]
pub struct Dice {
    state: u64,
}

impl Dice {
    pub fn new(seed: u64) -> Dice {
        Dice { state: next(seed) }
    }

    // Throws once: a number below 1,000.
    pub fn per_mille(&mut self) -> u64 {
        self.state = next(self.state);
        self.state / 65536 % 1000
    }
}

fn next(state: u64) -> u64 {
    (state % MODULUS * 1_103_515_245 + 12_345) % MODULUS
}

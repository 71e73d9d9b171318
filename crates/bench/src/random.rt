// SplitMix64, a generator of pseudo-random numbers, so that two programs can be measured on the same inputs.

const STEP: u64 = 0x9E37_79B9_7F4A_7C15;

#[derive(Drop)]
pub struct SplitMix {
    state: u64,
}

impl SplitMix {
    // The generator whose state is one step; the state is stepped before each number.
    pub fn new() -> SplitMix {
        SplitMix { state: STEP }
    }

    pub fn number(&mut self) -> u64 {
        self.state = self.state.wrapping_add(STEP);
        let mut z = self.state;
        z = (z ^ (z >> 30)).wrapping_mul(0xBF58_476D_1CE4_E5B9);
        z = (z ^ (z >> 27)).wrapping_mul(0x94D0_49BB_1331_11EB);
        z ^ (z >> 31)
    }
}

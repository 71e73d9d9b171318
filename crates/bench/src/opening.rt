// Where a label is wanted. reference/bench.rs makes the same openings.
use crate::random::SplitMix;
use gap::Bounds;
use label::Word;

// The labels 1, 9, 15, 2/3, 1.1, 1.12, 1.2/3 and 1.1.1.1 under plan 4.
const PARENTS: [Word; 8] = [
    0x1000_0000_0000_0000,
    0x9000_0000_0000_0000,
    0xF000_0000_0000_0000,
    0x2980_0000_0000_0000,
    0x1080_0000_0000_0000,
    0x1600_0000_0000_0000,
    0x114C_0000_0000_0000,
    0x1084_2000_0000_0000,
];

// Below a parent, between two words. Both are always there, so that they are kept as plain words: `Bounds` takes twice their memory, and as many openings are made as are asked for.
#[derive(Clone, Copy)]
pub struct Opening {
    pub parent: Word,
    lower: Word,
    upper: Word,
}

impl Opening {
    // One of the parents, and bounds above it.
    pub fn random(random: &mut SplitMix) -> Opening {
        let parent = PARENTS[(random.number() & 7) as usize];
        let lower = parent.saturating_add(random.number() >> 8);
        let upper = lower.saturating_add(random.number() >> 12);
        Opening {
            parent,
            lower,
            upper,
        }
    }

    // What a label must lie between.
    pub fn bounds(&self) -> Bounds {
        Bounds {
            lower: Some(self.lower),
            upper: Some(self.upper),
        }
    }
}

// A small generator of choices. The same seed gives the same choices, so any run can be played again alone.

#[derive(Clone, Copy)]
pub(crate) struct Generator {
    state: u64,
}

// The factor and the increment of a linear congruential generator that goes through all words of 64 bits.
const FACTOR: u64 = 6_364_136_223_846_793_005;

const INCREMENT: u64 = 1_442_695_040_888_963_407;

impl Generator {
    pub(crate) fn seeded(seed: u32) -> Generator {
        Generator { state: seed as u64 }
    }

    // A number below the count, or 0 where no number is.
    pub(crate) fn below(&mut self, count: usize) -> usize {
        self.state = self.state.wrapping_mul(FACTOR).wrapping_add(INCREMENT);
        if count == 0 {
            return 0;
        }
        // the low bits of such a generator repeat soon
        (self.state >> 33) as usize % count
    }
}

// Numbers mixed into one, to see whether two lists of numbers are the same.

#[derive(Clone, Copy)]
pub(crate) struct Mixture {
    value: u64,
}

// The factor of the FNV hash of 64 bits.
const FACTOR: u64 = 1_099_511_628_211;

impl Mixture {
    pub(crate) fn new(value: u64) -> Mixture {
        Mixture { value }
    }

    pub(crate) fn add(&mut self, number: u32) {
        self.value = (self.value ^ number as u64).wrapping_mul(FACTOR);
    }

    pub(crate) fn value(self) -> u64 {
        self.value
    }
}

// Which of the messages in transit is delivered next: the one at place 0, or one that a generator picks. A call from C
// chooses between the two by a yes or no, so this is a value: a function that returns one of two closures has no proof.

#[derive(Clone, Copy)]
pub(crate) struct Order {
    // where the generator is, if there is one
    state: Option<u32>,
}

// The factor and the term of a well-known linear congruential generator on 32 bits.
const FACTOR: u32 = 1_664_525;

const TERM: u32 = 1_013_904_223;

impl Order {
    pub(crate) fn new(scattered: bool, seed: u32) -> Order {
        Order {
            state: scattered.then_some(seed),
        }
    }

    // A place below the count, if there is one.
    pub(crate) fn place(&mut self, count: usize) -> usize {
        let Some(state) = &mut self.state else {
            return 0;
        };
        *state = state.wrapping_mul(FACTOR).wrapping_add(TERM);
        scaled(*state, count)
    }
}

// The count times a fraction below 1, of which the state has 32 bits.
fn scaled(state: u32, count: usize) -> usize {
    ((state as u64).wrapping_mul(count as u64) >> 32) as usize
}

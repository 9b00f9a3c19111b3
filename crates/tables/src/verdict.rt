// A decision: who made it, whom it names and what it shows.
#[derive(Clone, Copy)]
pub struct Verdict<T> {
    pub node: u8,
    pub named: u8,
    pub holding: T,
}

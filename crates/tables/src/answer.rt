// What the calls of a run answer.
use crate::verdict::Verdict;

#[derive(Clone, Copy)]
pub struct Started<T> {
    pub sent: u32,
    pub verdict: Option<Verdict<T>>,
}

#[derive(Clone, Copy, PartialEq, Eq, Debug)]
pub enum Outcome {
    Handled,
    PutOut,
}

#[derive(Clone, Copy)]
pub struct Delivered<T> {
    pub outcome: Outcome,
    pub sent: u32,
    pub verdict: Option<Verdict<T>>,
}

// A node's holdings.
#[derive(Clone, Copy)]
pub struct Holdings<T> {
    pub own: T,
    pub running: T,
}

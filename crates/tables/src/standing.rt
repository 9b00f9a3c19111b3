// Where a node stands in an election, and what becomes of a message that reaches it.
use wave::step::Record;

// The wave that a node stands in, by its starter, and the node's record there.
#[derive(Clone, Copy)]
pub struct Joined {
    pub wave: u8,
    pub kept: Record,
}

#[derive(Clone, Copy)]
pub enum Fate {
    // the receiver joins the wave, with no record
    Joins,
    // the receiver stands in the wave, with this record
    Stays(Record),
    // the receiver stands in a better wave
    GoesOut,
}

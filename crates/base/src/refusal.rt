// Every refusal of the runner, in one enum. The number of a case is what the runner prints.
ghost use Rattle.std.specs.Prelude.{◌≡◌};
ghost use Rattle.base.specs.Refusals.{number_of};
ghost use Rattle.base.specs.declared.refusal.Refusal.{Refusal};

use thiserror::Error;

#[derive(Clone, Copy, PartialEq, Eq, Debug, Error)]
pub enum Refusal {
    // the station file
    #[error("a record's mark is not due here")]
    MarkNotDue = 11,
    #[error("the file ends inside a record, or where one is due")]
    Truncated = 12,
    #[error("nodes are not 1 to 32, or links are over 96")]
    CountOutOfRange = 13,
    #[error("an unknown wave or kind")]
    UnknownKind = 14,
    #[error("a device's class is over 15")]
    ClassOutOfRange = 15,
    #[error("the file is over 8192 bytes")]
    FileTooLong = 16,
    // a network
    #[error("an end of a link is no node, or the first is not the lower")]
    EndsOutOfOrder = 21,
    #[error("a link was given before")]
    LinkRepeated = 22,
    #[error("two nodes have no path between them")]
    NoPath = 23,
    // the making of a run
    #[error("the wave does not admit the network")]
    NotAdmitted = 31,
    #[error("two nodes have equal keys")]
    EqualKeys = 32,
    #[error("keys or holdings are not one for each node")]
    NotOneEach = 33,
    // the calls of a run, and the bag
    #[error("no such node")]
    NoSuchNode = 41,
    #[error("the node is not asleep")]
    NotAsleep = 42,
    #[error("no message lies at that place")]
    NoSuchPlace = 43,
    #[error("the message is none of this run's")]
    ForeignMessage = 44,
    #[error("too few free places for the messages to send")]
    NoFreePlace = 45,
    // what is written
    #[error("the bytes to write do not fit")]
    DoesNotFit = 51,
}

impl Refusal {
    // The number that is printed; no two refusals have the same. A method, since a `From` has one fact and no clause
    // `only` beside it.
    pub fn number(self) -> u8
        ensures value { result ≡ number_of self }
        ensures only { (other : Refusal) → number_of other ≡ result → other ≡ self }
    {
        self as u8
    }
}

// What a node keeps of a wave, and what it does at an event.
ghost use Rattle.std.specs.Prelude.{◌≡◌};
ghost use Rattle.wave.specs.Joining.{joined_as};
ghost use Rattle.wave.specs.Lone.{blank};

use base::node_set::NodeSet;

// A node stands in a wave as its starter, or as a follower of the neighbour that first reached it. An enum of its own,
// since a starter is more than the lack of such a neighbour.
#[derive(Clone, Copy, PartialEq, Eq, Debug)]
pub enum Standing {
    Starter,
    Follower(u8),
}

#[derive(Clone, Copy, PartialEq, Eq, Debug)]
pub struct Record {
    pub standing: Standing,
    // the neighbours that the wave keeps in mind: those noted, or those silent, or none
    pub marked: NodeSet,
    // whether the token was sent, in a wave that has one
    pub token_sent: bool,
}

impl Record {
    // What a node keeps when it joins a wave.
    pub fn joined_as(standing: Standing) -> Record
        ensures value { result ≡ joined_as standing }
    {
        Record {
            standing,
            marked: NodeSet::empty(),
            token_sent: false,
        }
    }

    // What is handed in beside the word that there is no record yet.
    pub fn blank() -> Record
        ensures value { result ≡ blank }
    {
        Record::joined_as(Standing::Starter)
    }
}

// What a node does at an event: its new record, who gets a message of either kind, and whether it decides.
#[derive(Clone, Copy, PartialEq, Eq, Debug)]
pub struct Step {
    pub kept: Record,
    pub first_kind: NodeSet,
    pub second_kind: NodeSet,
    pub decides: bool,
}

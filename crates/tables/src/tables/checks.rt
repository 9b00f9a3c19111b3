// The checks of a call, each with its refusal.
ghost use Rattle.std.specs.Prelude.{◌≡◌, ◌+◌, ◌-◌, ◌<◌, true, OnOk};
ghost use Rattle.base.specs.Bags.{room};
ghost use Rattle.tables.specs.Checks.{asleep_else, enough_else, node_else, one_each_else, ours_else};
ghost use Rattle.tables.specs.Events.{belongs};

use super::Tables;
use crate::message::Message;
use crate::standing::Joined;
use base::bag::Bag;
use base::refusal::Refusal;
use wave::kind::Kind;

// Holdings, own and running, are one a node. What is compared are three numbers, so no more is handed in.
pub fn one_each(nodes: u8, own: usize, running: usize) -> Result<(), Refusal>
    ensures value { result ≡ one_each_else nodes own running }
{
    if own == nodes as usize && running == nodes as usize {
        return Ok(());
    }
    Err(Refusal::NotOneEach)
}

pub fn is_node(nodes: u8, node: u8) -> Result<(), Refusal>
    ensures value { result ≡ node_else nodes node }
{
    if node < nodes {
        return Ok(());
    }
    Err(Refusal::NoSuchNode)
}

pub(super) fn is_asleep(joined: Option<Joined>) -> Result<(), Refusal>
    ensures value { result ≡ asleep_else joined }
{
    match joined {
        None => Ok(()),
        Some(_) => Err(Refusal::NotAsleep),
    }
}

// There are places for the messages to send.
pub(super) fn are_enough(free: usize, sent: u32) -> Result<(), Refusal>
    ensures value { result ≡ enough_else free sent }
{
    if sent as usize <= free {
        return Ok(());
    }
    Err(Refusal::NoFreePlace)
}

// The places that are free once a message is taken out.
pub(super) fn free_after_one<T: Copy>(transit: &Bag<T>) -> usize
    ensures value { result ≡ room transit.now - transit.now.count + 1 }
{
    transit.free() + 1
}

impl Tables {
    // The message can be one that this run sent.
    pub(super) fn is_ours<T: Copy>(&self, m: &Message<T>) -> Result<(), Refusal>
        ensures value { result ≡ ours_else self.now m.now }
        ensures inside { OnOk result (m.now.starter < 32) }
    {
        if self.belongs(m) {
            return Ok(());
        }
        Err(Refusal::ForeignMessage)
    }

    fn belongs<T: Copy>(&self, m: &Message<T>) -> bool
        ensures value { result ≡ belongs self.now m.now }
        ensures inside { result ≡ true → m.now.starter < 32 }
    {
        self.network.are_neighbours(m.sender, m.receiver)
            && self.is_accepted(m.starter)
            && Kind::try_from(m.kind).is_ok()
    }
}

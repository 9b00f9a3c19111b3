// A node starts: it joins its own wave by the opening.
ghost use Rattle.std.specs.Prelude.{◌≡◌};
ghost use Rattle.tables.specs.Calls.{Starts, each_else, free, passing, stand, state};
ghost use Rattle.tables.specs.Checks.{asleep_else, enough_else, node_else};
ghost use Rattle.tables.specs.Lent.{stand_lent};
ghost use Rattle.tables.specs.Tables.{standing_of};

use super::Tables;
use super::checks::{are_enough, is_asleep, is_node, one_each};
use super::sending::send;
use crate::answer::Started;
use crate::event::{Event, sent_by};
use crate::message::Message;
use crate::stores::{LentStores, Stores};
use base::bag::Bag;
use base::refusal::Refusal;
use values::holding::Holding;
use wave::wave::Wave;

impl Tables {
    // Starts a node that is asleep; answers how many messages it sent, and its decision if it decides.
    pub fn start<W: Wave, T: Holding>(
        &mut self,
        stores: &mut Stores<T>,
        node: u8,
    ) -> Result<Started<T>, Refusal>
        ensures step { Starts W.opening (stand self.old stores.old) node result (stand self.new stores.new) }
        ensures lender { stores.new.running.ghost_name ≡ stores.old.running.ghost_name }
        ensures own { stores.new.own ≡ stores.old.own }
    {
        self.start_apart::<W, T>(stores.own, stores.running, &mut stores.transit, node)
    }

    // The same for a caller to whom holdings and transit are lent apart.
    pub fn start_apart<W: Wave, T: Holding>(
        &mut self,
        own: &[T],
        running: &mut [T],
        transit: &mut Bag<Message<T>>,
        node: u8,
    ) -> Result<Started<T>, Refusal>
        ensures step { Starts W.opening (state self.old transit.old own.now running.old) node result (state self.new transit.new own.now running.new) }
    {
        let mut stores = LentStores {
            own,
            running,
            transit,
        };
        self.take_start::<W, T>(&mut stores, node)
    }

    // The work of both.
    fn take_start<W: Wave, T: Holding>(
        &mut self,
        stores: &mut LentStores<T>,
        node: u8,
    ) -> Result<Started<T>, Refusal>
        ensures step { Starts W.opening (stand_lent self.old stores.old) node result (stand_lent self.new stores.new) }
        ensures lender { stores.new.running.ghost_name ≡ stores.old.running.ghost_name }
        ensures own { stores.new.own ≡ stores.old.own }
        ensures bag { stores.new.transit.ghost_name ≡ stores.old.transit.ghost_name }
    {
        // a wave answers for every number, also for one that is no node
        let step = W::open(&self.network, node);
        self.check_start(stores, node, sent_by(&step))?;
        let event = Event {
            starter: node,
            node,
            holding: stores.own[node as usize],
            step,
        };
        self.ledger[node as usize].accept(event.sent());
        self.rows[node as usize].join(node, event.step.kept);
        stores.running[node as usize] = event.holding;
        send(stores.transit, &event);
        Ok(Started {
            sent: event.sent(),
            verdict: event.verdict(),
        })
    }

    // The refusals of a start, in their order.
    fn check_start<T: Copy>(
        &self,
        stores: &LentStores<T>,
        node: u8,
        sent: u32,
    ) -> Result<(), Refusal>
        ensures value { result ≡ passing (each_else (stand_lent self.now stores.now)) (passing (node_else self.now.network.nodes node) (passing (asleep_else (standing_of self.now node)) (enough_else (free (stand_lent self.now stores.now)) sent))) }
    {
        let nodes = self.network.nodes();
        one_each(nodes, stores.own.len(), stores.running.len())?;
        is_node(nodes, node)?;
        is_asleep(self.standing(node))?;
        are_enough(stores.transit.free(), sent)
    }
}

// A node starts: it joins its own wave by the opening.
ghost use Rattle.std.specs.Prelude.{◌≡◌};
ghost use Rattle.tables.specs.Calls.{Starts, stand, state};
ghost use Rattle.election.specs.Histories.{said_at_start};
ghost use Rattle.election.specs.Promises.{Keeps};

use super::Run;
use base::bag::Bag;
use base::refusal::Refusal;
use tables::answer::Started;
use tables::message::Message;
use tables::stores::Stores;
use values::holding::Holding;
use values::key::KeyOrder;
use wave::wave::Wave;

impl<W: Wave, K: KeyOrder, T: Holding> Run<W, K, T> {
    // Starts a node that is asleep; answers how many messages it sent, and its decision if it decides.
    pub fn start(&mut self, stores: &mut Stores<T>, node: u8) -> Result<Started<T>, Refusal>
        ensures step { Starts W.opening (stand self.old.tables stores.old) node result (stand self.new.tables stores.new) }
        ensures promise { Keeps W.admitted W.most W.opening W.arrival K.precedes T.meet (stand self.old.tables stores.old) (λ log. said_at_start log node result) (stand self.new.tables stores.new) }
        ensures lender { stores.new.running.ghost_name ≡ stores.old.running.ghost_name }
        ensures own { stores.new.own ≡ stores.old.own }
    {
        self.promised_start(stores.own, stores.running, &mut stores.transit, node)
    }

    // The same for a caller to whom holdings and transit are lent apart.
    pub fn start_apart(
        &mut self,
        own: &[T],
        running: &mut [T],
        transit: &mut Bag<Message<T>>,
        node: u8,
    ) -> Result<Started<T>, Refusal>
        ensures step { Starts W.opening (state self.old.tables transit.old own.now running.old) node result (state self.new.tables transit.new own.now running.new) }
        ensures promise { Keeps W.admitted W.most W.opening W.arrival K.precedes T.meet (state self.old.tables transit.old own.now running.old) (λ log. said_at_start log node result) (state self.new.tables transit.new own.now running.new) }
    {
        self.promised_start(own, running, transit, node)
    }

    // The work of both; the promise follows from what it says of all histories.
    fn promised_start(
        &mut self,
        own: &[T],
        running: &mut [T],
        transit: &mut Bag<Message<T>>,
        node: u8,
    ) -> Result<Started<T>, Refusal>
        ensures step { Starts W.opening (state self.old.tables transit.old own.now running.old) node result (state self.new.tables transit.new own.now running.new) }
        ensures promise { Keeps W.admitted W.most W.opening W.arrival K.precedes T.meet (state self.old.tables transit.old own.now running.old) (λ log. said_at_start log node result) (state self.new.tables transit.new own.now running.new) }
    {
        self.tables.start_apart::<W, T>(own, running, transit, node)
    }
}

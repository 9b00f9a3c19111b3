// A message is delivered: it is taken out of the transit, and is handled by its receiver or put out.
ghost use Rattle.std.specs.Prelude.{◌≡◌};
ghost use Rattle.tables.specs.Calls.{Delivers, stand, state};
ghost use Rattle.election.specs.Histories.{said_at_delivery};
ghost use Rattle.election.specs.Promises.{Keeps};

use super::Run;
use base::bag::Bag;
use base::refusal::Refusal;
use tables::answer::Delivered;
use tables::message::Message;
use tables::stores::Stores;
use values::holding::Holding;
use values::key::KeyOrder;
use wave::wave::Wave;

impl<W: Wave, K: KeyOrder, T: Holding> Run<W, K, T> {
    // Delivers the message at a place; answers what became of it, how many messages its receiver sent, and the
    // decision if the receiver decides.
    pub fn deliver(&mut self, stores: &mut Stores<T>, place: usize) -> Result<Delivered<T>, Refusal>
        ensures step { Delivers W.arrival T.meet (stand self.old.tables stores.old) place result (stand self.new.tables stores.new) }
        ensures promise { Keeps W.admitted W.most W.opening W.arrival K.precedes T.meet (stand self.old.tables stores.old) (λ log. said_at_delivery log result) (stand self.new.tables stores.new) }
        ensures lender { stores.new.running.ghost_name ≡ stores.old.running.ghost_name }
        ensures own { stores.new.own ≡ stores.old.own }
    {
        self.promised_delivery(stores.own, stores.running, &mut stores.transit, place)
    }

    // The same for a caller to whom holdings and transit are lent apart.
    pub fn deliver_apart(
        &mut self,
        own: &[T],
        running: &mut [T],
        transit: &mut Bag<Message<T>>,
        place: usize,
    ) -> Result<Delivered<T>, Refusal>
        ensures step { Delivers W.arrival T.meet (state self.old.tables transit.old own.now running.old) place result (state self.new.tables transit.new own.now running.new) }
        ensures promise { Keeps W.admitted W.most W.opening W.arrival K.precedes T.meet (state self.old.tables transit.old own.now running.old) (λ log. said_at_delivery log result) (state self.new.tables transit.new own.now running.new) }
    {
        self.promised_delivery(own, running, transit, place)
    }

    // The work of both; the promise follows from what it says of all histories.
    fn promised_delivery(
        &mut self,
        own: &[T],
        running: &mut [T],
        transit: &mut Bag<Message<T>>,
        place: usize,
    ) -> Result<Delivered<T>, Refusal>
        ensures step { Delivers W.arrival T.meet (state self.old.tables transit.old own.now running.old) place result (state self.new.tables transit.new own.now running.new) }
        ensures promise { Keeps W.admitted W.most W.opening W.arrival K.precedes T.meet (state self.old.tables transit.old own.now running.old) (λ log. said_at_delivery log result) (state self.new.tables transit.new own.now running.new) }
    {
        self.tables
            .deliver_apart::<W, T>(own, running, transit, place)
    }
}

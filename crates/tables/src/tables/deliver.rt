// A message is delivered: it is taken out of the transit, and is handled by its receiver or put out.
ghost use Rattle.std.specs.Prelude.{◌≡◌, ◌<◌, Some};
ghost use Rattle.base.specs.Bags.{held};
ghost use Rattle.tables.specs.Calls.{Delivers, Played, Reached, handled, put_out, stand, state};
ghost use Rattle.tables.specs.Carrying.{Ready, ReadyFor};
ghost use Rattle.tables.specs.Ledgers.{handles};
ghost use Rattle.tables.specs.Lent.{stand_lent};
ghost use Rattle.tables.specs.Tables.{put_out_in};

use super::Tables;
use super::planning::Plan;
use super::sending::send;
use crate::answer::{Delivered, Outcome};
use crate::event::Event;
use crate::message::Message;
use crate::stores::{LentStores, Stores};
use base::bag::Bag;
use base::refusal::Refusal;
use values::holding::Holding;
use wave::wave::Wave;

impl Tables {
    // Delivers the message at a place; answers what became of it, how many messages its receiver sent, and the
    // decision if the receiver decides.
    pub fn deliver<W: Wave, T: Holding>(
        &mut self,
        stores: &mut Stores<T>,
        place: usize,
    ) -> Result<Delivered<T>, Refusal>
        ensures step { Delivers W.arrival T.meet (stand self.old stores.old) place result (stand self.new stores.new) }
        ensures lender { stores.new.running.ghost_name ≡ stores.old.running.ghost_name }
        ensures own { stores.new.own ≡ stores.old.own }
    {
        self.deliver_apart::<W, T>(stores.own, stores.running, &mut stores.transit, place)
    }

    // The same for a caller to whom holdings and transit are lent apart.
    pub fn deliver_apart<W: Wave, T: Holding>(
        &mut self,
        own: &[T],
        running: &mut [T],
        transit: &mut Bag<Message<T>>,
        place: usize,
    ) -> Result<Delivered<T>, Refusal>
        ensures step { Delivers W.arrival T.meet (state self.old transit.old own.now running.old) place result (state self.new transit.new own.now running.new) }
    {
        let mut stores = LentStores {
            own,
            running,
            transit,
        };
        self.take_delivery::<W, T>(&mut stores, place)
    }

    // The work of both, with the proof; what is wrong in an entry is refused there.
    fn take_delivery<W: Wave, T: Holding>(
        &mut self,
        stores: &mut LentStores<T>,
        place: usize,
    ) -> Result<Delivered<T>, Refusal>
        ensures step { Delivers W.arrival T.meet (stand_lent self.old stores.old) place result (stand_lent self.new stores.new) }
        ensures lender { stores.new.running.ghost_name ≡ stores.old.running.ghost_name }
        ensures own { stores.new.own ≡ stores.old.own }
        ensures bag { stores.new.transit.ghost_name ≡ stores.old.transit.ghost_name }
    {
        let plan = self.plan::<W, T>(stores, place)?;
        let _ = stores.transit.take(place);
        Ok(self.carry_out(stores, plan))
    }

    // The message is out of the transit already. This and what it calls are inlined into the delivery of each wave: one
    // copy for all of them halves the speed.
    #[inline(always)]
    fn carry_out<T: Copy>(&mut self, stores: &mut LentStores<T>, plan: Plan<T>) -> Delivered<T>
        requires ready { Ready stores.old plan }
        ensures reached { Reached (stand_lent self.old stores.old) plan.message.starter (held stores.old.transit.now) plan.event result (stand_lent self.new stores.new) }
        ensures lender { stores.new.running.ghost_name ≡ stores.old.running.ghost_name }
        ensures own { stores.new.own ≡ stores.old.own }
        ensures bag { stores.new.transit.ghost_name ≡ stores.old.transit.ghost_name }
    {
        match plan.event {
            None => self.put_out(plan.message.starter),
            Some(event) => self.handle(stores, event),
        }
    }

    // Only a count changes.
    #[inline(always)]
    fn put_out<T: Copy>(&mut self, starter: u8) -> Delivered<T>
        requires starter { starter < 32 }
        ensures value { result ≡ put_out }
        ensures after { self.new ≡ put_out_in self.old starter }
    {
        self.ledger[starter as usize].put_out();
        Delivered {
            outcome: Outcome::PutOut,
            sent: 0,
            verdict: None,
        }
    }

    #[inline(always)]
    fn handle<T: Copy>(&mut self, stores: &mut LentStores<T>, event: Event<T>) -> Delivered<T>
        requires ready { ReadyFor stores.old (Some event) }
        ensures value { result ≡ handled event }
        ensures played { Played (stand_lent self.old stores.old) handles event (held stores.old.transit.now) (stand_lent self.new stores.new) }
        ensures lender { stores.new.running.ghost_name ≡ stores.old.running.ghost_name }
        ensures own { stores.new.own ≡ stores.old.own }
        ensures bag { stores.new.transit.ghost_name ≡ stores.old.transit.ghost_name }
    {
        // as at a start, but for the count; three lines each are less than the contract of a function for both
        self.ledger[event.starter as usize].handle(event.sent());
        self.rows[event.node as usize].join(event.starter, event.step.kept);
        stores.running[event.node as usize] = event.holding;
        send(stores.transit, &event);
        Delivered {
            outcome: Outcome::Handled,
            sent: event.sent(),
            verdict: event.verdict(),
        }
    }
}

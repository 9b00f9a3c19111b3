// What a delivery would do, or why it is refused. Nothing is written here.
ghost use Rattle.std.specs.Prelude.{◌≡◌, ◌<◌, IfOk, Some, slice_index_or};
ghost use Rattle.tables.specs.Calls.{planned, planned_for};
ghost use Rattle.tables.specs.Events.{arrived, event_by, event_of, sends_if};
ghost use Rattle.tables.specs.Lent.{stand_lent};

use super::Tables;
use super::checks::{are_enough, free_after_one, one_each};
use crate::event::Event;
use crate::message::Message;
use crate::standing::Fate;
use crate::stores::LentStores;
use base::refusal::Refusal;
use values::holding::Holding;
use wave::step::Record;
use wave::wave::Wave;

// The message, and what it makes of its receiver, nothing if it is put out.
#[derive(Clone, Copy)]
pub struct Plan<T> {
    pub message: Message<T>,
    pub event: Option<Event<T>>,
}

impl Tables {
    // The refusals of a delivery come in their order, here and in `plan_for`.
    pub(super) fn plan<W: Wave, T: Holding>(
        &self,
        stores: &LentStores<T>,
        place: usize,
    ) -> Result<Plan<T>, Refusal>
        ensures value { result ≡ planned W.arrival T.meet (stand_lent self.now stores.now) place }
        ensures inside { IfOk result (λ plan. plan.message.starter < 32) }
    {
        one_each(self.network.nodes(), stores.own.len(), stores.running.len())?;
        let message = stores.transit.at(place)?;
        self.plan_for::<W, T>(stores, message)
    }

    fn plan_for<W: Wave, T: Holding>(
        &self,
        stores: &LentStores<T>,
        message: Message<T>,
    ) -> Result<Plan<T>, Refusal>
        ensures value { result ≡ planned_for W.arrival T.meet (stand_lent self.now stores.now) (Some message) }
        ensures inside { IfOk result (λ plan. plan.message.starter < 32) }
    {
        self.is_ours(&message)?;
        let event = self.event::<W, T>(stores, &message);
        are_enough(free_after_one(stores.transit), sent_if(&event))?;
        Ok(Plan { message, event })
    }

    // What a message makes of its receiver; nothing if it is put out.
    fn event<W: Wave, T: Holding>(&self, stores: &LentStores<T>, m: &Message<T>) -> Option<Event<T>>
        ensures value { result ≡ event_of W.arrival T.meet self.now stores.now.own.now stores.now.running.now m.now }
    {
        let fate = self.fate(self.standing(m.receiver), m.starter);
        self.event_by::<W, T>(stores, m, fate)
    }

    // The same by the fate of the message.
    fn event_by<W: Wave, T: Holding>(
        &self,
        stores: &LentStores<T>,
        m: &Message<T>,
        fate: Fate,
    ) -> Option<Event<T>>
        ensures value { result ≡ event_by W.arrival T.meet self.now stores.now.own.now stores.now.running.now m.now fate }
    {
        match fate {
            Fate::Joins => {
                let before = holding_of(stores.own, m.receiver, m.holding);
                Some(self.arrived::<W, T>(m, before, false, Record::blank()))
            }
            Fate::Stays(kept) => {
                let before = holding_of(stores.running, m.receiver, m.holding);
                Some(self.arrived::<W, T>(m, before, true, kept))
            }
            Fate::GoesOut => None,
        }
    }

    // The receiver's event, from its holding before and its record in the wave, if `known` says that it has one. An
    // `Option` of the record was tried: deliveries of a tree wave are a sixth slower with it.
    fn arrived<W: Wave, T: Holding>(
        &self,
        m: &Message<T>,
        before: T,
        known: bool,
        kept: Record,
    ) -> Event<T>
        ensures value { result ≡ arrived W.arrival T.meet self.now m.now before known kept }
    {
        Event {
            starter: m.starter,
            node: m.receiver,
            holding: before.infimum(m.holding),
            step: W::arrive(&self.network, m.receiver, known, kept, m.sender, m.kind),
        }
    }
}

// The holding of a node, or another one for what is no node.
fn holding_of<T: Copy>(holdings: &[T], node: u8, other: T) -> T
    ensures value { result ≡ slice_index_or holdings.now node other }
{
    holdings.get(node as usize).copied().unwrap_or(other)
}

// How many messages the receiver sends.
fn sent_if<T: Copy>(event: &Option<Event<T>>) -> u32
    ensures value { result ≡ sends_if event.now }
{
    event.as_ref().map_or(0, |e| e.sent())
}

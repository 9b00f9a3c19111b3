// The calls of a run, each with the refusal that is due, if one is, and with the checks behind it.
use super::Play;
use base::refusal::Refusal;
use tables::answer::Outcome;
use values::holding::Holding;
use values::key::KeyOrder;
use wave::wave::Wave;

impl<W: Wave, K: KeyOrder, T: Holding + PartialEq> Play<'_, W, K, T> {
    pub(super) fn start(&mut self, node: u8) {
        let due = self.refusal_of_start(node);
        match self.run.start(&mut self.stores, node) {
            Ok(started) => {
                self.seen.note_accepted(due, started.sent);
                self.seen.counts.add_starter(node);
                self.check_decision(started.verdict);
            }
            Err(why) => self.seen.note_refused(due, why),
        }
        self.check_counts();
    }

    pub(super) fn deliver(&mut self, place: usize) {
        let due = self.refusal_of_delivery(place);
        let before = self.account_at(place);
        match self.run.deliver(&mut self.stores, place) {
            Ok(delivered) => {
                self.seen.note_accepted(due, delivered.sent);
                self.note_outcome(delivered.outcome);
                self.check_account(before, delivered.outcome, delivered.sent);
                self.check_decision(delivered.verdict);
            }
            Err(why) => self.seen.note_refused(due, why),
        }
        self.check_counts();
    }

    fn note_outcome(&mut self, outcome: Outcome) {
        match outcome {
            Outcome::Handled => self.seen.counts.add_handled(1),
            Outcome::PutOut => self.seen.counts.add_put_out(1),
        }
    }

    // There is always a free place, so a start is refused only for its node.
    fn refusal_of_start(&self, node: u8) -> Option<Refusal> {
        if node >= self.setup.network.nodes() {
            Some(Refusal::NoSuchNode)
        } else if self.is_awake(node) {
            Some(Refusal::NotAsleep)
        } else {
            None
        }
    }

    // There is always a free place, so a delivery is refused only for its place.
    fn refusal_of_delivery(&self, place: usize) -> Option<Refusal> {
        (place >= self.stores.transit.count()).then_some(Refusal::NoSuchPlace)
    }

    // Whether the node stands in a wave.
    pub(super) fn is_awake(&self, node: u8) -> bool {
        self.run.row(node).is_ok_and(|row| row.joined.is_some())
    }
}

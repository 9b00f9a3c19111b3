// What the elections that were played came to, so that two libraries can be compared.
use crate::mixture::Mixture;
use tables::answer::{Delivered, Outcome, Started};
use tables::verdict::Verdict;
use values::least::Least;

// Sums over all elections that were played, but for the last field.
#[repr(C)]
#[derive(Clone, Copy, Default)]
pub struct Tally {
    pub deliveries: u64,
    pub sent: u64,
    pub put_out: u64,
    pub decisions: u64,
    // every decision in its turn, mixed
    pub verdicts: u64,
    // where the nodes stand, what they hold and what the ledger has after the last election, mixed
    pub state: u64,
}

impl Tally {
    pub(crate) fn note_start(&mut self, answer: Started<Least>) {
        self.sent = self.sent.wrapping_add(answer.sent as u64);
        self.note_verdict(answer.verdict);
    }

    pub(crate) fn note_delivery(&mut self, answer: Delivered<Least>) {
        self.deliveries = self.deliveries.wrapping_add(1);
        self.sent = self.sent.wrapping_add(answer.sent as u64);
        if answer.outcome == Outcome::PutOut {
            self.put_out = self.put_out.wrapping_add(1);
        }
        self.note_verdict(answer.verdict);
    }

    fn note_verdict(&mut self, verdict: Option<Verdict<Least>>) {
        let Some(verdict) = verdict else {
            return;
        };
        self.decisions = self.decisions.wrapping_add(1);
        let mut mixture = Mixture::new(self.verdicts);
        mixture.add(verdict.node as u32);
        mixture.add(verdict.named as u32);
        mixture.add(verdict.holding.value());
        self.verdicts = mixture.value();
    }
}

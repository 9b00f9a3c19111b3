// What is promised of a run, checked after every call and at rest.
use super::Play;
use crate::counts::Counts;
use base::node_set::NodeSet;
use extinction::allowance::allowance;
use tables::answer::Outcome;
use tables::ledger::Account;
use tables::verdict::Verdict;
use values::fold::fold;
use values::holding::Holding;
use values::key::KeyOrder;
use wave::wave::Wave;

impl<W: Wave, K: KeyOrder, T: Holding + PartialEq> Play<'_, W, K, T> {
    // Every message that was sent is handled, put out or in transit, the accepted starters keep their allowance, and
    // the ledger says the same. A refusal adds to no count, so after one this tells that none of them changed.
    pub(super) fn check_counts(&mut self) {
        let counts = self.seen.counts;
        let allowed = allowance::<W, K, T>(&self.setup.network, counts.starters.len());
        let ledger = self.ledger();
        self.seen.expect(counts.add_up(self.stores.transit.count()));
        self.seen.expect(counts.sent <= allowed);
        self.seen.expect(counts == ledger);
    }

    // The sums of the ledger.
    fn ledger(&self) -> Counts {
        let mut sums = Counts::default();
        for node in 0..self.setup.network.nodes() {
            if let Ok(account) = self.run.account(node) {
                sums.add_account(node, &account);
            }
        }
        sums
    }

    // The starter of the message at a place, with what the ledger has of it.
    pub(super) fn account_at(&self, place: usize) -> Option<(u8, Account)> {
        let starter = self.stores.transit.at(place).ok()?.starter;
        let account = self.run.account(starter).ok()?;
        Some((starter, account))
    }

    // A delivery is booked for the starter of its message.
    pub(super) fn check_account(
        &mut self,
        before: Option<(u8, Account)>,
        outcome: Outcome,
        sent: u32,
    ) {
        let booked = self.is_booked(before, outcome, sent);
        self.seen.expect(booked);
    }

    fn is_booked(&self, before: Option<(u8, Account)>, outcome: Outcome, sent: u32) -> bool {
        let Some((starter, old)) = before else {
            return false;
        };
        let (handled, put_out) = match outcome {
            Outcome::Handled => (1, 0),
            Outcome::PutOut => (0, 1),
        };
        self.run.account(starter).is_ok_and(|new| {
            new.sent == old.sent.saturating_add(sent)
                && new.handled == old.handled.saturating_add(handled)
                && new.put_out == old.put_out.saturating_add(put_out)
        })
    }

    // A decision names a node, and shows what all nodes together hold.
    pub(super) fn check_decision(&mut self, verdict: Option<Verdict<T>>) {
        let Some(decision) = verdict else {
            return;
        };
        self.seen.note_named(decision.named);
        self.seen
            .expect(decision.named < self.setup.network.nodes());
        self.seen
            .expect(fold(&self.setup.own) == Some(decision.holding));
    }

    // At rest something was started and decided, and every decision named the accepted starter whose key is first.
    pub(super) fn check_rest(&mut self) {
        let starters = self.seen.counts.starters;
        let named = self.seen.named;
        let rests = self.is_at_rest();
        self.seen.expect(rests);
        self.seen.expect(!starters.is_empty());
        self.seen.expect(!named.is_empty());
        self.seen.expect(named.minus(starters).is_empty());
        self.seen
            .expect(are_first(&self.setup.keys, named, starters));
    }
}

// Whether no starter has a key before that of a named node.
fn are_first<K: KeyOrder>(keys: &[K], named: NodeSet, starters: NodeSet) -> bool {
    named.members().all(|node| {
        !starters
            .members()
            .any(|starter| is_before(keys, starter, node))
    })
}

// Whether the key of one node is before that of another.
fn is_before<K: KeyOrder>(keys: &[K], a: u8, b: u8) -> bool {
    keys.get(a as usize)
        .zip(keys.get(b as usize))
        .is_some_and(|(first, second)| first.before(second))
}

// What is counted of a run: the starters that were accepted, and the messages sent, handled and put out.
use base::node_set::NodeSet;
use tables::ledger::Account;

#[derive(Clone, Copy, PartialEq, Default)]
pub(crate) struct Counts {
    pub(crate) starters: NodeSet,
    pub(crate) sent: u32,
    pub(crate) handled: u32,
    pub(crate) put_out: u32,
}

impl Counts {
    pub(crate) fn add_starter(&mut self, node: u8) {
        self.starters = self.starters.with(node);
    }

    pub(crate) fn add_sent(&mut self, sent: u32) {
        self.sent = self.sent.saturating_add(sent);
    }

    pub(crate) fn add_handled(&mut self, handled: u32) {
        self.handled = self.handled.saturating_add(handled);
    }

    pub(crate) fn add_put_out(&mut self, put_out: u32) {
        self.put_out = self.put_out.saturating_add(put_out);
    }

    // What the ledger has of one node is added.
    pub(crate) fn add_account(&mut self, node: u8, account: &Account) {
        if account.accepted {
            self.add_starter(node);
        }
        self.add_sent(account.sent);
        self.add_handled(account.handled);
        self.add_put_out(account.put_out);
    }

    // Whether every message that was sent is handled, put out or in transit.
    pub(crate) fn add_up(&self, in_transit: usize) -> bool {
        let delivered = self.handled.saturating_add(self.put_out);
        (delivered as usize).saturating_add(in_transit) == self.sent as usize
    }
}

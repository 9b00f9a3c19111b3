// What was seen of one run from the outside.
use crate::counts::Counts;
use base::node_set::NodeSet;
use base::refusal::Refusal;

#[derive(Clone, Copy, Default)]
pub(crate) struct Seen {
    // from the answers alone
    pub(crate) counts: Counts,
    pub(crate) accepted_calls: u32,
    pub(crate) refused_calls: u32,
    pub(crate) decisions: u32,
    // the nodes that decisions named
    pub(crate) named: NodeSet,
    // whether anything seen so far breaks what is promised
    pub(crate) at_fault: bool,
}

impl Seen {
    // Something that is promised holds, or the run is at fault.
    pub(crate) fn expect(&mut self, holds: bool) {
        self.at_fault |= !holds;
    }

    // A call was accepted, and should have been where no refusal was due.
    pub(crate) fn note_accepted(&mut self, due: Option<Refusal>, sent: u32) {
        self.accepted_calls = self.accepted_calls.saturating_add(1);
        self.counts.add_sent(sent);
        self.expect(due.is_none());
    }

    // A call was refused, and should have been for just this reason.
    pub(crate) fn note_refused(&mut self, due: Option<Refusal>, why: Refusal) {
        self.refused_calls = self.refused_calls.saturating_add(1);
        self.expect(due == Some(why));
    }

    // A decision named a node.
    pub(crate) fn note_named(&mut self, named: u8) {
        self.decisions = self.decisions.saturating_add(1);
        self.named = self.named.with(named);
    }
}

// The turns of a run. Each tries one wanted starter or delivers one message.
use super::Play;
use base::node_set::NodeSet;
use extinction::allowance::allowance;
use values::holding::Holding;
use values::key::KeyOrder;
use wave::wave::Wave;

// One turn in so many begins with a call that must be refused.
const BETWEEN_REFUSALS: usize = 4;

impl<W: Wave, K: KeyOrder, T: Holding + PartialEq> Play<'_, W, K, T> {
    // Goes on until rest. Each node is tried as a starter once at most, and each message is delivered once, so a
    // run that keeps its allowance needs no more turns.
    pub(super) fn take_turns(&mut self) {
        let network = &self.setup.network;
        let nodes = network.nodes();
        let most = allowance::<W, K, T>(network, nodes).saturating_add(nodes as u32);
        for _ in 0..most {
            if self.is_at_rest() {
                break;
            }
            self.take_turn();
        }
    }

    // All wanted starters were tried, and nothing is in transit.
    pub(super) fn is_at_rest(&self) -> bool {
        self.wanted.is_empty() && self.stores.transit.count() == 0
    }

    fn take_turn(&mut self) {
        if self.generator.below(BETWEEN_REFUSALS) == 0 {
            self.be_refused();
        }
        let count = self.stores.transit.count();
        if self.is_start_due(count) {
            self.start_wanted();
        } else {
            let place = self.generator.below(count);
            self.deliver(place);
        }
    }

    // Whether the next call is a start.
    fn is_start_due(&mut self, count: usize) -> bool {
        !self.wanted.is_empty() && (count == 0 || self.generator.below(self.setup.pace) == 0)
    }

    // Tries one of the wanted starters. A wave may have reached it, and then it is no starter.
    fn start_wanted(&mut self) {
        if let Some(node) = self.any_of(self.wanted) {
            self.wanted = self.wanted.without(node);
            self.start(node);
        }
    }

    // A call that must be refused: a place behind the last message, a number that is no node, or a node that is
    // awake, where the one that was chosen is.
    fn be_refused(&mut self) {
        let nodes = self.setup.network.nodes();
        let count = self.stores.transit.count();
        // the generator gives a number; an enum of the three calls would only be made from it and matched again
        match self.generator.below(3) {
            0 => self.deliver(count),
            1 => self.start(nodes),
            _ => {
                if let Some(node) = self.any_of(NodeSet::below(nodes))
                    && self.is_awake(node)
                {
                    self.start(node);
                }
            }
        }
    }

    // One of the nodes of a set.
    fn any_of(&mut self, nodes: NodeSet) -> Option<u8> {
        let lower = self.generator.below(nodes.len() as usize);
        nodes.members().nth(lower)
    }
}

// Every network of so many nodes: all pairs of nodes are listed, and every choice among them is tried.
use crate::choices::{choices_among, takes};
use crate::sweep::Sweep;
use base::refusal::Refusal;
use network::link::Link;
use network::network::Network;
use std::alloc::{AllocError, Global};

impl Sweep {
    pub(crate) fn sweep_networks(&mut self, nodes: u8) -> Result<(), AllocError> {
        let pairs = all_pairs(self.heap, nodes)?;
        for choice in 0..choices_among(pairs.len()) {
            let links = chosen(self.heap, &pairs, choice)?;
            self.sweep_network(nodes, &links)?;
        }
        Ok(())
    }

    // Links that leave two nodes without a path make no network, and any others do.
    fn sweep_network(&mut self, nodes: u8, links: &[Link]) -> Result<(), AllocError> {
        let mut network = Network::single();
        match network.make(nodes, links) {
            Ok(()) => {
                self.totals.add_network();
                self.play_waves(&network)
            }
            Err(Refusal::NoPath) => Ok(()),
            Err(_) => {
                self.totals.add_fault();
                Ok(())
            }
        }
    }
}

// A link for each pair of nodes, by the higher and then by the lower of them.
fn all_pairs(heap: Global, nodes: u8) -> Result<Vec<Link>, AllocError> {
    (0..nodes)
        .flat_map(|second| (0..second).map(move |first| Link::new(first, second)))
        .collect(heap)
}

fn chosen(heap: Global, pairs: &[Link], choice: u32) -> Result<Vec<Link>, AllocError> {
    pairs
        .iter()
        .enumerate()
        .filter(|(place, _)| takes(choice, *place))
        .map(|(_, pair)| *pair)
        .collect(heap)
}

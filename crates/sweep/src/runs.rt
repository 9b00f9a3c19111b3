// Every run on a network: all waves that it admits, all kinds, many orders of calls, and all sets of starters.
use crate::MOST_NODES;
use crate::choices::{choices_among, takes};
use crate::kinds::Sampled;
use crate::play::{Setup, play_run};
use crate::sweep::Sweep;
use base::node_set::NodeSet;
use extinction::allowance::allowance;
use network::network::Network;
use std::alloc::{AllocError, Global};
use tables::message::Message;
use values::device::Device;
use values::holding::Holding;
use values::inventory::Inventory;
use values::key::KeyOrder;
use values::least::Least;
use values::number::Number;
use wave::wave::Wave;
use waves::echo::Echo;
use waves::ring::Ring;
use waves::tree::Tree;

// While starters are wanted, every turn is a start, or on average one in two, in three or in four.
const PACES: u8 = 4;

// Each pace, with the values handed out from each of them on.
const ORDERS: u8 = PACES * MOST_NODES;

impl Sweep {
    pub(crate) fn play_waves(&mut self, network: &Network) -> Result<(), AllocError> {
        self.play_wave::<Ring>(network)?;
        self.play_wave::<Tree>(network)?;
        self.play_wave::<Echo>(network)
    }

    // Both kinds of key with both kinds of holding, where the wave runs at all.
    fn play_wave<W: Wave>(&mut self, network: &Network) -> Result<(), AllocError> {
        if !W::admits(network) {
            return Ok(());
        }
        self.play_orders::<W, Number, Least>(network)?;
        self.play_orders::<W, Number, Inventory>(network)?;
        self.play_orders::<W, Device, Least>(network)?;
        self.play_orders::<W, Device, Inventory>(network)
    }

    fn play_orders<W: Wave, K: KeyOrder + Sampled, T: Holding + Sampled + PartialEq + Default>(
        &mut self,
        network: &Network,
    ) -> Result<(), AllocError> {
        for order in 0..ORDERS {
            self.play_starters::<W, K, T>(network, order)?;
        }
        Ok(())
    }

    // All sets of starters but the empty one.
    fn play_starters<W: Wave, K: KeyOrder + Sampled, T: Holding + Sampled + PartialEq + Default>(
        &mut self,
        network: &Network,
        order: u8,
    ) -> Result<(), AllocError> {
        let nodes = network.nodes();
        let setup: Setup<K, T> = Setup {
            network: *network,
            keys: samples(self.heap, nodes, order)?,
            own: samples(self.heap, nodes, order)?,
            pace: 1 + (order / MOST_NODES) as usize,
        };
        let mut running: Vec<T> = samples(self.heap, nodes, order)?;
        // as many places as there can be messages if every node starts, and none more
        let most = allowance::<W, K, T>(network, nodes) as usize;
        let mut places = vec![in self.heap; Message::default(); most]?;
        for choice in 1..choices_among(nodes as usize) {
            let starters = chosen(nodes, choice);
            play_run::<W, K, T>(
                &setup,
                &mut running,
                &mut places,
                starters,
                &mut self.totals,
            );
        }
        Ok(())
    }
}

// A value for each node, from one of them on.
fn samples<V: Sampled>(heap: Global, nodes: u8, from: u8) -> Result<Vec<V>, AllocError> {
    (0..nodes)
        .map(|node| V::sample(node.wrapping_add(from)))
        .collect(heap)
}

// As links are chosen, but into a set.
fn chosen(nodes: u8, choice: u32) -> NodeSet {
    (0..nodes)
        .filter(|node| takes(choice, *node as usize))
        .fold(NodeSet::empty(), NodeSet::with)
}

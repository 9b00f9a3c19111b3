// The networks of the workloads, each of 32 nodes.
ghost use Rattle.std.specs.Prelude.{◌<◌};
ghost use Rattle.std.specs.List.{All};
ghost use Rattle.network.specs.Making.{Has};
ghost use Rattle.samples.specs.Samples.{mesh};

use network::link::Link;
use network::network::Network;
use samples::networks::{mesh_links, network_of};
use std::array;

// As many nodes as a network can have.
pub(crate) const NODES: u8 = 32;

pub(crate) fn ring() -> Network {
    network_of(NODES, &ring_links())
}

pub(crate) fn tree() -> Network {
    network_of(NODES, &tree_links())
}

pub(crate) fn mesh() -> Network
    ensures { Has result 32 mesh }
{
    network_of(NODES, &mesh_links())
}

// Each node is joined to the next, and the last to the first.
fn ring_links() -> [Link; 32]
    ensures inside { All (λ link. link.second < 32) result }
{
    array::from_fn(|place| {
        let node = place as u8;
        let next = (node + 1) % NODES;
        Link::new(node.min(next), node.max(next))
    })
}

// Each node i above 0 is joined to node (i - 1) / 2.
fn tree_links() -> [Link; 31]
    ensures inside { All (λ link. link.second < 32) result }
{
    array::from_fn(|below| Link::new(below as u8 / 2, below as u8 + 1))
}

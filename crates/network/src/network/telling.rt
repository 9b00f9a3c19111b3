// What a network tells of itself. A number that is no node has no neighbours.
ghost use Rattle.std.specs.Prelude.{◌≡◌, ◌*◌, ◌≤◌, slice_index_or};
ghost use Rattle.base.specs.NodeSets.{no_nodes, size};
ghost use Rattle.network.specs.Paths.{Connected, adjacent, degrees};

use super::Network;
use base::node_set::NodeSet;

impl Network {
    pub fn nodes(&self) -> u8
        ensures value { result ≡ self.now.nodes }
        ensures bounds { (1 ≤ result) × (result ≤ 32) }
        ensures connected { Connected result (adjacent self.now.neighbours) }
    {
        self.nodes
    }

    // How many links there are; the sum of all degrees is twice that.
    pub fn links(&self) -> u8
        ensures value { result ≡ self.now.links }
        ensures bound { result ≤ 96 }
        ensures degrees { degrees self.now.neighbours ≡ 2 * result }
    {
        self.links
    }

    pub fn neighbours(&self, node: u8) -> NodeSet
        ensures value { result ≡ slice_index_or self.now.neighbours node no_nodes }
    {
        self.neighbours
            .get(node as usize)
            .copied()
            .unwrap_or(NodeSet::empty())
    }

    // Whether a link joins the two nodes, either way round.
    pub fn are_neighbours(&self, a: u8, b: u8) -> bool
        ensures value { result ≡ adjacent self.now.neighbours a b }
        ensures both_ways { result ≡ adjacent self.now.neighbours b a }
    {
        self.neighbours(a).contains(b)
    }

    // How many neighbours a node has.
    pub fn degree(&self, node: u8) -> u8
        ensures value { result ≡ size (slice_index_or self.now.neighbours node no_nodes) }
    {
        self.neighbours(node).len()
    }
}

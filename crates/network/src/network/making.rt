// Networks made from nodes and links.
ghost use Rattle.std.specs.Prelude.{◌≡◌, [], is_ok, IfOk, Ok, Err, Decides, MatchResult, OnOk};
ghost use Rattle.base.specs.NodeSets.{no_nodes};
ghost use Rattle.network.specs.Making.{Answered, Has, Lawful};
ghost use Rattle.network.specs.declared.network.Network.{Network};

use super::Network;
use super::drawing::drawn;
use super::search::reached;
use crate::link::Link;
use base::node_set::NodeSet;
use base::refusal::Refusal;

// A network has 1 to 32 nodes and 0 to 96 links.
const MOST_NODES: u8 = 32;

const MOST_LINKS: usize = 96;

// The node that the search for paths sets out from.
const START: u8 = 0;

impl Network {
    // One node and no link.
    pub fn single() -> Network
        ensures value { Has result 1 [] }
    {
        alone(NodeSet::empty())
    }

    // Makes this network anew, of nodes and links of any number and content: the two that a network is made of, here
    // and in what this calls. A refusal leaves it as it was.
    #[tactic(auto, using(crate::proofs::Made::answered_accepted))]
    pub fn make(&mut self, nodes: u8, links: &[Link]) -> Result<(), Refusal>
        ensures answer { Answered nodes links.now result }
        ensures accepted { Decides (is_ok result) (Lawful nodes links.now) }
        ensures after { MatchResult result (λ _. Has self.new nodes links.now) (λ _. self.new ≡ self.old) }
        ensures only { OnOk result ((other : Network) → Has other nodes links.now → other ≡ self.new) }
    {
        *self = made(nodes, links)?;
        Ok(())
    }
}

// The network of one node with this row of neighbours, which has none. Written out in `single`, where the row is the
// empty set, the check did not close it without an answer that is fitted to the code.
fn alone(row: NodeSet) -> Network
    requires { row ≡ no_nodes }
    ensures value { Has result 1 [] }
{
    Network {
        nodes: 1,
        links: 0,
        neighbours: [row; 32],
    }
}

// The network of these nodes and links, or the first rule that they break.
fn made(nodes: u8, links: &[Link]) -> Result<Network, Refusal>
    ensures answer { MatchResult result (λ _. Answered nodes links.now (Ok tt)) (λ why. Answered nodes links.now (Err why)) }
    ensures value { IfOk result (λ n. Has n nodes links.now) }
    ensures only { IfOk result (λ n. (other : Network) → Has other nodes links.now → other ≡ n) }
{
    if nodes < 1 || nodes > MOST_NODES || links.len() > MOST_LINKS {
        return Err(Refusal::CountOutOfRange);
    }
    let neighbours = drawn(nodes, links)?;
    if !reached(&neighbours, START).equals(NodeSet::below(nodes)) {
        return Err(Refusal::NoPath);
    }
    Ok(Network {
        nodes,
        links: links.len() as u8,
        neighbours,
    })
}

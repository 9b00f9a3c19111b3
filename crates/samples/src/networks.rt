// Small networks and the largest one.
ghost use Rattle.std.specs.Prelude.{◌≡◌, ◌<◌, []};
ghost use Rattle.network.specs.Making.{Has, Lawful};
ghost use Rattle.samples.specs.Samples.{mesh, path_links, rung, triangle_links};

use network::link::Link;
use network::network::Network;
use std::array;

// The network of these nodes and links where they are lawful, and one node alone where they are not.
pub fn network_of(nodes: u8, links: &[Link]) -> Network
    ensures lawful { Lawful nodes links.now → Has result nodes links.now }
    ensures other { (Lawful nodes links.now → ⊥) → Has result 1 [] }
{
    let mut network = Network::single();
    let _ = network.make(nodes, links);
    network
}

// The path 0-1-2.
#[tactic(auto, using(crate::proofs::Lawfulness::path_lawful))]
pub fn path() -> Network
    ensures value { Has result 3 path_links }
    ensures lawful { Lawful 3 path_links }
{
    network_of(3, &links_of_path())
}

// A function of its own, so that a wrong link is refused here and not in the proof.
#[tactic(auto, using(crate::proofs::Lawfulness::is_link))]
fn links_of_path() -> [Link; 2]
    ensures { result ≡ path_links }
{
    [Link::new(0, 1), Link::new(1, 2)]
}

// Three nodes, each joined to the two others.
#[tactic(auto, using(crate::proofs::Lawfulness::triangle_lawful))]
pub fn triangle() -> Network
    ensures value { Has result 3 triangle_links }
    ensures lawful { Lawful 3 triangle_links }
{
    network_of(3, &links_of_triangle())
}

// As the links of the path.
#[tactic(auto, using(crate::proofs::Lawfulness::is_link))]
fn links_of_triangle() -> [Link; 3]
    ensures { result ≡ triangle_links }
{
    [Link::new(0, 1), Link::new(1, 2), Link::new(0, 2)]
}

// The most links that a network can have: each of the nodes 0 to 23 is joined to those 1, 2, 4 and 8 above it.
pub fn mesh_links() -> [Link; 96]
    ensures value { result ≡ mesh }
    ensures lawful { Lawful 32 result }
{
    array::from_fn(
        |place: usize| -> Link
            requires { place < 96 }
            ensures { result ≡ rung place }
        {
            let node = place as u8 / 4;
            Link::new(node, node + (1 << (place % 4)))
        },
    )
}

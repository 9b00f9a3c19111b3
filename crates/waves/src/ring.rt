// The ring wave: one message goes round.
ghost use Rattle.std.specs.Prelude.{◌≡◌, ◌==◌};
ghost use Rattle.base.specs.NodeSets.{size};
ghost use Rattle.rules.specs.Sets.{neighbours_of};
ghost use Rattle.rules.specs.Ring.{admitted as ring_admitted, arrival as ring_arrival, most as ring_most, onward as ring_onward, opening as ring_opening, passed as ring_passed, two_each};
ghost use Rattle.rules.proofs.RingLaws.{ring_keeps_laws};

use crate::sets;
use base::node_set::NodeSet;
use network::network::Network;
use wave::step::{Record, Standing, Step};
use wave::wave::Wave;

pub struct Ring {}

impl Wave for Ring {
    ghost admitted = { ring_admitted };

    ghost most = { ring_most };

    ghost opening = { ring_opening };

    ghost arrival = { ring_arrival };

    ghost laws = { ring_keeps_laws };

    fn admits(network: &Network) -> bool {
        network.nodes() <= 2 || has_two_each(network)
    }

    fn bound(network: &Network) -> u32 {
        network.nodes() as u32
    }

    fn open(network: &Network, node: u8) -> Step {
        let around = network.neighbours(node);
        Step {
            kept: Record::joined_as(Standing::Starter),
            first_kind: sets::lowest_of(around),
            second_kind: NodeSet::empty(),
            decides: around.is_empty(),
        }
    }

    fn arrive(
        network: &Network,
        node: u8,
        known: bool,
        kept: Record,
        sender: u8,
        kind: u8,
    ) -> Step {
        let around = network.neighbours(node);
        if known {
            pass_on(around, kept, sender)
        } else {
            pass_on(
                around,
                Record::joined_as(Standing::Follower(sender)),
                sender,
            )
        }
    }
}

// Whether each node has two neighbours.
fn has_two_each(network: &Network) -> bool
    ensures value { result ≡ two_each network.now network.now.nodes }
{
    (0..network.nodes()).all(
        |node|
            ensures value { result ≡ (size (neighbours_of network.entry.now node) == 2) }
        { network.degree(node) == 2 },
    )
}

// The other neighbour, or the sender where there is no other.
fn other_neighbour(around: NodeSet, sender: u8) -> NodeSet
    ensures value { result ≡ ring_onward around sender }
{
    let rest = around.minus(NodeSet::only(sender));
    if !rest.is_empty() {
        return sets::lowest_of(rest);
    }
    sets::if_so(around.contains(sender), NodeSet::only(sender))
}

// The step of a node with this record that a message reaches.
fn pass_on(around: NodeSet, kept: Record, sender: u8) -> Step
    ensures value { result ≡ ring_passed around kept sender kept.standing }
{
    match kept.standing {
        Standing::Starter => Step {
            kept,
            first_kind: NodeSet::empty(),
            second_kind: NodeSet::empty(),
            decides: true,
        },
        Standing::Follower(_) => Step {
            kept,
            first_kind: other_neighbour(around, sender),
            second_kind: NodeSet::empty(),
            decides: false,
        },
    }
}

// The echo wave: out over all links, and back to the starter.
ghost use Rattle.std.specs.Prelude.{◌≡◌};
ghost use Rattle.rules.specs.Echo.{admitted as echo_admitted, arrival as echo_arrival, most as echo_most, notes_last, noting, opening as echo_opening, parent_of};
ghost use Rattle.rules.proofs.EchoLaws.{echo_keeps_laws};

use crate::sets;
use base::node_set::NodeSet;
use network::network::Network;
use wave::step::{Record, Standing, Step};
use wave::wave::Wave;

pub struct Echo {}

impl Wave for Echo {
    ghost admitted = { echo_admitted };

    ghost most = { echo_most };

    ghost opening = { echo_opening };

    ghost arrival = { echo_arrival };

    ghost laws = { echo_keeps_laws };

    fn admits(_network: &Network) -> bool {
        true
    }

    fn bound(network: &Network) -> u32 {
        2 * network.links() as u32
    }

    fn open(network: &Network, node: u8) -> Step {
        let around = network.neighbours(node);
        Step {
            kept: Record::joined_as(Standing::Starter),
            first_kind: around,
            second_kind: NodeSet::empty(),
            decides: around.is_empty(),
        }
    }

    fn arrive(
        network: &Network,
        node: u8,
        known: bool,
        kept: Record,
        sender: u8,
        _kind: u8,
    ) -> Step {
        let around = network.neighbours(node);
        if known {
            return note(around, kept, sender, NodeSet::empty());
        }
        let others = around.minus(NodeSet::only(sender));
        note(
            around,
            Record::joined_as(Standing::Follower(sender)),
            sender,
            others,
        )
    }
}

// A node notes the sender; `onward` gets the wave besides.
fn note(around: NodeSet, kept: Record, sender: u8, onward: NodeSet) -> Step
    ensures value { result ≡ noting around kept sender onward }
{
    let last = is_last(around, kept.marked, sender);
    let noted = sets::if_so(around.contains(sender), NodeSet::only(sender));
    let back = sets::common(around, parent(kept.standing));
    Step {
        kept: Record {
            marked: kept.marked.union(noted),
            ..kept
        },
        first_kind: onward.union(sets::if_so(last, back)),
        second_kind: NodeSet::empty(),
        decides: last && kept.standing == Standing::Starter,
    }
}

// Whether the arrival notes the last neighbour.
fn is_last(around: NodeSet, noted: NodeSet, sender: u8) -> bool
    ensures value { result ≡ notes_last around noted sender }
{
    let missing = around.minus(noted.union(NodeSet::only(sender)));
    around.contains(sender) && !noted.contains(sender) && missing.is_empty()
}

// The one that first reached a follower.
fn parent(standing: Standing) -> NodeSet
    ensures value { result ≡ parent_of standing }
{
    match standing {
        Standing::Starter => NodeSet::empty(),
        Standing::Follower(parent) => NodeSet::only(parent),
    }
}

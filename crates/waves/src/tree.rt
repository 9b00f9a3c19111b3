// The tree wave: tokens from the leaves meet, once wakes have reached them.
ghost use Rattle.std.specs.Prelude.{◌≡◌};
ghost use Rattle.rules.specs.Tree.{admitted as tree_admitted, arrival as tree_arrival, first_event, later_event, later_token, most as tree_most, notes_last, opening as tree_opening, still_silent, token_to};
ghost use Rattle.rules.proofs.TreeLaws.{tree_keeps_laws};

use crate::sets;
use base::node_set::NodeSet;
use network::network::Network;
use wave::kind::Kind;
use wave::step::{Record, Standing, Step};
use wave::wave::Wave;

// The kind of a token. A number, as kinds are here, since any other number is that of a wake.
const TOKEN: u8 = Kind::Second as u8;

pub struct Tree {}

impl Wave for Tree {
    ghost admitted = { tree_admitted };

    ghost most = { tree_most };

    ghost opening = { tree_opening };

    ghost arrival = { tree_arrival };

    ghost laws = { tree_keeps_laws };

    fn admits(network: &Network) -> bool {
        network.links() + 1 == network.nodes()
    }

    fn bound(network: &Network) -> u32 {
        2 * network.nodes() as u32 - 1
    }

    fn open(network: &Network, node: u8) -> Step {
        let around = network.neighbours(node);
        join(
            around,
            Standing::Starter,
            NodeSet::empty(),
            around,
            around.is_empty(),
        )
    }

    fn arrive(
        network: &Network,
        node: u8,
        known: bool,
        kept: Record,
        sender: u8,
        kind: u8,
    ) -> Step {
        let around = network.neighbours(node);
        if known {
            let silent = silent_after(kept.marked, sender, kind);
            return go_on(around, kept, silent, is_last(kept.marked, sender, kind));
        }
        let reached = sets::common(around, NodeSet::only(sender));
        let silent = silent_after(around, sender, kind);
        join(
            around,
            Standing::Follower(sender),
            reached,
            silent,
            is_last(around, sender, kind),
        )
    }
}

// The silent ones after an arrival.
fn silent_after(silent: NodeSet, sender: u8, kind: u8) -> NodeSet
    ensures value { result ≡ still_silent silent sender kind }
{
    silent.minus(sets::if_so(kind == TOKEN, NodeSet::only(sender)))
}

// Whether the arrival notes the last silent neighbour.
fn is_last(silent: NodeSet, sender: u8, kind: u8) -> bool
    ensures value { result ≡ notes_last silent sender kind }
{
    let left = silent_after(silent, sender, kind);
    kind == TOKEN && silent.contains(sender) && left.is_empty()
}

// Who gets the token at a first event: the one that is silent, or `back` where none is.
fn token_receiver(silent: NodeSet, back: NodeSet) -> NodeSet
    ensures value { result ≡ token_to silent back }
{
    if silent.is_empty() {
        return back;
    }
    sets::if_so(silent.len() == 1, silent)
}

// A first event: the token, if there is one to send, and wakes to all others but the sender.
fn join(
    around: NodeSet,
    standing: Standing,
    reached: NodeSet,
    silent: NodeSet,
    decides: bool,
) -> Step
    ensures value { result ≡ first_event around standing reached silent decides }
{
    let token = token_receiver(silent, reached);
    Step {
        kept: Record {
            standing,
            marked: silent,
            token_sent: !token.is_empty(),
        },
        first_kind: around.minus(reached).minus(token),
        second_kind: token,
        decides,
    }
}

// Who gets an unsent token at a later event: the last silent neighbour.
fn late_token(around: NodeSet, kept: Record, silent: NodeSet) -> NodeSet
    ensures value { result ≡ later_token around kept silent }
{
    sets::if_so(
        !kept.token_sent && silent.len() == 1,
        sets::common(around, silent),
    )
}

fn go_on(around: NodeSet, kept: Record, silent: NodeSet, decides: bool) -> Step
    ensures value { result ≡ later_event around kept silent decides }
{
    let token = late_token(around, kept, silent);
    Step {
        kept: Record {
            marked: silent,
            token_sent: kept.token_sent || !token.is_empty(),
            ..kept
        },
        first_kind: NodeSet::empty(),
        second_kind: token,
        decides,
    }
}

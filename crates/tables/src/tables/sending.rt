// The messages of an event are put into transit.
ghost use Rattle.std.specs.Prelude.{◌+◌, ◌≤◌, ◌++◌, map};
ghost use Rattle.base.specs.Bags.{Left, held, room};
ghost use Rattle.base.specs.NodeSets.{members, size};
ghost use Rattle.wave.specs.Kinds.{number_of};
ghost use Rattle.tables.specs.Messages.{message_to, messages};
ghost use Rattle.tables.specs.Tables.{sends};

use crate::event::Event;
use crate::message::Message;
use base::bag::Bag;
use base::node_set::NodeSet;
use wave::kind::Kind;

// Kind 1 by ascending neighbour, then kind 2, each with the new running holding.
pub(super) fn send<T: Copy>(transit: &mut Bag<Message<T>>, event: &Event<T>)
    requires fits { transit.old.count + sends event.now.step ≤ room transit.old }
    ensures after { Left transit.old transit.new (held transit.old ++ messages event.now.starter event.now.node event.now.step event.now.holding) }
{
    let first = event.step.first_kind;
    let second = event.step.second_kind;
    send_both(transit, event, first, Kind::First, second, Kind::Second);
}

fn send_both<T: Copy>(
    transit: &mut Bag<Message<T>>,
    event: &Event<T>,
    first: NodeSet,
    kind: Kind,
    second: NodeSet,
    other: Kind,
)
    requires fits { transit.old.count + (size first + size second) ≤ room transit.old }
    ensures after { Left transit.old transit.new (held transit.old ++ (map (message_to event.now.starter event.now.node (number_of kind) event.now.holding) (members first) ++ map (message_to event.now.starter event.now.node (number_of other) event.now.holding) (members second))) }
{
    send_kind(transit, event, first, kind);
    send_kind(transit, event, second, other);
}

// One message of a kind for each of the receivers. The messages of a lone run have no starter and no holding, so it
// sends its own.
fn send_kind<T: Copy>(
    transit: &mut Bag<Message<T>>,
    event: &Event<T>,
    receivers: NodeSet,
    kind: Kind,
)
    requires fits { transit.old.count + size receivers ≤ room transit.old }
    ensures after { Left transit.old transit.new (held transit.old ++ map (message_to event.now.starter event.now.node (number_of kind) event.now.holding) (members receivers)) }
{
    for receiver in receivers.members() {
        let _ = transit.put(Message {
            starter: event.starter,
            sender: event.node,
            receiver,
            kind: u8::from(kind),
            holding: event.holding,
        });
    }
}

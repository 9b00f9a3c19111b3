// Lone runs of a wave, one message after another, told in words.
use base::bag::Bag;
use base::node_set::NodeSet;
use network::network::Network;
use std::io;
use wave::kind::Kind;
use wave::step::{Record, Step};
use wave::wave::Wave;

#[derive(Clone, Copy)]
struct Message {
    sender: u8,
    receiver: u8,
    kind: Kind,
}

// More than the small networks of this program ever need.
const PLACES: usize = 64;

// What each node keeps, and how many messages of each kind were sent so far.
#[derive(Clone, Copy, Default)]
struct Nodes {
    records: [Option<Record>; 32],
    first: u32,
    second: u32,
}

impl Nodes {
    // The record of a node that has one.
    fn kept(&self, node: u8) -> Option<Record> {
        self.records.get(node as usize).copied().flatten()
    }

    fn arrive<W: Wave>(&self, network: &Network, m: Message) -> Step {
        let node = m.receiver;
        let kept = self.kept(node);
        let record = kept.unwrap_or_else(Record::blank);
        W::arrive(
            network,
            node,
            kept.is_some(),
            record,
            m.sender,
            m.kind.into(),
        )
    }

    // A node takes a step: its record is kept, and its messages are put into transit.
    fn take(&mut self, transit: &mut Bag<Message>, sender: u8, step: Step) {
        if let Some(record) = self.records.get_mut(sender as usize) {
            *record = Some(step.kept);
        }
        send(transit, sender, Kind::First, step.first_kind);
        send(transit, sender, Kind::Second, step.second_kind);
        self.first = self.first.saturating_add(step.first_kind.len() as u32);
        self.second = self.second.saturating_add(step.second_kind.len() as u32);
    }
}

// One message of a kind for each of the receivers.
fn send(transit: &mut Bag<Message>, sender: u8, kind: Kind, receivers: NodeSet) {
    for receiver in receivers.members() {
        let _ = transit.put(Message {
            sender,
            receiver,
            kind,
        });
    }
}

// Plays the wave from one node, always delivering the message at place 0, and says who decides and when.
pub(crate) fn tell<W: Wave>(
    rt: &impl Print,
    what: &str,
    network: &Network,
    starter: u8,
) -> io::Result<()> {
    let bound = W::bound(network);
    println!(rt; "{what} from node {starter}, with the bound {bound}:")?;
    let mut places = [Message {
        sender: 0,
        receiver: 0,
        kind: Kind::First,
    }; PLACES];
    let mut transit = Bag::over(&mut places);
    let mut nodes = Nodes::default();
    let opening = W::open(network, starter);
    nodes.take(&mut transit, starter, opening);
    tell_decision(rt, starter, opening, &nodes)?;
    for _ in 0..1_000_000u32 {
        let Ok(m) = transit.take(0) else {
            break;
        };
        let step = nodes.arrive::<W>(network, m);
        nodes.take(&mut transit, m.receiver, step);
        tell_decision(rt, m.receiver, step, &nodes)?;
    }
    println!(rt;
        "  at rest: {} of kind 1 and {} of kind 2 were sent",
        nodes.first, nodes.second
    )
}

// In this program's words, as all that it tells.
fn tell_decision(rt: &impl Print, node: u8, step: Step, nodes: &Nodes) -> io::Result<()> {
    if !step.decides {
        return Ok(());
    }
    let total = nodes.first.saturating_add(nodes.second);
    println!(rt; "  node {node} decides when {total} messages were sent")
}

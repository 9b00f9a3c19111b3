// Networks that are accepted and refused.
use base::refusal::Refusal;
use network::link::Link;
use network::network::Network;
use std::array;

// What making these nodes and links answers.
fn answer(nodes: u8, links: &[Link]) -> Result<(), Refusal> {
    let mut network = Network::single();
    network.make(nodes, links)
}

#[test]
fn middle_link_joins_the_halves(rt: HostRuntime) {
    let path = [Link::new(0, 1), Link::new(2, 3), Link::new(1, 2)];
    assert_eq!(rt; answer(4, &path[0..2]), Err(Refusal::NoPath));
    assert_eq!(rt; answer(4, &path), Ok(()));
}

#[test]
fn counts_out_of_range(rt: HostRuntime) {
    assert_eq!(rt; answer(0, &[]), Err(Refusal::CountOutOfRange));
    assert_eq!(rt; answer(1, &[]), Ok(()));
    assert_eq!(rt; answer(33, &[]), Err(Refusal::CountOutOfRange));
    assert_eq!(rt;
        answer(2, &[Link::new(0, 1); 97]),
        Err(Refusal::CountOutOfRange)
    );
    assert_eq!(rt;
        answer(2, &[Link::new(0, 1); 96]),
        Err(Refusal::LinkRepeated)
    );
}

#[test]
fn ends_out_of_order(rt: HostRuntime) {
    assert_eq!(rt; answer(2, &[Link::new(0, 2)]), Err(Refusal::EndsOutOfOrder));
    assert_eq!(rt; answer(2, &[Link::new(1, 0)]), Err(Refusal::EndsOutOfOrder));
    assert_eq!(rt; answer(2, &[Link::new(1, 1)]), Err(Refusal::EndsOutOfOrder));
}

#[test]
fn first_refusal_is_answered(rt: HostRuntime) {
    // a repeated link before one that leaves the nodes, and the other way round; nodes are parted in both
    let repeated = [Link::new(0, 1), Link::new(0, 1), Link::new(0, 9)];
    assert_eq!(rt; answer(4, &repeated), Err(Refusal::LinkRepeated));
    let outside = [Link::new(0, 1), Link::new(0, 9), Link::new(0, 1)];
    assert_eq!(rt; answer(4, &outside), Err(Refusal::EndsOutOfOrder));
    // no node at all is refused before any link is looked at
    assert_eq!(rt; answer(0, &outside), Err(Refusal::CountOutOfRange));
}

#[test]
fn refusal_leaves_the_network(rt: HostRuntime) {
    let mut network = Network::single();
    let path = [Link::new(0, 1), Link::new(1, 2)];
    assert_eq!(rt; network.make(3, &path), Ok(()));
    assert_eq!(rt; network.make(3, &path[0..1]), Err(Refusal::NoPath));
    assert_eq!(rt; network.nodes(), 3);
    assert_eq!(rt; network.links(), 2);
    assert_eq!(rt; network.degree(1), 2);
    assert!(rt; network.are_neighbours(2, 1));
    assert!(rt; !network.are_neighbours(0, 2));
}

// The nodes 0, 1 and 2 joined to all above them, and 3 to the next nine.
fn hubs() -> [Link; 96] {
    array::from_fn(|place| {
        let place = place as u8;
        if place < 87 {
            Link::new(place % 3, 3 + place / 3)
        } else {
            Link::new(3, place - 83)
        }
    })
}

#[test]
fn most_nodes_and_links(rt: HostRuntime) {
    let mut network = Network::single();
    assert_eq!(rt; network.make(32, &hubs()), Ok(()));
    assert_eq!(rt; network.nodes(), 32);
    assert_eq!(rt; network.links(), 96);
    assert_eq!(rt; network.degree(3), 12);
}

// Networks that are accepted and refused.
use network::link::Link;
use network::network::Network;
use samples::networks::mesh_links;
use std::io;

pub(crate) fn show_all(rt: &impl Print) -> io::Result<()> {
    let halves = [Link::new(0, 1), Link::new(2, 3)];
    show(
        rt,
        "A path of four nodes without its middle link",
        4,
        &halves,
    )?;
    let path = [Link::new(0, 1), Link::new(2, 3), Link::new(1, 2)];
    show(rt, "The same path with its middle link", 4, &path)?;
    let ring = [
        Link::new(0, 1),
        Link::new(1, 2),
        Link::new(2, 3),
        Link::new(3, 4),
        Link::new(0, 4),
    ];
    show(rt, "A ring of five nodes", 5, &ring)?;
    show(
        rt,
        "As many nodes and links as there can be",
        32,
        &mesh_links(),
    )
}

fn show(rt: &impl Print, what: &str, nodes: u8, links: &[Link]) -> io::Result<()> {
    println!(rt;
        "{what}: {nodes} nodes and {} links are given.",
        links.len()
    )?;
    let mut network = Network::single();
    match network.make(nodes, links) {
        Ok(()) => show_network(rt, &network),
        Err(why) => println!(rt; "  refused, {}: {why}", why.number()),
    }
}

fn show_network(rt: &impl Print, network: &Network) -> io::Result<()> {
    println!(rt;
        "  accepted: {} nodes and {} links",
        network.nodes(),
        network.links()
    )?;
    for node in 0..network.nodes() {
        print!(rt; "  node {node} has the neighbours")?;
        for neighbour in network.neighbours(node).members() {
            print!(rt; " {neighbour}")?;
        }
        println!(rt; "")?;
    }
    Ok(())
}

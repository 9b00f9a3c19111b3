// A network: its nodes, numbered from 0, and the neighbours of each. Every value of this type is lawful.
ghost use Rattle.std.specs.Prelude.{◌≡◌, ◌*◌, ◌≤◌, length};
ghost use Rattle.network.specs.Paths.{Connected, Inside, Loopless, Symmetric, adjacent, degrees};

use base::node_set::NodeSet;

mod drawing;
mod making;
mod search;
mod telling;

#[derive(Clone, Copy)]
pub struct Network {
    nodes: u8,
    links: u8,
    // the neighbours of each node, none past the nodes, so that equal networks are equal values; memory is fixed, so
    // there are rows for as many nodes as there can be
    neighbours: [NodeSet; 32],
    ghost table: { length neighbours ≡ 32 },
    ghost some: { 1 ≤ nodes },
    ghost few: { nodes ≤ 32 },
    ghost thin: { links ≤ 96 },
    ghost inside: { Inside nodes (adjacent neighbours) },
    ghost symmetric: { Symmetric (adjacent neighbours) },
    ghost loopless: { Loopless (adjacent neighbours) },
    ghost counted: { degrees neighbours ≡ 2 * links },
    ghost connected: { Connected nodes (adjacent neighbours) },
}

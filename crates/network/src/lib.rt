// Networks of nodes and two-way links. A network that exists has a path between any two nodes.

#![tactic(auto)]

pub mod link;
pub mod network;

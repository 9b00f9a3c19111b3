// The parts that every layer above uses: the refusals, sets of nodes, and the bag.

#![tactic(auto)]

pub mod bag;
pub mod node_set;
pub mod refusal;

// A set of nodes in one word: bit i says that node i is in. There are at most 32 nodes.
ghost use Rattle.std.specs.Prelude.{◌^◌, ◌<◌};

mod building;
pub mod members;
mod telling;

#[derive(Clone, Copy, PartialEq, Eq, Debug)]
pub struct NodeSet {
    bits: u32,
    // so that every set of the specifications is one of nodes 0 to 31
    ghost word: { bits < 2 ^ 32 },
}

// Sets made of nodes and of other sets. A number that is no node, 32 or more, is never a member.

#![tactic(auto, using(crate::proofs::Sets::of_bits))]

ghost use Rattle.std.specs.Prelude.{◌≡◌, ℕ, ◌-◌, ◌^◌, min, false, not, ◌&&◌, ◌||◌, ltb, if◌then◌else◌, ◌==◌, bit_and, bit_or, nat_lt};
ghost use Rattle.base.specs.NodeSets.{◌∖◌, ◌∪◌, has, no_nodes, only};

use super::NodeSet;

impl NodeSet {
    pub fn empty() -> NodeSet
        ensures value { result.bits ≡ 0 }
        ensures same { result ≡ no_nodes }
        ensures members { (i : ℕ) → has result i ≡ false }
    {
        NodeSet { bits: 0 }
    }

    // The one node.
    pub fn only(node: u8) -> NodeSet
        ensures same { result ≡ only node }
        ensures members { (i : ℕ) → has result i ≡ (i == node && nat_lt node 32) }
    {
        NodeSet::empty().with(node)
    }

    // The nodes 0 to `nodes` - 1.
    pub fn below(nodes: u8) -> NodeSet
        ensures value { result.bits ≡ 2 ^ min nodes 32 - 1 }
        ensures members { (i : ℕ) → has result i ≡ nat_lt i (min nodes 32) }
    {
        if nodes >= 32 {
            return NodeSet { bits: u32::MAX };
        }
        NodeSet {
            bits: (1 << nodes) - 1,
        }
    }

    pub fn with(self, node: u8) -> NodeSet
        ensures value { result.bits ≡ (if ltb node 32 then bit_or self.bits (2 ^ node) else self.bits) }
        ensures members { (i : ℕ) → has result i ≡ (has self i || (i == node && nat_lt node 32)) }
    {
        if node >= 32 {
            return self;
        }
        NodeSet {
            bits: self.bits | (1 << node),
        }
    }

    pub fn without(self, node: u8) -> NodeSet
        ensures value { result.bits ≡ (if ltb node 32 then bit_and self.bits (2 ^ 32 - 1 - 2 ^ node) else self.bits) }
        ensures members { (i : ℕ) → has result i ≡ (has self i && not (i == node)) }
    {
        if node >= 32 {
            return self;
        }
        NodeSet {
            bits: self.bits & !(1 << node),
        }
    }

    pub fn union(self, other: NodeSet) -> NodeSet
        ensures value { result.bits ≡ bit_or self.bits other.bits }
        ensures same { result ≡ self ∪ other }
        ensures members { (i : ℕ) → has result i ≡ (has self i || has other i) }
    {
        NodeSet {
            bits: self.bits | other.bits,
        }
    }

    pub fn minus(self, other: NodeSet) -> NodeSet
        ensures value { result.bits ≡ bit_and self.bits (2 ^ 32 - 1 - other.bits) }
        ensures same { result ≡ self ∖ other }
        ensures members { (i : ℕ) → has result i ≡ (has self i && not (has other i)) }
    {
        NodeSet {
            bits: self.bits & !other.bits,
        }
    }
}

// By hand, since no derive of it is taken beside a ghost field.
impl Default for NodeSet {
    ghost is_default = { λ set. set.bits ≡ 0 };

    fn default() -> Self {
        Self::empty()
    }
}

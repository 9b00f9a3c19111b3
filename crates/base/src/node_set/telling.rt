// What a set of nodes tells of itself.

#![tactic(auto, using(crate::proofs::Sets::of_bits))]

ghost use Rattle.std.specs.Prelude.{◌≡◌, ℕ, ◌<◌, true, false, Decides, MatchOption, ◌==◌};
ghost use Rattle.base.specs.NodeSets.{has, members, size};
ghost use Rattle.std.specs.List.{slice_get};

use super::NodeSet;

impl NodeSet {
    pub fn contains(self, node: u8) -> bool
        ensures value { result ≡ has self node }
    {
        node < 32 && (self.bits >> node) & 1 == 1
    }

    pub fn is_empty(self) -> bool
        ensures value { result ≡ (self.bits == 0) }
        ensures members { Decides result ((i : ℕ) → has self i ≡ false) }
    {
        self.bits == 0
    }

    pub fn len(self) -> u8
        ensures value { result ≡ size self }
    {
        self.bits.count_ones() as u8
    }

    // The lowest member.
    pub fn lowest(self) -> Option<u8>
        ensures value { result ≡ slice_get (members self) 0 }
        ensures cases { MatchOption result ((i : ℕ) → has self i ≡ false) (λ low. (has self low ≡ true) × ((i : ℕ) → i < low → has self i ≡ false)) }
    {
        if self.bits == 0 {
            return None;
        }
        Some(self.bits.trailing_zeros() as u8)
    }

    // As `==`, and it says besides that sets with the same members are the same.
    pub fn equals(self, other: NodeSet) -> bool
        ensures value { result ≡ (self.bits == other.bits) }
        ensures members { Decides result ((i : ℕ) → has self i ≡ has other i) }
    {
        self == other
    }
}

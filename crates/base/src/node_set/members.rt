// The members of a set one after another, ascending.
ghost use Rattle.std.specs.Prelude.{◌≡◌, [], ◌∷◌, MatchOption};
ghost use Rattle.base.specs.NodeSets.{members, size};
ghost use Rattle.std.specs.Iterator.{at_most};

use super::NodeSet;

#[derive(Drop)]
pub struct Members {
    rest: NodeSet,
}

impl NodeSet {
    pub fn members(self) -> Members
        ensures value { result.rest ≡ self }
    {
        Members { rest: self }
    }
}

impl Iterator for Members {
    type Item = u8;

    // What is left to come are the members of `rest`, the first of them next.
    ghost next_gives = { λ s r t. MatchOption r (members s.rest ≡ []) (λ node. members s.rest ≡ node ∷ members t.rest) };

    ghost remaining = { λ s. at_most (size s.rest) };

    #[tactic(auto, using(crate::proofs::Members::lowest_out))]
    fn next(&mut self) -> Option<u8> {
        let node = self.rest.lowest()?;
        self.rest = self.rest.without(node);
        Some(node)
    }
}

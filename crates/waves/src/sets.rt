// Sets of nodes that the steps of waves are made of, each the same value as in the rules.
ghost use Rattle.std.specs.Prelude.{◌≡◌};
ghost use Rattle.rules.specs.Sets.{◌∖◌, if_so, lowest_of};

use base::node_set::NodeSet;

// The set, or none where the test fails.
pub fn if_so(test: bool, set: NodeSet) -> NodeSet
    ensures value { result ≡ if_so test set }
{
    if test { set } else { NodeSet::empty() }
}

// The members of the one that are in the other too.
pub fn common(a: NodeSet, b: NodeSet) -> NodeSet
    ensures value { result ≡ a ∖ (a ∖ b) }
{
    a.minus(a.minus(b))
}

// The lowest member alone.
pub fn lowest_of(set: NodeSet) -> NodeSet
    ensures value { result ≡ lowest_of set }
{
    set.lowest().map_or(NodeSet::empty(), NodeSet::only)
}

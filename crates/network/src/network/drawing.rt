// The links given, one after another, on a table of neighbours.
ghost use Rattle.std.specs.Prelude.{◌≡◌, ℕ, ◌+◌, ◌≤◌, ◌||◌, [], IfOk, Some, None, MatchResult, OnOk};
ghost use Rattle.network.specs.Links.{fault, first_fault, joins};
ghost use Rattle.network.specs.Paths.{Symmetric, adjacent, degrees};
ghost use Rattle.network.specs.Drawing.{Drawn};

use crate::link::Link;
use base::node_set::NodeSet;
use base::refusal::Refusal;

// The table of all links, or the first fault among them.
pub(super) fn drawn(nodes: u8, links: &[Link]) -> Result<[NodeSet; 32], Refusal>
    requires few { nodes ≤ 32 }
    ensures faults { MatchResult result (λ _. first_fault nodes [] links.now ≡ None) (λ why. first_fault nodes [] links.now ≡ Some why) }
    ensures table { IfOk result (λ table. Drawn table links.now) }
{
    let mut table = [NodeSet::empty(); 32];
    for link in links {
        draw(nodes, *link, &mut table)?;
    }
    Ok(table)
}

// One link more on the table.
fn draw(nodes: u8, link: Link, table: &mut [NodeSet; 32]) -> Result<(), Refusal>
    requires few { nodes ≤ 32 }
    requires both_ways { Symmetric (adjacent table.old) }
    ensures faults { MatchResult result (λ _. fault nodes (adjacent table.old) link ≡ None) (λ why. fault nodes (adjacent table.old) link ≡ Some why) }
    ensures joined { OnOk result ((a b : ℕ) → adjacent table.new a b ≡ (adjacent table.old a b || joins link a b)) }
    ensures degrees { OnOk result (degrees table.new ≡ degrees table.old + 2) }
{
    let a = link.first();
    let b = link.second();
    if a >= b || b >= nodes {
        return Err(Refusal::EndsOutOfOrder);
    }
    if table[a as usize].contains(b) {
        return Err(Refusal::LinkRepeated);
    }
    table[a as usize] = table[a as usize].with(b);
    table[b as usize] = table[b as usize].with(a);
    Ok(())
}

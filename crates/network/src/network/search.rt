// The search for paths. Nodes that were reached and not yet looked from wait in a bag.
ghost use Rattle.std.specs.Prelude.{◌≡◌, ℕ, ◌+◌, ◌<◌, ◌≤◌, true, ◌++◌};
ghost use Rattle.base.specs.Bags.{Left, held, room};
ghost use Rattle.base.specs.NodeSets.{has, members, size};
ghost use Rattle.network.specs.Paths.{Path, adjacent};

use base::bag::Bag;
use base::node_set::NodeSet;

// Exactly the nodes that have a path from `from`.
pub(super) fn reached(table: &[NodeSet; 32], from: u8) -> NodeSet
    requires node { from < 32 }
    ensures sound { (b : ℕ) → has result b ≡ true → Path (adjacent table.now) from b }
    ensures whole { (b : ℕ) → Path (adjacent table.now) from b → has result b ≡ true }
{
    let mut places = [0u8; 32];
    let mut waiting = Bag::over(&mut places);
    let mut seen = NodeSet::only(from);
    let _ = waiting.put(from);
    while let Ok(node) = waiting.take(0) {
        let fresh = table[node as usize].minus(seen);
        seen = seen.union(fresh);
        put_all(&mut waiting, fresh);
    }
    seen
}

// Puts all members, ascending, where there are places for them.
fn put_all(waiting: &mut Bag<u8>, nodes: NodeSet)
    requires fits { waiting.old.count + size nodes ≤ room waiting.old }
    ensures after { Left waiting.old waiting.new (held waiting.old ++ members nodes) }
{
    for node in nodes.members() {
        let _ = waiting.put(node);
    }
}

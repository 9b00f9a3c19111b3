// What a run tells of its nodes.
ghost use Rattle.std.specs.Prelude.{◌≡◌, Ok};
ghost use Rattle.tables.specs.Calls.{passing};
ghost use Rattle.tables.specs.Checks.{node_else};
ghost use Rattle.election.specs.Promises.{Stands};
ghost use Rattle.election.specs.Questions.{TellsHoldings};
ghost use Rattle.tables.specs.Tables.{account_of, rank_in, row_of};

use super::Run;
use base::refusal::Refusal;
use tables::answer::Holdings;
use tables::ledger::Account;
use tables::row::Row;
use tables::tables::checks::{is_node, one_each};
use values::holding::Holding;
use values::key::KeyOrder;
use wave::wave::Wave;

// The promise stands in the contract of each question, and not in the type: it is a promise of calls. Row, account and
// rank are read from three tables of three types, each by the check and one index; one function for all three would
// be as long and say less.
impl<W: Wave, K: KeyOrder, T: Holding> Run<W, K, T> {
    // Where a node stands.
    pub fn row(&self, node: u8) -> Result<Row, Refusal>
        ensures value { result ≡ passing (node_else self.now.tables.network.nodes node) (Ok (row_of self.now.tables node)) }
        ensures promise { Stands W.admitted W.most W.opening W.arrival K.precedes T.meet self.now.tables }
    {
        self.has_node(node)?;
        Ok(self.tables.rows[node as usize])
    }

    // What the ledger has of a node as a starter.
    pub fn account(&self, node: u8) -> Result<Account, Refusal>
        ensures value { result ≡ passing (node_else self.now.tables.network.nodes node) (Ok (account_of self.now.tables node)) }
        ensures promise { Stands W.admitted W.most W.opening W.arrival K.precedes T.meet self.now.tables }
    {
        self.has_node(node)?;
        Ok(self.tables.ledger[node as usize])
    }

    // How many nodes have a key before this node's.
    pub fn rank(&self, node: u8) -> Result<u8, Refusal>
        ensures value { result ≡ passing (node_else self.now.tables.network.nodes node) (Ok (rank_in self.now.tables node)) }
        ensures promise { Stands W.admitted W.most W.opening W.arrival K.precedes T.meet self.now.tables }
    {
        self.has_node(node)?;
        Ok(self.tables.ranks[node as usize])
    }

    // A node's own and running holding. A question needs no transit, so it is handed the holdings alone.
    pub fn holdings(&self, own: &[T], running: &[T], node: u8) -> Result<Holdings<T>, Refusal>
        ensures value { TellsHoldings self.now.tables own.now running.now node result }
        ensures promise { Stands W.admitted W.most W.opening W.arrival K.precedes T.meet self.now.tables }
    {
        let node_is = self.has_node(node);
        one_each(self.tables.network.nodes(), own.len(), running.len())?;
        node_is?;
        Ok(Holdings {
            own: own[node as usize],
            running: running[node as usize],
        })
    }

    // The check that every question makes of its node.
    fn has_node(&self, node: u8) -> Result<(), Refusal>
        ensures value { result ≡ node_else self.now.tables.network.nodes node }
        ensures promise { Stands W.admitted W.most W.opening W.arrival K.precedes T.meet self.now.tables }
    {
        is_node(self.tables.network.nodes(), node)
    }
}

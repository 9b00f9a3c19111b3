// What the tables of a run have of a number, which may be no node: then it is asleep, of rank 0, and was not accepted.
ghost use Rattle.std.specs.Prelude.{◌≡◌, ◌<◌, true};
ghost use Rattle.tables.specs.Tables.{account_of, rank_in, standing_of};

use super::Tables;
use crate::standing::Joined;

impl Tables {
    // Where a node stands.
    pub(super) fn standing(&self, node: u8) -> Option<Joined>
        ensures value { result ≡ standing_of self.now node }
    {
        self.rows.get(node as usize).and_then(|row| row.joined)
    }

    pub(super) fn rank(&self, node: u8) -> u8
        ensures value { result ≡ rank_in self.now node }
    {
        self.ranks.get(node as usize).copied().unwrap_or(0)
    }

    // That an accepted starter is below 32 is handed on from here, clause by clause, to where its account is changed:
    // a message or a plan can hold any number, so neither can have it in its type.
    pub(super) fn is_accepted(&self, node: u8) -> bool
        ensures value { result ≡ (account_of self.now node).accepted }
        ensures inside { result ≡ true → node < 32 }
    {
        self.ledger
            .get(node as usize)
            .is_some_and(|account| account.accepted)
    }
}

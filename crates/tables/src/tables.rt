// The tables of a run: its network, the ranks of the nodes, a row for each node and the ledger. Messages and holdings
// are the caller's, and are handed to every call.
use crate::ledger::Account;
use crate::row::Row;
use network::network::Network;

pub mod checks;
mod deliver;
mod fate;
pub mod planning;
mod reading;
mod sending;
mod start;

// The tables stand side by side, each of fixed size: a call lends one row and one account for change, and the ranks
// are filled as a table of their own.
#[derive(Drop)]
pub struct Tables {
    pub network: Network,
    pub ranks: [u8; 32],
    pub rows: [Row; 32],
    pub ledger: [Account; 32],
}

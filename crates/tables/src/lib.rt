// The tables of a run: what they have of each node, and what a start and a delivery do to them.

#![tactic(auto)]

pub mod answer;
pub mod event;
pub mod ledger;
pub mod message;
pub mod row;
pub mod standing;
pub mod stores;
pub mod tables;
pub mod verdict;

// The run of an election: extinction, its ledger, and the promise over every order of calls.

#![tactic(auto)]

pub mod promise;
pub mod run;

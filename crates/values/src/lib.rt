// What an election compares and what it brings back: keys with their ranks, holdings with their fold.

#![tactic(auto)]

pub mod device;
mod digits;
pub mod fold;
pub mod form;
pub mod holding;
pub mod inventory;
pub mod key;
pub mod least;
pub mod number;
pub mod printed;
pub mod rank;

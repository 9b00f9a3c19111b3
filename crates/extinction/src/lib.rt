// Elections by extinction, in specs/, and what is promised of every one of them.

#![tactic(auto)]

pub mod allowance;
pub mod promise;

// Networks that programs and tests share.

#![tactic(auto)]

pub mod networks;

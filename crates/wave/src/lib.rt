// What a wave is: records, steps, and the interface with its laws.

#![tactic(auto)]

pub mod kind;
pub mod step;
pub mod wave;

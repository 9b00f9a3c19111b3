// The waves in code: each answers exactly what its rules say, and so keeps the laws of a wave.

#![tactic(auto)]

pub mod echo;
pub mod laws;
pub mod ring;
mod sets;
pub mod tree;

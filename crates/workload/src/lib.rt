// Whole elections played through the library, by functions that a program in Rust or C can call and time.

#![tactic(auto)]

mod ending;
pub mod exports;
mod mixture;
mod networks;
mod order;
mod playing;
pub mod tally;

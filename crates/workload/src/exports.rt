// What a program in Rust or C calls, so each wave has a name of its own. Each plays an election of 32 nodes that all
// start, so many times over, with deliveries at place 0 always or at scattered places. C hands in plain values.
use crate::networks;
use crate::order::Order;
use crate::playing::play;
use crate::tally::Tally;
use waves::echo::Echo;
use waves::ring::Ring;
use waves::tree::Tree;

#[unsafe(no_mangle)]
pub extern "C" fn play_ring(shift: u32, scattered: bool, seed: u32, times: u32) -> Tally {
    play::<Ring>(&networks::ring(), shift, Order::new(scattered, seed), times)
}

#[unsafe(no_mangle)]
pub extern "C" fn play_tree(shift: u32, scattered: bool, seed: u32, times: u32) -> Tally {
    play::<Tree>(&networks::tree(), shift, Order::new(scattered, seed), times)
}

#[unsafe(no_mangle)]
pub extern "C" fn play_echo(shift: u32, scattered: bool, seed: u32, times: u32) -> Tally {
    play::<Echo>(&networks::mesh(), shift, Order::new(scattered, seed), times)
}

// The sweep: many elections are played on every small network, by public calls only, and what is promised of a run
// is checked from the outside. One line tells the totals.

#![tactic(auto)]

use crate::sweep::Sweep;
use crate::totals::Totals;
use std::io;

mod choices;
mod counts;
mod generator;
mod kinds;
mod networks;
mod play;
mod runs;
mod seen;
mod sweep;
mod totals;

// Rings, trees and networks that are neither already come with four nodes, and all of these can still be played.
const MOST_NODES: u8 = 4;

fn main(rt: HostRuntime) -> io::Result<()> {
    let mut sweep = Sweep {
        heap: rt.alloc(),
        totals: Totals::default(),
    };
    for nodes in 1..=MOST_NODES {
        sweep.sweep_networks(nodes)?;
    }
    println!(rt; "{}", sweep.totals)
}

// The program: it shows in words what the library does so far.

#![tactic(auto)]

use std::io;

mod devices;
mod lone;
mod networks;
mod rehearsals;

fn main(rt: HostRuntime) -> io::Result<()> {
    networks::show_all(&rt)?;
    devices::show_all(&rt)?;
    rehearsals::show_all(&rt)
}

// What a station has to know of its devices together: the oldest firmware, the services that all offer, and
// the longest delay.
ghost use Rattle.std.specs.Prelude.{◌^◌, ◌<◌};

pub mod meeting;
pub mod printing;
mod telling;

#[derive(Clone, Copy, PartialEq, Eq, Debug)]
pub struct Inventory {
    firmware: u16,
    services: u16,
    delay: u16,
    // so that every inventory of the specifications has three words of 16 bits
    ghost words: { (firmware < 2 ^ 16) × (services < 2 ^ 16) × (delay < 2 ^ 16) },
}

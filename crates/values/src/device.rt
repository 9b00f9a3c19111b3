// A key that is a device: its class, and its number within the class.
ghost use Rattle.std.specs.Prelude.{◌^◌, ◌<◌, ◌≤◌};

pub mod ordering;
pub mod printing;
mod telling;

// The classes are 0 to 15.
pub const LAST_CLASS: u8 = 15;

#[derive(Clone, Copy, PartialEq, Eq, PartialOrd, Ord, Hash, Debug)]
pub struct Device {
    class: u8,
    number: u16,
    ghost known: { class ≤ 15 },
    // so that every device of the specifications has a number of 16 bits
    ghost word: { number < 2 ^ 16 },
}

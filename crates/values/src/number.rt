// A key that is a number of 32 bits.
ghost use Rattle.std.specs.Prelude.{◌^◌, ◌<◌};

pub mod ordering;
pub mod printing;
mod telling;

#[derive(Clone, Copy, PartialEq, Eq, PartialOrd, Ord, Hash, Debug)]
pub struct Number {
    value: u32,
    // so that every number of the specifications has 32 bits
    ghost word: { value < 2 ^ 32 },
}

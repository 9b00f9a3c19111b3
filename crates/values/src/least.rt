// A holding of 32 bits of which the smallest is wanted. Like a number, but a kind of its own: a type for both would
// let a holding be taken for a key, or need a marker parameter, to save two functions of one line each.
ghost use Rattle.std.specs.Prelude.{◌^◌, ◌<◌};

pub mod meeting;
pub mod printing;
mod telling;

#[derive(Clone, Copy, PartialEq, Eq, PartialOrd, Ord, Hash, Debug)]
pub struct Least {
    value: u32,
    // so that every holding of the specifications has 32 bits
    ghost word: { value < 2 ^ 32 },
}

// A bag of elements over places that the caller lends: messages in transit, nodes that wait.
ghost use Rattle.std.specs.Prelude.{◌≤◌, min, length};

mod filling;
mod telling;

// A bag uses the first 40,000,000 places at most. 32 starters of waves that send at most 1,000,000 messages
// each never need more.
pub const MOST_PLACES: usize = 40_000_000;

// The count stands beside the places, since these are the caller's: there is no heap.
#[derive(Drop)]
pub struct Bag<'a, T> {
    places: &'a mut [T],
    count: usize,
    ghost within: { count ≤ min (length places.now) 40000000 },
}

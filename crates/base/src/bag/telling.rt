// What a bag tells of itself.
ghost use Rattle.std.specs.Prelude.{◌≡◌, ◌-◌};
ghost use Rattle.base.specs.Bags.{Found, room};

use super::{Bag, MOST_PLACES};
use crate::refusal::Refusal;

impl<T: Copy> Bag<'_, T> {
    pub fn count(&self) -> usize
        ensures value { result ≡ self.now.count }
    {
        self.count
    }

    // How many elements can still be put.
    pub fn free(&self) -> usize
        ensures value { result ≡ room self.now - self.now.count }
    {
        self.places.len().min(MOST_PLACES) - self.count
    }

    // The element at a place, counted from 0; it stays in the bag.
    pub fn at(&self, place: usize) -> Result<T, Refusal>
        ensures answer { Found self.now place result }
    {
        self.places[..self.count]
            .get(place)
            .copied()
            .ok_or(Refusal::NoSuchPlace)
    }
}

// Elements put into a bag and taken out of it.
ghost use Rattle.std.specs.Prelude.{◌≡◌, ◌<◌, [], ◌∷◌, ◌++◌, IfOk, MatchResult, slice_index_or};
ghost use Rattle.base.specs.Bags.{Fits, Found, Left, held, room, taken};
ghost use Rattle.std.specs.List.Sorted.{IsPermutation};

use super::Bag;
use crate::refusal::Refusal;

impl<'a, T: Copy> Bag<'a, T> {
    // An empty bag. The places keep what they hold.
    pub fn over(places: &'a mut [T]) -> Bag<'a, T>
        ensures count { result.count ≡ 0 }
        ensures places { result.places.now ≡ places.old }
    {
        Bag { places, count: 0 }
    }

    // One element more, behind the others.
    pub fn put(&mut self, x: T) -> Result<(), Refusal>
        ensures answer { Fits self.old result }
        ensures after { MatchResult result (λ _. Left self.old self.new (held self.old ++ (x ∷ []))) (λ _. self.new ≡ self.old) }
    {
        if self.free() == 0 {
            return Err(Refusal::NoFreePlace);
        }
        self.append(x);
        Ok(())
    }

    // The element at a place, counted from 0, taken out. The others are the same elements as before.
    pub fn take(&mut self, place: usize) -> Result<T, Refusal>
        ensures answer { Found self.old place result }
        ensures after { MatchResult result (λ _. Left self.old self.new (taken (held self.old) place)) (λ _. self.new ≡ self.old) }
        ensures others { IfOk result (λ x. IsPermutation (held self.old) (x ∷ held self.new)) }
    {
        if place >= self.count {
            return Err(Refusal::NoSuchPlace);
        }
        Ok(self.close_up(place))
    }

    // Takes everything out. The places keep what they hold.
    pub fn clear(&mut self)
        ensures after { Left self.old self.new [] }
    {
        self.count = 0;
    }

    fn append(&mut self, x: T)
        requires free { self.old.count < room self.old }
        ensures after { Left self.old self.new (held self.old ++ (x ∷ [])) }
    {
        self.places[self.count] = x;
        self.count += 1;
    }

    // Takes out the element at a place, which the last one takes over.
    fn close_up(&mut self, place: usize) -> T
        requires within { place < self.old.count }
        ensures value { result ≡ slice_index_or self.old.places.now place result }
        ensures after { Left self.old self.new (taken (held self.old) place) }
        ensures others { IsPermutation (held self.old) (result ∷ held self.new) }
    {
        let x = self.places[place];
        let last = self.count - 1;
        self.places[place] = self.places[last];
        self.count = last;
        x
    }
}

// A kind of key: what an election compares. Nothing here says what a key is made of. Each kind hands its own derived
// order on, so that a wrong edit of it is refused in its own code.
ghost use Rattle.std.specs.Prelude.{◌≡◌, Bool};
ghost use Rattle.values.specs.Orders.{Equality, Order};

pub trait KeyOrder: Copy {
    // the first key is before the second
    ghost precedes: { Self → Self → Bool };

    // the two keys are equal
    ghost matches: { Self → Self → Bool };

    fn before(&self, other: &Self) -> bool
        ensures value { result ≡ precedes self.now other.now };

    fn equals(&self, other: &Self) -> bool
        ensures value { result ≡ matches self.now other.now };

    ghost ordered: { Order precedes };

    ghost decided: { Equality matches };
}
